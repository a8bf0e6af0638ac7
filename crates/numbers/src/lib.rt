// The number of a point, and the point of a number.
#![tactic(auto)]

ghost use Rattle.std.specs.Prelude.{◌≡◌, ℕ, suc, ◌-◌, ◌%◌, ◌^◌, ◌≤◌, ◌<◌};
ghost use Rattle.naturals.specs.Sum.{sum_to};
ghost use Rattle.numbering.specs.Count.{vectors, points};
ghost use Rattle.numbering.specs.Point.{at, IsPoint};
ghost use Rattle.numbering.specs.Number.{first_of, number, rank, position};
ghost use Rattle.numbering.specs.Inverse.{level_of, sum_at, within, level_at, index_at};
ghost use Rattle.faces.specs.Packing.{before};
ghost use Rattle.faces.specs.Marked.{Marked, border_points, border_number, mark_at, border_level_at, border_index_at};
ghost use Rattle.points.specs.Points.{eight, bare_point, point_of};
ghost use Rattle.points.specs.Steps.{PointIn};
ghost use Rattle.numbers.specs.Numbers.{number_of_point, point_of_number};
ghost use Rattle.numbers.specs.Steps.{Lies, Sizes, indices_of, gathered, spread};

use points::{MarkedPoint, Point};
use refusals::Refusal;
use shapes::{Rows, Shape};
use vectors::LevelVector;

// ---- from point to number

// The rank of a level vector: two entries of the table for each axis. (The index also counts the axes, for the table: an enumerate would need it cast back.)
fn vector_rank(rows: &Rows, vector: &LevelVector) -> u64
    requires { vector.now.sum ≤ 8 }
    ensures { result ≡ rank (at vector.now.levels) vector.now.axes }
{
    let mut rank: u64 = 0;
    let mut sum: u32 = 0;
    for t in 0..vector.axes {
        let next = sum + vector.levels[t as usize];
        rank += rows.vectors(t + 1, next) - rows.vectors(t + 1, sum);
        sum = next;
    }
    rank
}

// The position of a point among those of its level vector.
fn position_at(vector: &LevelVector, indices: &[u32; 8]) -> u64
    requires { IsPoint vector.now.axes 8 (at vector.now.levels) (at indices.now) }
    ensures { result ≡ position (at vector.now.levels) (at indices.now) vector.now.axes }
{
    let mut position: u64 = 0;
    let mut sum: u32 = 0;
    for (bits, index) in vector.levels[..vector.axes as usize].iter().zip(indices) {
        let half = (*index - 1) / 2;
        position += u64::from(half) << sum;
        sum += *bits;
    }
    position
}

// The number of the first point of a level vector whose sum is at most 8.
fn first_in(vector: &LevelVector) -> u64
    requires { vector.now.sum ≤ 8 }
    ensures { result ≡ first_of vector.now.axes (at vector.now.levels) }
{
    let rows = Rows::new();
    let rank = vector_rank(&rows, vector);
    rows.start(vector.axes, vector.sum) + (rank << vector.sum)
}

// The number of the first point of a level vector of these axes, whose levels sum to at most 8. (Whatever stands past the axes.)
pub fn first_of(axes: u32, levels: [u32; 8]) -> u64
    requires { (1 ≤ axes) × (axes ≤ 8) × (sum_to (at levels) axes ≤ 8) }
    ensures { result ≡ first_of axes (at levels) }
{
    let inside = points::padded(&levels[..axes as usize]);
    first_in(&LevelVector::of(axes, inside))
}

// The number of a point of these axes, whose levels sum to at most 8.
fn number_at(axes: u32, p: Point) -> u64
    requires { (1 ≤ axes) × (axes ≤ 8) × PointIn axes 8 p.levels p.indices }
    ensures { result ≡ number axes (at p.levels) (at p.indices) }
{
    let vector = LevelVector::of(axes, p.levels);
    first_in(&vector) + position_at(&vector, &p.indices)
}

// ---- from point to number, with values on the border

// A point within its face: the levels and indices of the inner axes, one after the other, and how many these are.
#[derive(Clone, Copy)]
pub struct Within {
    pub inner: u32,
    pub point: Point,
}

// What the inner axes have, one after the other, and how many these are.
fn gathered(axes: u32, marks: &[u32; 8], list: &[u32; 8]) -> (u32, [u32; 8])
    requires { axes ≤ 8 }
    ensures { (result.0 ≡ before (at marks.now) axes) × (result.1 ≡ eight (gathered axes (at marks.now) (at list.now))) }
{
    let mut inner: u32 = 0;
    let mut values = [0u32; 8];
    for t in 0..axes {
        if marks[t as usize] == 0 {
            values[inner as usize] = list[t as usize];
            inner += 1;
        }
    }
    (inner, values)
}

// A point within its face.
pub fn within_face(axes: u32, marks: &[u32; 8], p: Point) -> Within
    requires { axes ≤ 8 }
    ensures { (result.inner ≡ before (at marks.now) axes) × (result.point ≡ bare_point (gathered axes (at marks.now) (at p.levels)) (gathered axes (at marks.now) (at p.indices))) }
{
    let (inner, levels) = gathered(axes, marks, &p.levels);
    let (_, indices) = gathered(axes, marks, &p.indices);
    Within {
        inner,
        point: Point { levels, indices },
    }
}

// The number of a point within its face, where that has inner axes; else it is the one point.
fn number_within(axes: u32, p: Point) -> u64
    requires { (axes ≤ 8) × PointIn axes 8 p.levels p.indices }
    ensures { result ≡ number axes (at p.levels) (at p.indices) }
{
    if axes == 0 { 0 } else { number_at(axes, p) }
}

// The number of a point of these axes and top level: that of the first point of its face, then the number within the face.
pub fn border_number(axes: u32, level: u32, marks: &[u32; 8], p: Point) -> u64
    requires { (axes ≤ 4) × (level ≤ 8) × Marked axes level (at marks.now) (at p.levels) (at p.indices) }
    ensures { result ≡ border_number axes level (at marks.now) (at p.levels) (at p.indices) }
{
    let within = within_face(axes, marks, p);
    layouts::face_start(axes, level, marks) + number_within(within.inner, within.point)
}

// ---- the call

// The number of a point.
#[tactic(auto, using(points::proofs::Handed::turned_away), unfolding(crate::specs::Numbers::number_of_point))]
pub fn number_of_point(
    shape: Shape,
    marks: &[u32],
    levels: &[u32],
    indices: &[u32],
) -> Result<u64, Refusal>
    ensures { result ≡ number_of_point shape marks.now levels.now indices.now }
{
    let p = points::point_from(shape, marks, levels, indices)?;
    if shape.border {
        let marks = points::padded(marks);
        return Ok(border_number(shape.axes, shape.level, &marks, p));
    }
    Ok(number_at(shape.axes, p))
}

// ---- from number to point

// Where a place lies among blocks 0 to `last` of these sizes: the block, and how many places of it come before.
fn block_at<F: Fn(u32) -> u64>(last: u32, place: u64, size: F) -> (u32, u64)
    requires { (j : ℕ) → j < last → F.pre size j }
    ensures { (f : ℕ → ℕ) → Sizes (F.post size) last f → place < sum_to f (suc last) → Lies f last place result.0 result.1 }
{
    let mut rest = place;
    for block in 0..last {
        let places = size(block);
        if rest < places {
            return (block, rest);
        }
        rest -= places;
    }
    (last, rest)
}

// The level vector of this rank and level sum, from the last axis down. (The index is also the number of axes that are left, which the table is asked for.)
fn levels_of(rows: &Rows, axes: u32, sum: u32, rank: u64) -> LevelVector
    requires { (1 ≤ axes) × (axes ≤ 8) × (sum ≤ 8) × (rank < vectors axes sum) }
    ensures { (result.axes ≡ axes) × (result.sum ≡ sum) × (result.levels ≡ eight (level_of axes sum rank)) }
{
    let mut levels = [0u32; 8];
    let mut left = sum;
    let mut rest = rank;
    for k in (1..axes).rev() {
        let (level, before) = block_at(left, rest, |level| rows.vectors(k, left - level));
        levels[k as usize] = level;
        left -= level;
        rest = before;
    }
    levels[0] = left;
    LevelVector { axes, sum, levels }
}

// The lowest bits of a number.
pub fn low_bits(x: u64, bits: u32) -> u64
    requires { bits ≤ 8 }
    ensures { result ≡ x % 2 ^ bits }
{
    x % (1 << bits)
}

// The indices at a position among the points of a level vector: the digits of the position, axis 1 lowest, l_t bits for axis t.
// (A zip with `iter_mut` was tried, and its proof did not close: past such a loop nothing is known of what it wrote.)
fn indices_of(vector: &LevelVector, position: u64) -> [u32; 8]
    requires { vector.now.sum ≤ 8 }
    ensures { result ≡ eight (indices_of vector.now.axes (at vector.now.levels) position) }
{
    let mut indices = [0u32; 8];
    let mut rest = position;
    for (t, bits) in vector.levels[..vector.axes as usize].iter().enumerate() {
        let digit = low_bits(rest, *bits);
        indices[t] = (2 * digit + 1) as u32;
        rest >>= *bits;
    }
    indices
}

// The level vector that a point lies in, and how many points of it come before the point.
#[derive(Clone, Copy)]
struct Placed {
    vector: LevelVector,
    position: u64,
}

// Where point number `number` of these axes and top level lies. (Two numbers and no `CheckedShape`: a face of a table with values on the border is a sparse table of
// fewer axes.)
fn vector_at(axes: u32, level: u32, number: u64) -> Placed
    requires { (1 ≤ axes) × (axes ≤ 8) × (level ≤ 8) × (number < points axes level) }
    ensures { (result.vector.axes ≡ axes) × (result.vector.sum ≡ sum_at axes level number) × (result.vector.levels ≡ eight (level_at axes level number)) × (result.position ≡ within axes level number % 2 ^ sum_at axes level number) }
{
    let rows = Rows::new();
    let (sum, rest) = block_at(level, number, |sum| rows.vectors(axes, sum) << sum);
    Placed {
        vector: levels_of(&rows, axes, sum, rest >> sum),
        position: low_bits(rest, sum),
    }
}

// Point number `number` of these axes and top level.
fn point_at(axes: u32, level: u32, number: u64) -> Point
    requires { (1 ≤ axes) × (axes ≤ 8) × (level ≤ 8) × (number < points axes level) }
    ensures { result ≡ bare_point (level_at axes level number) (index_at axes level number) }
{
    let placed = vector_at(axes, level, number);
    Point {
        levels: placed.vector.levels,
        indices: indices_of(&placed.vector, placed.position),
    }
}

// ---- from number to point, with values on the border

// What the inner axes have, each at its axis; this on a border axis, and 0 past the axes.
fn spread(axes: u32, marks: &[u32; 8], values: &[u32; 8], border: u32) -> [u32; 8]
    requires { axes ≤ 8 }
    ensures { result ≡ eight (spread axes (at marks.now) (at values.now) border) }
{
    let mut list = [0u32; 8];
    let mut inner: u32 = 0;
    for t in 0..axes {
        if marks[t as usize] == 0 {
            list[t as usize] = values[inner as usize];
            inner += 1;
        } else {
            list[t as usize] = border;
        }
    }
    list
}

// The point of a face whose inner axes have these levels and indices; a border axis has level 0 and index 1.
pub fn on_face(axes: u32, marks: [u32; 8], p: Point) -> MarkedPoint
    requires { axes ≤ 8 }
    ensures { result ≡ point_of (at marks) (spread axes (at marks) (at p.levels) 0) (spread axes (at marks) (at p.indices) 1) }
{
    let levels = spread(axes, &marks, &p.levels, 0);
    let indices = spread(axes, &marks, &p.indices, 1);
    MarkedPoint {
        marks,
        point: Point { levels, indices },
    }
}

// Point number `number` of a face, where that has inner axes; else it is the one point.
fn point_within(axes: u32, level: u32, number: u64) -> Point
    requires { (axes ≤ 8) × (level ≤ 8) × (number < points axes level) }
    ensures { result ≡ bare_point (level_at axes level number) (index_at axes level number) }
{
    if axes == 0 {
        return Point {
            levels: [0; 8],
            indices: [0; 8],
        };
    }
    point_at(axes, level, number)
}

// Point number `number` of these axes and top level.
pub fn border_point(axes: u32, level: u32, number: u64) -> MarkedPoint
    requires { (axes ≤ 4) × (level ≤ 8) × (number < border_points axes level) }
    ensures { result ≡ point_of (mark_at axes level number) (border_level_at axes level number) (border_index_at axes level number) }
{
    let face = layouts::face_of_number(axes, level, number);
    on_face(
        axes,
        face.marks,
        point_within(face.inner, level, face.number),
    )
}

// ---- the call

// The point of a number.
#[tactic(auto, unfolding(crate::specs::Numbers::point_of_number))]
pub fn point_of_number(shape: Shape, number: u64) -> Result<MarkedPoint, Refusal>
    ensures { result ≡ point_of_number shape number }
{
    let checked = shape.check()?;
    if checked.points() <= number {
        return Err(Refusal::PointNumber);
    }
    if shape.border {
        return Ok(border_point(shape.axes, shape.level, number));
    }
    Ok(MarkedPoint {
        marks: [0; 8],
        point: point_at(shape.axes, shape.level, number),
    })
}
