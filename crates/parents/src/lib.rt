// Hierarchical parents: what lies beside a point on one axis, by trailing zeros of the neighbour's numerator; on a border of the axis nothing does.
#![tactic(auto)]

ghost use Rattle.std.specs.Prelude.{true, ◌≡◌, ◌%◌, ◌^◌, ◌≤◌, ◌<◌, suc};
ghost use Rattle.numbering.specs.Point.{at};
ghost use Rattle.numbering.specs.Parent.{numerator, is_border, parent_level, parent_index, update};
ghost use Rattle.numbered.specs.Numbered.{mark_of};
ghost use Rattle.numbered.specs.Neighbours.{beside};
ghost use Rattle.points.specs.Points.{bare_point};
ghost use Rattle.parents.specs.Parents.{located, parent_of};

use numbering::Side;
use points::{MarkedPoint, Point};
use refusals::Refusal;
use shapes::Shape;

// The numerator of the neighbour of an index.
fn neighbour(side: Side, index: u32) -> u32
    requires { (1 ≤ index) × (index < 512) }
    ensures { result ≡ numerator side index }
{
    match side {
        Side::Left => index - 1,
        Side::Right => index + 1,
    }
}

// A neighbour at 0 or 1 is the border. (That a level is at most 8 stands where it is shifted by: a type for a level would be unpacked at each shift and definition.)
pub fn is_border(level: u32, numerator: u32) -> bool
    requires { level ≤ 8 }
    ensures { result ≡ is_border level numerator }
{
    numerator == 0 || numerator == (2 << level)
}

// The level and the odd index of a parent. (A struct: a pair of two numbers would not say which is which.)
#[derive(Clone, Copy)]
pub struct Reduced {
    pub level: u32,
    pub index: u32,
}

// The parent at a numerator within the borders: each factor of two that it shares with the denominator 2^(l+1) is dropped.
pub fn reduce(level: u32, numerator: u32) -> Reduced
    requires { (level ≤ 8) × (numerator % 2 ≡ 0) × (0 < numerator) × (numerator < 2 ^ suc level) }
    ensures { (result.level ≡ parent_level level numerator) × (result.index ≡ parent_index numerator) }
{
    let twos = numerator.trailing_zeros();
    Reduced {
        level: level - twos,
        index: numerator >> twos,
    }
}

// The mark of the border on a side.
fn mark_of(side: Side) -> u32
    ensures { result ≡ mark_of side }
{
    match side {
        Side::Left => 1,
        Side::Right => 2,
    }
}

// A point moved on axis t (from 0) to this level and index.
fn moved(t: usize, p: Point, level: u32, index: u32) -> Point
    requires { t < 8 }
    ensures { result ≡ bare_point (update (at p.levels) t level) (update (at p.indices) t index) }
{
    let Point {
        mut levels,
        mut indices,
    } = p;
    levels[t] = level;
    indices[t] = index;
    Point { levels, indices }
}

// What lies beside a point on axis t (from 0), whose level there is at most 8 and whose index is one of its level: the parent, or across the border the border
// point or none; beside a border point none. (The marks are copied where one changes: those of a zero border are known to be none.)
#[inline(always)]
fn beside(border: bool, t: usize, side: Side, p: MarkedPoint) -> Option<MarkedPoint>
    requires { (t < 8) × (at p.point.levels t ≤ 8) × (at p.point.indices t % 2 ≡ 1) × (at p.point.indices t < 2 ^ suc (at p.point.levels t)) }
    ensures { result ≡ located (beside border t side (at p.marks) (at p.point.levels) (at p.point.indices)) }
{
    if p.marks[t] != 0 {
        return None;
    }
    let level = p.point.levels[t];
    let numerator = neighbour(side, p.point.indices[t]);
    if !is_border(level, numerator) {
        let up = reduce(level, numerator);
        return Some(MarkedPoint {
            marks: p.marks,
            point: moved(t, p.point, up.level, up.index),
        });
    }
    if !border {
        return None;
    }
    let mut marks = p.marks;
    marks[t] = mark_of(side);
    Some(MarkedPoint {
        marks,
        point: moved(t, p.point, 0, 1),
    })
}

// What lies beside a point of a table with values on the border that is handed in as three lists, or none. (A call of its own: what the two sorts find is not copied
// together.)
#[inline(never)]
#[tactic(auto, using(points::proofs::Handed::lists_refused), unfolding(crate::specs::Parents::parent_of))]
fn beside_on_faces(
    shape: Shape,
    marks: &[u32],
    levels: &[u32],
    indices: &[u32],
    axis: u32,
    side: Side,
) -> Result<Option<MarkedPoint>, Refusal>
    requires { shape.border ≡ true }
    ensures { result ≡ parent_of shape marks.now levels.now indices.now axis side }
{
    let checked = shape.check()?;
    shape.check_axis(axis)?;
    let point = points::point_in(checked, marks, levels, indices)?;
    let marks = points::padded(marks);
    Ok(beside(
        true,
        (axis - 1) as usize,
        side,
        MarkedPoint { marks, point },
    ))
}

// What lies beside a point that is handed in as three lists, or none.
#[tactic(auto, unfolding(crate::specs::Parents::parent_of))]
#[inline(always)]
pub fn parent(
    shape: Shape,
    marks: &[u32],
    levels: &[u32],
    indices: &[u32],
    axis: u32,
    side: Side,
) -> Result<Option<MarkedPoint>, Refusal>
    ensures { result ≡ parent_of shape marks.now levels.now indices.now axis side }
{
    if shape.border {
        return beside_on_faces(shape, marks, levels, indices, axis, side);
    }
    let checked = shape.check()?;
    shape.check_axis(axis)?;
    let (verdict, point) = points::read(checked, marks, levels, indices);
    verdict?;
    let marks = [0u32; 8];
    Ok(beside(
        false,
        (axis - 1) as usize,
        side,
        MarkedPoint { marks, point },
    ))
}
