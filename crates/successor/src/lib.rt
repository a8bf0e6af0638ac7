// The successor of a point: the next indices on its levels or, past the last of them, the first point of the next level vector; with values on the border, past
// the last point of a face the first of the next face.
#![tactic(auto)]

ghost use Rattle.std.specs.Prelude.{true, ◌≡◌, ◌^◌, ◌≤◌, ◌<◌};
ghost use Rattle.numbering.specs.Point.{at, IsPoint};
ghost use Rattle.numbering.specs.Number.{number};
ghost use Rattle.faces.specs.Marked.{Marked, border_number};
ghost use Rattle.points.specs.Steps.{PointIn};
ghost use Rattle.successor.specs.Steps.{StepsIndices, next_inner, next_marked, unmarked_next};
ghost use Rattle.successor.specs.Successor.{successor_of};

use points::{MarkedPoint, Point};
use refusals::Refusal;
use shapes::{Rows, Shape};
use vectors::LevelVector;

// The indices stepped to the next on the same levels, in place, axis 1 fastest. Answers whether they were the last: then all are 1 again. (Axes and two arrays, which
// are parts of a point; by index, since past a zip with `iter_mut` nothing is known of what it wrote.)
fn next_indices(axes: usize, levels: &[u32; 8], indices: &mut [u32; 8]) -> bool
    requires { (axes ≤ 8) × IsPoint axes 8 (at levels.now) (at indices.old) }
    ensures { StepsIndices axes levels.now indices.old result indices.new }
{
    for (t, &level) in levels[..axes].iter().enumerate() {
        let raised = indices[t] + 2;
        if raised < (2 << level) {
            indices[t] = raised;
            return false;
        }
        indices[t] = 1;
    }
    true
}

// The next point of a sparse table of these axes and top level, or none past the last; the indices are stepped in place. (With its marks, none of them set, and inlined,
// with the other sort of table out of line: else the answer is copied right after a write, and the call takes twice as long.)
#[inline(always)]
fn next_point(
    axes: u32,
    level: u32,
    levels: &[u32; 8],
    indices: &mut [u32; 8],
) -> Option<MarkedPoint>
    requires { (1 ≤ axes) × (axes ≤ 8) × (level ≤ 8) × PointIn axes level levels.now indices.old }
    ensures { result ≡ unmarked_next (next_inner axes level (number axes (at levels.now) (at indices.old))) }
{
    if !next_indices(axes as usize, levels, indices) {
        return Some(MarkedPoint {
            marks: [0; 8],
            point: Point {
                levels: *levels,
                indices: *indices,
            },
        });
    }
    let mut vector = LevelVector::of(axes, *levels);
    vector.next();
    if level < vector.sum {
        return None;
    }
    Some(MarkedPoint {
        marks: [0; 8],
        point: Point {
            levels: vector.levels,
            indices: *indices,
        },
    })
}

// ---- with values on the border

// The next point of a face of so many inner axes, or none past the last: without inner axes it has one point.
fn next_within(axes: u32, level: u32, p: Point) -> Option<MarkedPoint>
    requires { (axes ≤ 8) × (level ≤ 8) × PointIn axes level p.levels p.indices }
    ensures { result ≡ unmarked_next (next_inner axes level (number axes (at p.levels) (at p.indices))) }
{
    if axes == 0 {
        return None;
    }
    let levels = p.levels;
    let mut indices = p.indices;
    next_point(axes, level, &levels, &mut indices)
}

// The first point of the face after that of this number, which is the last of its face, or the end. (By the number, since it happens once a face.)
fn next_face(axes: u32, level: u32, number: u64) -> Option<MarkedPoint>
    requires { (axes ≤ 4) × (level ≤ 8) × (number < 2 ^ 32) }
    ensures { result ≡ next_marked axes level number }
{
    let next = number + 1;
    if Rows::new().border_points(axes, level) <= next {
        return None;
    }
    Some(numbers::border_point(axes, level, next))
}

// The successor of a point of these axes and top level: the next point of its face, or the first of the next face, or the end.
#[inline(never)]
fn next_marked(axes: u32, level: u32, marks: [u32; 8], p: Point) -> Option<MarkedPoint>
    requires { (axes ≤ 4) × (level ≤ 8) × Marked axes level (at marks) (at p.levels) (at p.indices) }
    ensures { result ≡ next_marked axes level (border_number axes level (at marks) (at p.levels) (at p.indices)) }
{
    let here = numbers::within_face(axes, &marks, p);
    if let Some(next) = next_within(here.inner, level, here.point) {
        return Some(numbers::on_face(axes, marks, next.point));
    }
    next_face(axes, level, numbers::border_number(axes, level, &marks, p))
}

// ---- the call

// The successor of a point of a table with values on the border. (A call of its own: what the two sorts find is not copied together.)
#[inline(never)]
#[tactic(auto, using(points::proofs::Handed::turned_away), unfolding(crate::specs::Successor::successor_of))]
fn successor_on_faces(
    shape: Shape,
    marks: &[u32],
    levels: &[u32],
    indices: &[u32],
) -> Result<Option<MarkedPoint>, Refusal>
    requires { shape.border ≡ true }
    ensures { result ≡ successor_of shape marks.now levels.now indices.now }
{
    let p = points::point_from(shape, marks, levels, indices)?;
    Ok(next_marked(shape.axes, shape.level, points::padded(marks), p))
}

// The successor of a point, or none, the end, after the last.
#[tactic(auto, unfolding(crate::specs::Successor::successor_of, points::specs::Points::check_point))]
pub fn successor(
    shape: Shape,
    marks: &[u32],
    levels: &[u32],
    indices: &[u32],
) -> Result<Option<MarkedPoint>, Refusal>
    ensures { result ≡ successor_of shape marks.now levels.now indices.now }
{
    if shape.border {
        return successor_on_faces(shape, marks, levels, indices);
    }
    let checked = shape.check()?;
    let mut point_levels = [0; 8];
    let mut point_indices = [0; 8];
    points::read_into(
        checked,
        marks,
        levels,
        indices,
        &mut point_levels,
        &mut point_indices,
    )?;
    Ok(next_point(shape.axes, shape.level, &point_levels, &mut point_indices))
}
