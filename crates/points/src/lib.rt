// Points by value, and the check of a point that is handed in as three lists.
#![tactic(auto)]

ghost use Rattle.std.specs.Prelude.{◌≡◌, ◌≤◌, IfOk};
ghost use Rattle.numbering.specs.Point.{at, is_index};
ghost use Rattle.points.specs.Points.{mark_fits, eight, check_lists, check_point, bare_point, point_in, point_from};

use refusals::Refusal;
use shapes::{CheckedShape, Shape};

// A level and an index on each axis; places past the last axis are 0. (Two arrays, as document 01 has it: levels alone are compared,
// counted and numbered. No shape beside them, so that it is a point of one stands in clauses.)
#[derive(Clone, Copy)]
pub struct Point {
    pub levels: [u32; 8],
    pub indices: [u32; 8],
}

// A point with its mark on each axis: 0 inside, 1 on the lower border, 2 on the upper border; places past the last axis are 0.
#[derive(Clone, Copy)]
pub struct MarkedPoint {
    pub marks: [u32; 8],
    pub point: Point,
}

// An odd index below 2^(l+1). (The level's bound is that of the shift.)
fn is_index(l: u32, i: u32) -> bool
    requires { l ≤ 8 }
    ensures { result ≡ is_index l i }
{
    if i % 2 != 1 {
        return false;
    }
    i < (2 << l)
}

// Inside, or, where there are values on the border, on a border with level 0 and index 1.
fn mark_fits(border: bool, mark: u32, level: u32, index: u32) -> bool
    ensures { result ≡ mark_fits border mark level index }
{
    if mark == 0 {
        return true;
    }
    if !border {
        return false;
    }
    if 2 < mark {
        return false;
    }
    if level != 0 {
        return false;
    }
    index == 1
}

// A point of a checked shape that is handed in as three lists: whether it is refused, with 7 or 9; where it is not, its levels and indices are in the two lent arrays.
// One walk along the axes tests and takes them. No sum is formed of levels that were not tested. (By index, into two arrays, since past a zip with `iter_mut` nothing
// is known of what it wrote. Lent, so that who steps the point on does so in place: an array that is copied right after a write to one of its numbers waits for it.)
#[inline(always)]
pub fn read_into(
    checked: CheckedShape,
    marks: &[u32],
    levels: &[u32],
    indices: &[u32],
    point_levels: &mut [u32; 8],
    point_indices: &mut [u32; 8],
) -> Result<(), Refusal>
    ensures verdict { result ≡ check_lists checked.shape marks.now levels.now indices.now }
    ensures levels { IfOk result (λ passed. point_levels.new ≡ eight (at levels.now)) }
    ensures indices { IfOk result (λ passed. point_indices.new ≡ eight (at indices.now)) }
{
    let axes = checked.shape.axes as usize;
    *point_levels = [0; 8];
    *point_indices = [0; 8];
    if marks.len() != axes {
        return Err(Refusal::ListLength);
    }
    if levels.len() != axes {
        return Err(Refusal::ListLength);
    }
    if indices.len() != axes {
        return Err(Refusal::ListLength);
    }
    let mut left = checked.shape.level;
    for t in 0..axes {
        let level = levels[t];
        let index = indices[t];
        if left < level {
            return Err(Refusal::NoPoint);
        }
        if !is_index(level, index) {
            return Err(Refusal::NoPoint);
        }
        if !mark_fits(checked.shape.border, marks[t], level, index) {
            return Err(Refusal::NoPoint);
        }
        point_levels[t] = level;
        point_indices[t] = index;
        left -= level;
    }
    Ok(())
}

// The same, and beside the verdict, where it passes, the levels and indices by value. (Side by side, and compiled into the callers: inside a `Result` the point is taken
// apart and put together again.)
#[inline(always)]
pub fn read(
    checked: CheckedShape,
    marks: &[u32],
    levels: &[u32],
    indices: &[u32],
) -> (Result<(), Refusal>, Point)
    ensures { (result.0 ≡ check_lists checked.shape marks.now levels.now indices.now) × IfOk result.0 (λ passed. result.1 ≡ bare_point (at levels.now) (at indices.now)) }
{
    let mut p = Point {
        levels: [0; 8],
        indices: [0; 8],
    };
    let verdict = read_into(
        checked,
        marks,
        levels,
        indices,
        &mut p.levels,
        &mut p.indices,
    );
    (verdict, p)
}

// The same, the point in the answer.
#[tactic(auto, unfolding(crate::specs::Points::point_in))]
#[inline(always)]
pub fn point_in(
    checked: CheckedShape,
    marks: &[u32],
    levels: &[u32],
    indices: &[u32],
) -> Result<Point, Refusal>
    ensures { result ≡ point_in checked.shape marks.now levels.now indices.now }
{
    let (verdict, p) = read(checked, marks, levels, indices);
    verdict?;
    Ok(p)
}

// A point that is handed in as three lists: its levels and indices by value.
#[tactic(auto, unfolding(crate::specs::Points::point_from, crate::specs::Points::check_point, crate::specs::Points::point_in))]
#[inline(always)]
pub fn point_from(
    shape: Shape,
    marks: &[u32],
    levels: &[u32],
    indices: &[u32],
) -> Result<Point, Refusal>
    ensures { result ≡ point_from shape marks.now levels.now indices.now }
{
    point_in(shape.check()?, marks, levels, indices)
}

// Whether a point that is handed in as three lists is refused, and beside it, also where it is, the first eight numbers of the levels and of the indices.
#[tactic(auto, unfolding(crate::specs::Points::point_from))]
pub fn given(
    shape: Shape,
    marks: &[u32],
    levels: &[u32],
    indices: &[u32],
) -> (Result<(), Refusal>, Point)
    ensures { (result.0 ≡ check_point shape marks.now levels.now indices.now) × (result.1 ≡ bare_point (at levels.now) (at indices.now)) }
{
    let verdict = match point_from(shape, marks, levels, indices) {
        Err(why) => Err(why),
        Ok(_) => Ok(()),
    };
    (
        verdict,
        Point {
            levels: padded(levels),
            indices: padded(indices),
        },
    )
}

// What a list holds at a place, and 0 past its end.
fn place(list: &[u32], t: usize) -> u32
    ensures { result ≡ at list.now t }
{
    list.get(t).copied().unwrap_or(0)
}

// The first eight numbers of a list, with zeros past its end.
pub fn padded(list: &[u32]) -> [u32; 8]
    ensures { result ≡ eight (at list.now) }
{
    std::array::from_fn(|t| place(list, t))
}
