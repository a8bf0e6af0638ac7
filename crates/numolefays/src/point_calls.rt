// Points: their count, numbers, successors and parents.
ghost use Rattle.std.specs.Prelude.{◌≡◌};
ghost use Rattle.shapes.specs.Shapes.{counted};
ghost use Rattle.numbers.specs.Numbers.{number_of_point, point_of_number};
ghost use Rattle.successor.specs.Successor.{successor_of};
ghost use Rattle.parents.specs.Parents.{parent_of};
ghost use Rattle.answers.specs.Returned.{returned};
ghost use Rattle.answers.specs.Answers.{shape_of, side_of, of_value, of_point, of_located};

use numbering::Side;
use shapes::Shape;

// How many points the shape has.
#[unsafe(no_mangle)]
pub extern "C" fn numolefays_count(
    axes: u32,
    level: u32,
    border: u8,
    points: &mut u64,
    place: &mut u64,
) -> u32
    ensures { returned result place.new points.new ≡ of_value points.old (counted (shape_of axes level border)) }
{
    let answer = answers::shape_of(axes, level, border).count();
    answers::hand(answer, points, place)
}

// The number of a point.
#[unsafe(no_mangle)]
pub extern "C" fn numolefays_number_of_point(
    axes: u32,
    level: u32,
    border: u8,
    marks: &[u32],
    levels: &[u32],
    indices: &[u32],
    number: &mut u64,
    place: &mut u64,
) -> u32
    ensures { returned result place.new number.new ≡ of_value number.old (number_of_point (shape_of axes level border) marks.now levels.now indices.now) }
{
    let shape = answers::shape_of(axes, level, border);
    let answer = numbers::number_of_point(shape, marks, levels, indices);
    answers::hand(answer, number, place)
}

// The point of a number.
#[unsafe(no_mangle)]
pub extern "C" fn numolefays_point_of_number(
    axes: u32,
    level: u32,
    border: u8,
    number: u64,
    marks: &mut [u32; 8],
    levels: &mut [u32; 8],
    indices: &mut [u32; 8],
    place: &mut u64,
) -> u32
    ensures { returned result place.new (marks.new, levels.new, indices.new) ≡ of_point (marks.old, levels.old, indices.old) (point_of_number (shape_of axes level border) number) }
{
    let answer = numbers::point_of_number(answers::shape_of(axes, level, border), number);
    answers::hand_point(answer, marks, levels, indices, place)
}

// The successor of a point: `end` is 1 after the last point, else 0.
#[unsafe(no_mangle)]
pub extern "C" fn numolefays_successor(
    axes: u32,
    level: u32,
    border: u8,
    marks: &[u32],
    levels: &[u32],
    indices: &[u32],
    next_marks: &mut [u32; 8],
    next_levels: &mut [u32; 8],
    next_indices: &mut [u32; 8],
    end: &mut u32,
    place: &mut u64,
) -> u32
    ensures { returned result place.new (next_marks.new, next_levels.new, next_indices.new, end.new) ≡ of_located (next_marks.old, next_levels.old, next_indices.old, end.old) (successor_of (shape_of axes level border) marks.now levels.now indices.now) }
{
    let answer = successor::successor(
        answers::shape_of(axes, level, border),
        marks,
        levels,
        indices,
    );
    answers::hand_located(answer, next_marks, next_levels, next_indices, end, place)
}

// ---- parent

// The parent of a point with values on the border.
#[inline(never)]
fn parent_on_faces(
    axes: u32,
    level: u32,
    border: u8,
    marks: &[u32],
    levels: &[u32],
    indices: &[u32],
    axis: u32,
    side: Side,
    parent_marks: &mut [u32; 8],
    parent_levels: &mut [u32; 8],
    parent_indices: &mut [u32; 8],
    none: &mut u32,
    place: &mut u64,
) -> u32
    ensures { returned result place.new (parent_marks.new, parent_levels.new, parent_indices.new, none.new) ≡ of_located (parent_marks.old, parent_levels.old, parent_indices.old, none.old) (parent_of (shape_of axes level border) marks.now levels.now indices.now axis side) }
{
    let shape = answers::shape_of(axes, level, border);
    let found = parents::parent(shape, marks, levels, indices, axis, side);
    answers::hand_located(
        found,
        parent_marks,
        parent_levels,
        parent_indices,
        none,
        place,
    )
}

// The parent of a point on an axis, on side 0 the left one and else the right one: `none` is 1 where there is none, else 0.
#[unsafe(no_mangle)]
pub extern "C" fn numolefays_parent(
    axes: u32,
    level: u32,
    border: u8,
    marks: &[u32],
    levels: &[u32],
    indices: &[u32],
    axis: u32,
    side: u32,
    parent_marks: &mut [u32; 8],
    parent_levels: &mut [u32; 8],
    parent_indices: &mut [u32; 8],
    none: &mut u32,
    place: &mut u64,
) -> u32
    ensures { returned result place.new (parent_marks.new, parent_levels.new, parent_indices.new, none.new) ≡ of_located (parent_marks.old, parent_levels.old, parent_indices.old, none.old) (parent_of (shape_of axes level border) marks.now levels.now indices.now axis (side_of side)) }
{
    let side = answers::side_of(side);
    if border == 0 {
        let shape = Shape::sparse(axes, level);
        let answer = parents::parent(shape, marks, levels, indices, axis, side);
        return answers::hand_located(
            answer,
            parent_marks,
            parent_levels,
            parent_indices,
            none,
            place,
        );
    }
    parent_on_faces(
        axes,
        level,
        border,
        marks,
        levels,
        indices,
        axis,
        side,
        parent_marks,
        parent_levels,
        parent_indices,
        none,
        place,
    )
}
