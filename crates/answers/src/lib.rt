// An answer of the library as a number, a place and outputs.
#![tactic(auto)]

ghost use Rattle.std.specs.Prelude.{◌≡◌};
ghost use Rattle.answers.specs.Returned.{told, told_of, returned};
ghost use Rattle.answers.specs.Answers.{shape_of, state_of, side_of, of_value, of_point, of_located, of_estimated, of_answer, of_usage, of_table};

use accounts::Usage;
use estimates::Estimated;
use numbering::Side;
use points::MarkedPoint;
use refusals::Refusal;
use shapes::Shape;
use states::State;

// A shape, from the three numbers that stand for it: 0 is a zero border, every other number values on the border.
pub fn shape_of(axes: u32, level: u32, border: u8) -> Shape
    ensures { result ≡ shape_of axes level border }
{
    Shape {
        axes,
        level,
        border: border != 0,
    }
}

// A state, from a shape's three numbers and the set of forward axes.
pub fn state_of(axes: u32, level: u32, border: u8, forward: u8) -> State
    ensures { result ≡ state_of axes level border forward }
{
    State {
        shape: shape_of(axes, level, border),
        forward,
    }
}

// Side 0 is the left one, every other number the right one. (C's numbers; a conversion of the type itself would carry them into its crate.)
pub fn side_of(side: u32) -> Side
    ensures { result ≡ side_of side }
{
    if side == 0 { Side::Left } else { Side::Right }
}

// How the call went: 0 and 0, or the refusal's number and place. The outputs of an answer are written beside it, where there is a value.
// (Not by a closure that is handed in: of one that is dropped uncalled the caller does not learn that the outputs stay.)
pub fn tell<T: Copy>(answer: Result<T, Refusal>, place: &mut u64) -> u32
    ensures { told result place.new ≡ told_of answer }
{
    match answer {
        Err(r) => {
            *place = r.place();
            r.number()
        }
        Ok(_) => {
            *place = 0;
            0
        }
    }
}

// A value goes out.
pub fn hand<T: Copy>(answer: Result<T, Refusal>, out: &mut T, place: &mut u64) -> u32
    ensures { returned result place.new out.new ≡ of_value out.old answer }
{
    if let Ok(value) = &answer {
        *out = *value;
    }
    tell(answer, place)
}

// A point into three arrays. (By three variables: the borrow check does not cover a field that is an array, stored straight.)
#[inline(always)]
fn put_point(
    found: MarkedPoint,
    marks: &mut [u32; 8],
    levels: &mut [u32; 8],
    indices: &mut [u32; 8],
)
    ensures { (marks.new ≡ found.marks) × (levels.new ≡ found.point.levels) × (indices.new ≡ found.point.indices) }
{
    let point_marks = found.marks;
    let point = found.point;
    let point_levels = point.levels;
    let point_indices = point.indices;
    *marks = point_marks;
    *levels = point_levels;
    *indices = point_indices;
}

// A point goes out into three arrays.
pub fn hand_point(
    answer: Result<MarkedPoint, Refusal>,
    marks: &mut [u32; 8],
    levels: &mut [u32; 8],
    indices: &mut [u32; 8],
    place: &mut u64,
) -> u32
    ensures { returned result place.new (marks.new, levels.new, indices.new) ≡ of_point (marks.old, levels.old, indices.old) answer }
{
    if let Ok(point) = answer {
        put_point(point, marks, levels, indices);
    }
    tell(answer, place)
}

// A point goes out into three arrays, and `none` is 0. Where there is none, at the end or the border, the arrays stay, and `none` is 1.
// (C has numbers for yes and no.)
#[inline(always)]
pub fn hand_located(
    answer: Result<Option<MarkedPoint>, Refusal>,
    marks: &mut [u32; 8],
    levels: &mut [u32; 8],
    indices: &mut [u32; 8],
    none: &mut u32,
    place: &mut u64,
) -> u32
    ensures { returned result place.new (marks.new, levels.new, indices.new, none.new) ≡ of_located (marks.old, levels.old, indices.old, none.old) answer }
{
    if let Ok(located) = answer {
        match located {
            Some(point) => {
                *none = 0;
                put_point(point, marks, levels, indices);
            }
            None => {
                *none = 1;
            }
        }
    }
    tell(answer, place)
}

// An estimate goes out with S and its margin.
pub fn hand_estimated(
    answer: Result<Estimated, Refusal>,
    estimate: &mut i64,
    absolute_sum: &mut u64,
    margin: &mut u64,
    place: &mut u64,
) -> u32
    ensures { returned result place.new (estimate.new, absolute_sum.new, margin.new) ≡ of_estimated (estimate.old, absolute_sum.old, margin.old) answer }
{
    if let Ok(found) = answer {
        *estimate = found.estimate;
        *absolute_sum = found.absolute_sum;
        *margin = found.margin;
    }
    tell(answer, place)
}

// The output of an answered state is its set of forward axes: the caller holds the shape.
pub fn hand_state(answer: Result<State, Refusal>, forward: &mut u8, place: &mut u64) -> u32
    ensures { returned result place.new forward.new ≡ of_answer forward.old answer }
{
    hand(answer.map(|state| state.forward), forward, place)
}

// The output of a written file is its length.
pub fn hand_length(answer: Result<usize, Refusal>, length: &mut u64, place: &mut u64) -> u32
    ensures { returned result place.new length.new ≡ of_value length.old answer }
{
    hand(answer.map(|size| size as u64), length, place)
}

// The points open and the common points go out.
pub fn hand_usage(
    answer: Result<Usage, Refusal>,
    by_office: &mut [u64; 4],
    in_all: &mut u64,
    common_used: &mut u64,
    common_free: &mut u64,
    place: &mut u64,
) -> u32
    ensures { returned result place.new (by_office.new, in_all.new, common_used.new, common_free.new) ≡ of_usage (by_office.old, in_all.old, common_used.old, common_free.old) answer }
{
    if let Ok(found) = answer {
        let held = found.by_office;
        *by_office = held;
        *in_all = found.in_all;
        *common_used = found.common;
        *common_free = found.free;
    }
    tell(answer, place)
}

// The shape under a tag goes out, and `none` is 0. Where nothing is open, the two numbers stay, and `none` is 1.
pub fn hand_table(
    answer: Result<Option<Shape>, Refusal>,
    axes: &mut u32,
    level: &mut u32,
    none: &mut u32,
    place: &mut u64,
) -> u32
    ensures { returned result place.new (axes.new, level.new, none.new) ≡ of_table (axes.old, level.old, none.old) answer }
{
    if let Ok(found) = answer {
        *none = u32::from(found.is_none());
        if let Some(shape) = found {
            *axes = shape.axes;
            *level = shape.level;
        }
    }
    tell(answer, place)
}
