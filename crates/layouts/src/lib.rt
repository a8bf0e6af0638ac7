// Where the faces of a table with values on the border lie: the faces in their order, the first number of each, and the face that a number lies on.
#![tactic(auto)]

ghost use Rattle.std.specs.Prelude.{◌≡◌, ℕ, suc, ◌-◌, ◌*◌, ◌/◌, ◌%◌, ◌≤◌, ◌<◌};
ghost use Rattle.naturals.specs.Sum.{sum_to};
ghost use Rattle.numbering.specs.Count.{points};
ghost use Rattle.numbering.specs.Point.{at};
ghost use Rattle.faces.specs.Faces.{faces, bit, borders, having, face_rank, last_mark, mark_of};
ghost use Rattle.faces.specs.Marked.{layer, border_points, face_start, borders_at, number_at, mark_at};
ghost use Rattle.faces.specs.Row.{all_faces};
ghost use Rattle.layouts.specs.Layouts.{last_levels, face_at, IsFace};

use shapes::Rows;

// ---- marks and ranks

// How many faces of k + 1 axes with b border axes have a smaller mark than a on the last axis: a row for each k from 0 to 3, in it one for each b from 0 to 4.
const BELOW: [[[u8; 3]; 5]; 4] = [
    [[0, 1, 1], [0, 0, 1], [0, 0, 0], [0, 0, 0], [0, 0, 0]],
    [[0, 1, 1], [0, 2, 3], [0, 0, 2], [0, 0, 0], [0, 0, 0]],
    [[0, 1, 1], [0, 4, 5], [0, 4, 8], [0, 0, 4], [0, 0, 0]],
    [[0, 1, 1], [0, 6, 7], [0, 12, 18], [0, 8, 20], [0, 0, 8]],
];

// How many faces of `axes` + 1 axes with these border axes have a smaller mark on the last axis.
fn below(axes: u32, borders: u32, mark: u32) -> u64
    requires { (axes ≤ 3) × (borders ≤ suc axes) × (mark ≤ 2) }
    ensures { result ≡ sum_to (having axes borders) mark }
{
    let table = &BELOW;
    u64::from(table[axes as usize][borders as usize][mark as usize])
}

// 1 for the mark of a border, 0 for that of an inner axis.
fn bit(mark: u32) -> u32
    ensures { result ≡ bit mark }
{
    if mark == 0 { 0 } else { 1 }
}

// How many border axes a face has, and how many others with as many come before it.
fn borders_and_rank(axes: u32, marks: &[u32; 8]) -> (u32, u64)
    requires { (axes ≤ 4) × ((t : ℕ) → t < axes → at marks.now t ≤ 2) }
    ensures { (result.0 ≡ borders (at marks.now) axes) × (result.1 ≡ face_rank (at marks.now) axes) }
{
    let mut borders: u32 = 0;
    let mut rank: u64 = 0;
    for k in 0..axes {
        let mark = marks[k as usize];
        borders += bit(mark);
        rank += below(k, borders, mark);
    }
    (borders, rank)
}

// The number of the first point of a face.
pub fn face_start(axes: u32, level: u32, marks: &[u32; 8]) -> u64
    requires { (axes ≤ 4) × (level ≤ 8) × ((t : ℕ) → t < axes → at marks.now t ≤ 2) }
    ensures { result ≡ face_start axes level (at marks.now) }
{
    let rows = Rows::new();
    let (borders, rank) = borders_and_rank(axes, marks);
    rows.layers(axes, level, borders) + rows.points(axes - borders, level) * rank
}

// How many points lie between the first point of a face with the lower border on an axis and that of the face with the upper border there and else the same marks:
// on each of `inner` inner axes, with so many border axes before the axis.
pub fn lower_to_upper(level: u32, place: u32, borders: u32, inner: u32) -> u64
    requires { (place ≤ 3) × (borders ≤ place) × (inner ≤ 4) × (level ≤ 8) }
    ensures { result ≡ points inner level * faces place borders }
{
    let lower_faces = below(place, borders + 1, 2) - below(place, borders + 1, 1);
    Rows::new().points(inner, level) * lower_faces
}

// The mark on the last of `axes` + 1 axes, of the face with these border axes that `rank` others come before, and how many of these have the same mark there.
fn last_mark(axes: u32, borders: u32, rank: u64) -> (u32, u64)
    requires { (axes ≤ 3) × (borders ≤ suc axes) }
    ensures { (result.0 ≡ last_mark axes borders rank) × (result.1 ≡ rank - sum_to (having axes borders) (last_mark axes borders rank)) }
{
    let inner_or_lower = below(axes, borders, 2);
    if inner_or_lower <= rank {
        return (2, rank - inner_or_lower);
    }
    let inner = below(axes, borders, 1);
    if inner <= rank {
        return (1, rank - inner);
    }
    (0, rank)
}

// The marks of the face with these border axes that `rank` others come before, from the last axis down; 0 past the axes.
pub fn marks_of(axes: u32, borders: u32, rank: u64) -> [u32; 8]
    requires { (axes ≤ 4) × (borders ≤ axes) × (rank < faces axes borders) }
    ensures { at result ≡ mark_of axes borders rank }
{
    let mut marks = [0u32; 8];
    let mut left = borders;
    let mut rest = rank;
    for k in (0..axes).rev() {
        let (mark, before) = last_mark(k, left, rest);
        marks[k as usize] = mark;
        left -= bit(mark);
        rest = before;
    }
    marks
}

// ---- the face of a number

// The face that a point lies on, and its number there: the marks, how many inner axes there are, and how many points of the face come before it.
#[derive(Clone, Copy)]
pub struct OnFace {
    pub marks: [u32; 8],
    pub inner: u32,
    pub number: u64,
}

// A number within the layer of these border axes.
fn in_layer(rows: &Rows, axes: u32, level: u32, borders: u32, number: u64) -> OnFace
    requires { (axes ≤ 4) × (level ≤ 8) × (borders ≤ axes) × (number < layer axes level borders) }
    ensures { (at result.marks ≡ mark_of axes borders (number / points (axes - borders) level)) × (result.inner ≡ axes - borders) × (result.number ≡ number % points (axes - borders) level) }
{
    let inner = axes - borders;
    let points = rows.points(inner, level);
    OnFace {
        marks: marks_of(axes, borders, number / points),
        inner,
        number: number % points,
    }
}

// The face that point number `number` lies on.
pub fn face_of_number(axes: u32, level: u32, number: u64) -> OnFace
    requires { (axes ≤ 4) × (level ≤ 8) × (number < border_points axes level) }
    ensures { (at result.marks ≡ mark_at axes level number) × (result.inner ≡ axes - borders_at axes level number) × (result.number ≡ number_at axes level number) }
{
    let rows = Rows::new();
    let mut rest = number;
    for borders in 0..axes {
        let layer = rows.layer(axes, level, borders);
        if rest < layer {
            return in_layer(&rows, axes, level, borders, rest);
        }
        rest -= layer;
    }
    in_layer(&rows, axes, level, axes, rest)
}

// ---- all faces

// A face by value: its marks, its last level list over the inner axes, how many these are, and the number of its first point.
#[derive(Clone, Copy)]
pub struct Face {
    pub marks: [u32; 8],
    pub levels: [u32; 8],
    pub inner: u32,
    pub start: u64,
}

// The level list that comes last: the top level on the last axis.
fn last_levels(axes: u32, level: u32) -> [u32; 8]
    requires { axes ≤ 8 }
    ensures { at result ≡ last_levels axes level }
{
    let mut levels = [0u32; 8];
    if 0 < axes {
        levels[axes as usize - 1] = level;
    }
    levels
}

// All faces of a table, in their order: 4 axes have 3^4.
#[derive(Drop)]
pub struct Layout {
    pub axes: u32,
    pub level: u32,
    pub count: usize,
    faces: [Face; 81],
    ghost few: { axes ≤ 4 },
    ghost top: { level ≤ 8 },
    ghost all: { count ≡ all_faces axes },
    ghost each: { (f : ℕ) → f < count → IsFace axes level f (face_at faces f) },
}

impl Layout {
    // The faces of a table of these axes and this top level.
    pub fn of(axes: u32, level: u32) -> Layout
        requires { (axes ≤ 4) × (level ≤ 8) }
        ensures { (result.axes ≡ axes) × (result.level ≡ level) }
    {
        let rows = Rows::new();
        let none = Face {
            marks: [0; 8],
            levels: [0; 8],
            inner: 0,
            start: 0,
        };
        let mut faces = [none; 81];
        let mut count: usize = 0;
        let mut start: u64 = 0;
        for borders in 0..axes + 1 {
            let inner = axes - borders;
            let levels = last_levels(inner, level);
            let points = rows.points(inner, level);
            for rank in 0..rows.faces(axes, borders) {
                faces[count] = Face {
                    marks: marks_of(axes, borders, rank),
                    levels,
                    inner,
                    start,
                };
                count += 1;
                start += points;
            }
        }
        Layout {
            axes,
            level,
            count,
            faces,
        }
    }

    // Face number f.
    pub fn face(&self, f: usize) -> Face
        requires { f < self.now.count }
        ensures { IsFace self.now.axes self.now.level f result }
    {
        self.faces[f]
    }
}
