// The axis that a turn works on, and the faces of the table that it meets.
ghost use Rattle.std.specs.Prelude.{true, false, ℕ, ◌≡◌, ◌+◌, ◌^◌, ◌≤◌, ◌<◌};
ghost use Rattle.shapes.specs.Shapes.{most_axes, most_points, points_of};
ghost use Rattle.numbering.specs.Point.{at};
ghost use Rattle.numbering.specs.Parent.{update};
ghost use Rattle.faces.specs.Packing.{before};
ghost use Rattle.faces.specs.Marked.{face_start};
ghost use Rattle.neighbours.specs.Facets.{Sits};

use layouts::Layout;
use numbering::Side;
use shapes::Shape;

// An axis of a shape within the limits: the shape, and the place of the axis in it, from 0. The lines along that axis are what a turn works on.
#[derive(Clone, Copy)]
pub struct Line {
    pub shape: Shape,
    pub place: u32,
    ghost few: { shape.axes ≤ 8 },
    ghost top: { shape.level ≤ 8 },
    ghost most: { shape.axes ≤ most_axes shape.border },
    ghost small: { points_of shape ≤ most_points },
    ghost axis: { place < shape.axes },
}

// Numbers of points across the border of an axis, on either side.
#[derive(Clone, Copy)]
pub struct Rims {
    pub lower: u64,
    pub upper: u64,
}

impl Rims {
    ghost use Rattle.neighbours.specs.Facets.{rim_on, further};

    // The number on one side.
    pub fn on(self, side: Side) -> u64
        ensures { result ≡ rim_on self side }
    {
        match side {
            Side::Left => self.lower,
            Side::Right => self.upper,
        }
    }

    // So many points further on.
    pub fn further(self, points: u64) -> Rims
        requires { (self.lower + points < 2 ^ 64) × (self.upper + points < 2 ^ 64) }
        ensures { result ≡ further self points }
    {
        Rims {
            lower: self.lower + points,
            upper: self.upper + points,
        }
    }
}

// A face of the shape's table as a turn on an axis meets it: a sparse table over so many inner axes, with the axis in this place among them. Its points are the
// numbers from `base` on. Across the border of the axis lie, from the numbers `rims` on, the faces without the axis; with a zero border nothing does.
#[derive(Clone, Copy)]
pub struct Facet {
    pub line: Line,
    pub axes: u32,
    pub place: u32,
    pub base: u64,
    pub rims: Option<Rims>,
    ghost few: { axes ≤ 8 },
    ghost inner: { place < axes },
    ghost sits: { Sits line.shape line.place axes place base rims },
}

// How many inner axes come before a place.
fn inner_before(marks: &[u32; 8], place: u32) -> u32
    requires { place ≤ 8 }
    ensures { result ≡ before (at marks.now) place }
{
    let mut inner: u32 = 0;
    for t in 0..place {
        if marks[t as usize] == 0 {
            inner += 1;
        }
    }
    inner
}

// The first number of the face with the lower border on the axis, and else these marks.
fn lower_rim(line: Line, marks: [u32; 8]) -> u64
    requires { (line.shape.axes ≤ 4) × ((t : ℕ) → t < line.shape.axes → at marks t ≤ 2) }
    ensures { result ≡ face_start line.shape.axes line.shape.level (update (at marks) line.place 1) }
{
    let mut across = marks;
    across[line.place as usize] = 1;
    layouts::face_start(line.shape.axes, line.shape.level, &across)
}

impl Facet {
    ghost use Rattle.neighbours.specs.Faced.{FacetOf};

    // With a zero border the table is one face.
    #[inline(always)]
    pub fn whole(line: Line) -> Facet
        requires { line.shape.border ≡ false }
        ensures { (result.line ≡ line) × (result.axes ≡ line.shape.axes) × (result.base ≡ 0) }
    {
        Facet {
            line,
            axes: line.shape.axes,
            place: line.place,
            base: 0,
            rims: None,
        }
    }

    // Face number f of a table with values on the border, where the axis is an inner axis of it. Where it is a border axis, none: there nothing moves.
    pub fn of_face(line: Line, layout: &Layout, f: usize) -> Option<Facet>
        requires { (line.shape.border ≡ true) × (layout.now.axes ≡ line.shape.axes) × (layout.now.level ≡ line.shape.level) × (f < layout.now.count) }
        ensures { FacetOf line f result }
    {
        let face = layout.face(f);
        if face.marks[line.place as usize] != 0 {
            return None;
        }
        let place = inner_before(&face.marks, line.place);
        let lower = lower_rim(line, face.marks);
        let upper = lower
            + layouts::lower_to_upper(
                line.shape.level,
                line.place,
                line.place - place,
                face.inner - 1,
            );
        Some(Facet {
            line,
            axes: face.inner,
            place,
            base: face.start,
            rims: Some(Rims { lower, upper }),
        })
    }
}
