// Shapes: the check of a shape, the constant tables of binomials, starts and counts, the count of points, and the check of a table's length.
#![tactic(auto)]

ghost use Rattle.std.specs.Prelude.{◌≡◌, suc, ◌≤◌, IfOk};
ghost use Rattle.refusals.specs.Checks.{verdict};
ghost use Rattle.naturals.specs.Sum.{sum_to};
ghost use Rattle.numbering.specs.Count.{vectors, start, points};
ghost use Rattle.faces.specs.Faces.{faces};
ghost use Rattle.faces.specs.Marked.{layer, border_points};
ghost use Rattle.shapes.specs.Shapes.{sparse, most_axes, most_points, check_limits, check_size, check_shape, check_axis, points_of, check_length, counted};
ghost use Rattle.shapes.specs.Rows.{Binomials, Starts, Counts};

use refusals::Refusal;

// A number of axes d and a top level n, and whether there are values on the border (documents 01 and 02, g: a shape).
#[derive(Clone, Copy)]
pub struct Shape {
    pub axes: u32,
    pub level: u32,
    pub border: bool,
}

// The largest number of points that is run, of a table of either sort and of a component grid (document 02, h and c).
pub const MOST_POINTS: u64 = 32768;

// C(d − 1 + j, j), how many level vectors of d axes have the level sum j: a row for each d from 1 to 8, j from 0 to 8.
const ROWS: [[u16; 9]; 8] = [
    [1, 1, 1, 1, 1, 1, 1, 1, 1],
    [1, 2, 3, 4, 5, 6, 7, 8, 9],
    [1, 3, 6, 10, 15, 21, 28, 36, 45],
    [1, 4, 10, 20, 35, 56, 84, 120, 165],
    [1, 5, 15, 35, 70, 126, 210, 330, 495],
    [1, 6, 21, 56, 126, 252, 462, 792, 1287],
    [1, 7, 28, 84, 210, 462, 924, 1716, 3003],
    [1, 8, 36, 120, 330, 792, 1716, 3432, 6435],
];

// How many points of d axes have a level sum below s: a row for each d from 0 to 8, s from 0 to 9.
const STARTS: [[u32; 10]; 9] = [
    [0, 1, 1, 1, 1, 1, 1, 1, 1, 1],
    [0, 1, 3, 7, 15, 31, 63, 127, 255, 511],
    [0, 1, 5, 17, 49, 129, 321, 769, 1793, 4097],
    [0, 1, 7, 31, 111, 351, 1023, 2815, 7423, 18943],
    [0, 1, 9, 49, 209, 769, 2561, 7937, 23297, 65537],
    [0, 1, 11, 71, 351, 1471, 5503, 18943, 61183, 187903],
    [0, 1, 13, 97, 545, 2561, 10625, 40193, 141569, 471041],
    [0, 1, 15, 127, 799, 4159, 18943, 78079, 297727, 1066495],
    [0, 1, 17, 161, 1121, 6401, 31745, 141569, 580865, 2228225],
];

// How many points each shape has, n from 0 to 8: a row for each d from 1 to 8 with a zero border, then one for each d from 0 to 4 with values on the border.
const COUNTS: [[u32; 9]; 13] = [
    [1, 3, 7, 15, 31, 63, 127, 255, 511],
    [1, 5, 17, 49, 129, 321, 769, 1793, 4097],
    [1, 7, 31, 111, 351, 1023, 2815, 7423, 18943],
    [1, 9, 49, 209, 769, 2561, 7937, 23297, 65537],
    [1, 11, 71, 351, 1471, 5503, 18943, 61183, 187903],
    [1, 13, 97, 545, 2561, 10625, 40193, 141569, 471041],
    [1, 15, 127, 799, 4159, 18943, 78079, 297727, 1066495],
    [1, 17, 161, 1121, 6401, 31745, 141569, 580865, 2228225],
    [1, 1, 1, 1, 1, 1, 1, 1, 1],
    [3, 5, 9, 17, 33, 65, 129, 257, 513],
    [9, 21, 49, 113, 257, 577, 1281, 2817, 6145],
    [27, 81, 225, 593, 1505, 3713, 8961, 21249, 49665],
    [81, 297, 945, 2769, 7681, 20481, 52993, 133889, 331777],
];

// A shape whose number of axes and top level pass: 1 to 8 axes, no more than its sort may have, and a top level of at most 8.
#[derive(Clone, Copy)]
pub struct LimitedShape {
    pub shape: Shape,
    ghost some: { 1 ≤ shape.axes },
    ghost few: { shape.axes ≤ 8 },
    ghost top: { shape.level ≤ 8 },
    ghost most: { shape.axes ≤ most_axes shape.border },
}

// A shape that the whole check passes: such a one of no more points than are run.
#[derive(Clone, Copy)]
pub struct CheckedShape {
    pub shape: Shape,
    ghost some: { 1 ≤ shape.axes },
    ghost few: { shape.axes ≤ 8 },
    ghost top: { shape.level ≤ 8 },
    ghost most: { shape.axes ≤ most_axes shape.border },
    ghost small: { points_of shape ≤ most_points },
}

impl Shape {
    // That of d axes and top level n with a zero border.
    pub fn sparse(axes: u32, level: u32) -> Shape
        ensures { result ≡ sparse axes level }
    {
        Shape {
            axes,
            level,
            border: false,
        }
    }

    // The most axes that a shape of its sort may have.
    fn most_axes(self) -> u32
        ensures { result ≡ most_axes self.border }
    {
        if self.border { 4 } else { 8 }
    }

    // Refused with 1 or 2.
    pub fn check_limits(self) -> Result<LimitedShape, Refusal>
        ensures verdict { verdict result ≡ check_limits self }
        ensures shape { IfOk result (λ limited. limited.shape ≡ self) }
    {
        let Shape { axes, level, .. } = self;
        if !(1..=self.most_axes()).contains(&axes) {
            return Err(Refusal::Axes);
        }
        if 8 < level {
            return Err(Refusal::Level);
        }
        Ok(LimitedShape { shape: self })
    }

    // Refused with 1, 2 or 19.
    #[tactic(auto, unfolding(crate::specs::Shapes::check_shape))]
    pub fn check(self) -> Result<CheckedShape, Refusal>
        ensures verdict { verdict result ≡ check_shape self }
        ensures shape { IfOk result (λ checked. checked.shape ≡ self) }
    {
        self.check_limits()?.check_size()
    }

    // Refused with 5.
    pub fn check_axis(self, axis: u32) -> Result<(), Refusal>
        ensures { result ≡ check_axis self axis }
    {
        if !(1..=self.axes).contains(&axis) {
            return Err(Refusal::Axis(axis));
        }
        Ok(())
    }

    // How many points it has.
    #[tactic(auto, unfolding(crate::specs::Shapes::counted))]
    pub fn count(self) -> Result<u64, Refusal>
        ensures { result ≡ counted self }
    {
        Ok(self.check()?.points())
    }
}

// The three constant tables that counts are read from, lent. (A constant that is named without `&` is built on the stack each time.)
#[derive(Clone, Copy)]
pub struct Rows {
    binomials: &'static [[u16; 9]; 8],
    starts: &'static [[u32; 10]; 9],
    counts: &'static [[u32; 9]; 13],
    ghost right: { Binomials binomials.now },
    ghost added: { Starts starts.now },
    ghost summed: { Counts counts.now },
}

impl Rows {
    pub fn new() -> Rows {
        Rows {
            binomials: &ROWS,
            starts: &STARTS,
            counts: &COUNTS,
        }
    }

    // How many level vectors of these axes have this level sum.
    pub fn vectors(&self, axes: u32, sum: u32) -> u64
        requires { (1 ≤ axes) × (axes ≤ 8) × (sum ≤ 8) }
        ensures { result ≡ vectors axes sum }
    {
        u64::from(self.binomials[(axes - 1) as usize][sum as usize])
    }

    // How many points of these axes have a level sum below this one.
    pub fn start(&self, axes: u32, sum: u32) -> u64
        requires { (axes ≤ 8) × (sum ≤ 9) }
        ensures { result ≡ start axes sum }
    {
        u64::from(self.starts[axes as usize][sum as usize])
    }

    // How many points a shape has.
    fn count(&self, shape: Shape) -> u64
        requires { (1 ≤ shape.axes) × (shape.axes ≤ most_axes shape.border) × (shape.level ≤ 8) }
        ensures { result ≡ points_of shape }
    {
        let row = if shape.border {
            shape.axes + 8
        } else {
            shape.axes - 1
        };
        u64::from(self.counts[row as usize][shape.level as usize])
    }

    // How many points a sparse table of these axes has: without axes one.
    pub fn points(&self, axes: u32, level: u32) -> u64
        requires { (axes ≤ 8) × (level ≤ 8) }
        ensures { result ≡ points axes level }
    {
        self.start(axes, level + 1)
    }

    // How many faces of these axes have this many border axes. (C(axes, borders) stands in the row of axes − borders + 1.)
    pub fn faces(&self, axes: u32, borders: u32) -> u64
        requires { (axes ≤ 4) × (borders ≤ axes) }
        ensures { result ≡ faces axes borders }
    {
        self.vectors(axes - borders + 1, borders) << borders
    }

    // How many points lie on these faces.
    pub fn layer(&self, axes: u32, level: u32, borders: u32) -> u64
        requires { (axes ≤ 4) × (level ≤ 8) × (borders ≤ axes) }
        ensures { result ≡ layer axes level borders }
    {
        self.faces(axes, borders) * self.points(axes - borders, level)
    }

    // How many points lie on the faces with fewer border axes than this.
    pub fn layers(&self, axes: u32, level: u32, borders: u32) -> u64
        requires { (axes ≤ 4) × (level ≤ 8) × (borders ≤ suc axes) }
        ensures { result ≡ sum_to (layer axes level) borders }
    {
        let mut before: u64 = 0;
        for b in 0..borders {
            before += self.layer(axes, level, b);
        }
        before
    }

    // How many points a table with values on the border has.
    pub fn border_points(&self, axes: u32, level: u32) -> u64
        requires { (axes ≤ 4) × (level ≤ 8) }
        ensures { result ≡ border_points axes level }
    {
        u64::from(self.counts[axes as usize + 8][level as usize])
    }
}

impl LimitedShape {
    // How many points it has.
    pub fn points(self) -> u64
        ensures { result ≡ points_of self.shape }
    {
        Rows::new().count(self.shape)
    }

    // Refused with 19.
    pub fn check_size(self) -> Result<CheckedShape, Refusal>
        ensures verdict { verdict result ≡ check_size self.shape }
        ensures shape { IfOk result (λ checked. checked.shape ≡ self.shape) }
    {
        if MOST_POINTS < self.points() {
            return Err(Refusal::TooManyPoints);
        }
        Ok(CheckedShape { shape: self.shape })
    }
}

impl CheckedShape {
    // How many points it has.
    pub fn points(self) -> u64
        ensures { result ≡ points_of self.shape }
    {
        LimitedShape { shape: self.shape }.points()
    }

    // Refused with 3.
    pub fn check_length(self, places: usize) -> Result<(), Refusal>
        ensures { result ≡ check_length self.shape places }
    {
        if places as u64 != self.points() {
            return Err(Refusal::TableLength);
        }
        Ok(())
    }
}
