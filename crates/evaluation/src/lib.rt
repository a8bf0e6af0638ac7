// The sums behind an estimate and its margin: one point for each level list of each face, the weights of an axis once for each level and border.
#![tactic(auto)]

ghost use Rattle.std.specs.Prelude.{true, ◌≡◌, ◌&&◌, ◌*◌, ◌^◌, ◌≤◌, length, nat_abs, if◌then◌else◌};
ghost use Rattle.numbering.specs.Point.{at};
ghost use Rattle.hierarchy.specs.Turns.{value_at};
ghost use Rattle.surfaces.specs.Surface.{estimate_at};
ghost use Rattle.shapes.specs.Shapes.{most_terms};
ghost use Rattle.evaluation.specs.Steps.{hat_at, hats_of, AxisHats, Tabulated, MarkedHats, MarkedTable, none_passed, Room, passed_with, term_passed, Found, Bounded, MarksAt, levels_on, face_hats, Listed, Evaluable, evaluated_at};

use axis_weights::Coordinate;
use shapes::{Rows, Shape};
use std::array;
use surfaces::BITS;
use vectors::LevelVector;
use wide_sums::Sum;

// Of one axis and level: the cell in which the coordinate lies, the weight of the point in its middle, and 1 where that is above 0, else 0. (Two words without
// a gap: with a `bool` in a third an estimate took a fifth longer at (2, 8).)
#[derive(Clone, Copy)]
struct Hat {
    cell: u32,
    above: u32,
    weight: u64,
}

impl Hat {
    // That of a coordinate inside at a level.
    #[tactic(auto, using(axis_weights::proofs::Weighing::index_below, axis_weights::proofs::Weighing::cell_small))]
    fn at(coordinate: Coordinate, level: u32) -> Hat
        requires { level ≤ 8 }
        ensures { result ≡ hat_at coordinate.x 0 level }
    {
        let cell = coordinate.cell(level);
        let weight = coordinate.weight(level, 2 * cell + 1);
        Hat {
            cell: cell as u32,
            above: u32::from(weight > 0),
            weight,
        }
    }

    // That on a border of the axis. (There is one cell, and one level.)
    fn on_border(coordinate: Coordinate, mark: u32) -> Hat
        requires { 1 ≤ mark }
        ensures { result ≡ hat_at coordinate.x mark 0 }
    {
        let weight = coordinate.border_weight(mark);
        Hat {
            cell: 0,
            above: u32::from(weight > 0),
            weight,
        }
    }
}

// The hats of an axis at a coordinate, one for each level.
fn axis_hats(coordinate: Coordinate) -> [Hat; 9]
    ensures { AxisHats coordinate.x result }
{
    array::from_fn(|level| Hat::at(coordinate, level as u32))
}

// Those of all axes. (By index: past a zip with `iter_mut` nothing is known of what it wrote.)
fn tabulated(coordinates: &[u32]) -> [[Hat; 9]; 8]
    requires { Listed (length coordinates.now) coordinates.now }
    ensures { Tabulated (at coordinates.now) (length coordinates.now) result × (length result ≡ 8) }
{
    let none = Hat {
        cell: 0,
        above: 0,
        weight: 0,
    };
    let mut hats = [[none; 9]; 8];
    for (t, x) in coordinates.iter().enumerate() {
        hats[t] = axis_hats(Coordinate { x: u64::from(*x) });
    }
    hats
}

// Those of an axis by mark: inside (0), and on the lower (1) and the upper border (2), where level 0 alone is read.
fn marked_hats(inside: [Hat; 9], coordinate: Coordinate) -> [[Hat; 9]; 3]
    requires { AxisHats coordinate.x inside }
    ensures { MarkedHats coordinate.x result }
{
    [
        inside,
        [Hat::on_border(coordinate, 1); 9],
        [Hat::on_border(coordinate, 2); 9],
    ]
}

// Those of all axes. (Not from `axis_hats`: with a second caller it is no longer made part of the first.)
fn marked_table(coordinates: &[u32]) -> [[[Hat; 9]; 3]; 8]
    requires { Listed (length coordinates.now) coordinates.now }
    ensures { MarkedTable (at coordinates.now) (length coordinates.now) result }
{
    let inside = tabulated(coordinates);
    let none = Hat {
        cell: 0,
        above: 0,
        weight: 0,
    };
    let mut hats = [[[none; 9]; 3]; 8];
    for (t, x) in coordinates.iter().enumerate() {
        hats[t] = marked_hats(inside[t], Coordinate { x: u64::from(*x) });
    }
    hats
}

// The one point of a level list that can have a weight above 0 on each axis: its position among the points of the list, its joint weight, and whether it has,
// so that it is reached.
#[derive(Clone, Copy)]
struct Term {
    position: u64,
    joint: u64,
    reached: bool,
}

impl Term {
    // What a coefficient adds to S, where that is asked for.
    fn absolute(self, asked: bool, c: i64) -> u64
        ensures { result ≡ if asked && self.reached then nat_abs c else 0 }
    {
        if asked && self.reached {
            c.unsigned_abs()
        } else {
            0
        }
    }
}

// What is found of it on the axes passed: its position, its joint weight, 1 where its weight is above 0 on each of them, else 0, and the sum of its levels.
#[derive(Clone, Copy)]
struct Passed {
    position: u64,
    joint: u64,
    reached: u32,
    sum: u32,
}

impl Passed {
    // On no axis.
    #[inline(always)]
    fn none() -> Passed
        ensures { result ≡ none_passed }
    {
        Passed {
            position: 0,
            joint: 1 << BITS,
            reached: 1,
            sum: 0,
        }
    }

    // On one axis more, where it has this hat and level.
    #[inline(always)]
    fn with(self, hat: Hat, level: u32) -> Passed
        requires { Room self hat level }
        ensures { result ≡ passed_with self hat level }
    {
        Passed {
            position: self.position + (u64::from(hat.cell) << self.sum),
            joint: (self.joint * hat.weight) >> BITS,
            reached: self.reached & hat.above,
            sum: self.sum + level,
        }
    }

    // On all axes.
    #[inline(always)]
    #[tactic(auto, using(crate::proofs::Bits::bit_is))]
    fn term(self) -> Term
        ensures { result ≡ term_passed self }
    {
        Term {
            position: self.position,
            joint: self.joint,
            reached: self.reached != 0,
        }
    }
}

// That of a level list inside on every axis, axis by axis.
#[inline]
fn taken(hats: &[[Hat; 9]], levels: &[u32; 8]) -> Term
    requires { Bounded (hats_of hats.now (at levels.now)) (at levels.now) (length hats.now) }
    ensures { Found (hats_of hats.now (at levels.now)) (at levels.now) (length hats.now) result }
{
    let mut passed = Passed::none();
    for (axis, level) in hats.iter().zip(levels) {
        passed = passed.with(axis[*level as usize], *level);
    }
    passed.term()
}

// The same on a face: an inner axis has the level at its place among the inner ones, a border axis level 0.
#[inline]
fn taken_on_face(axes: u32, hats: &[[[Hat; 9]; 3]; 8], marks: &[u32; 8], levels: &[u32; 8]) -> Term
    requires { MarksAt axes marks.now × Bounded (face_hats hats.now axes marks.now levels.now) (levels_on axes marks.now levels.now) axes }
    ensures { Found (face_hats hats.now axes marks.now levels.now) (levels_on axes marks.now levels.now) axes result }
{
    let mut passed = Passed::none();
    let mut place: usize = 0;
    for t in 0..axes as usize {
        let mark = marks[t];
        let mut level = 0;
        if mark == 0 {
            level = levels[place];
            place += 1;
        }
        passed = passed.with(hats[t][mark as usize][level as usize], level);
    }
    passed.term()
}

// An estimate; and S, the sum of the absolute coefficients of the points that are reached, or 0 where it is not asked for.
#[derive(Clone, Copy)]
pub struct Evaluated {
    pub estimate: i64,
    pub absolute_sum: u64,
}

// Those of a table with values on the border, face by face. (A face without inner axes has one point, as one axis of top level 0 has. Each face is made as the
// walk comes to it: with all of them in an array beforehand an estimate took a fifth longer at (4, 5), and half as long again at (2, 8).)
fn summed_over_faces(asked: bool, shape: Shape, table: &[i64], coordinates: &[u32]) -> Evaluated
    requires { Evaluable shape table.now coordinates.now × (shape.border ≡ true) }
    ensures value { result ≡ evaluated_at asked shape (value_at table.now) (at coordinates.now) }
    ensures room { result.absolute_sum ≤ most_terms * 2 ^ 47 }
{
    let hats = marked_table(coordinates);
    let rows = Rows::new();
    let mut sum = Sum::new();
    let mut absolute_sum: u64 = 0;
    let mut first: u64 = 0;
    for borders in 0..shape.axes + 1 {
        let inner = shape.axes - borders;
        let (axes, top) = if inner == 0 {
            (1, 0)
        } else {
            (inner, shape.level)
        };
        for rank in 0..rows.faces(shape.axes, borders) {
            let marks = layouts::marks_of(shape.axes, borders, rank);
            let mut vector = LevelVector::first(axes);
            while vector.sum <= top {
                let term = taken_on_face(shape.axes, &hats, &marks, &vector.levels);
                let c = table[(first + term.position) as usize];
                sum.add(c, term.joint);
                absolute_sum += term.absolute(asked, c);
                first += 1 << vector.sum;
                vector.next();
            }
        }
    }
    Evaluated {
        estimate: sum.joined(),
        absolute_sum,
    }
}

// Those at these coordinates. S is of at most 1,287 points. (Inlined, so that an estimate alone does not look which points are reached.)
#[inline(always)]
fn summed(asked: bool, shape: Shape, table: &[i64], coordinates: &[u32]) -> Evaluated
    requires { Evaluable shape table.now coordinates.now }
    ensures value { result ≡ evaluated_at asked shape (value_at table.now) (at coordinates.now) }
    ensures room { result.absolute_sum ≤ most_terms * 2 ^ 47 }
{
    if shape.border {
        return summed_over_faces(asked, shape, table, coordinates);
    }
    let tabulated = tabulated(coordinates);
    let hats = &tabulated[..shape.axes as usize];
    let mut sum = Sum::new();
    let mut absolute_sum: u64 = 0;
    let mut rest = table;
    let mut vector = LevelVector::first(shape.axes);
    while !rest.is_empty() {
        let term = taken(hats, &vector.levels);
        let c = rest[term.position as usize];
        sum.add(c, term.joint);
        absolute_sum += term.absolute(asked, c);
        rest = rest.split_at(1 << vector.sum).1;
        vector.next();
    }
    Evaluated {
        estimate: sum.joined(),
        absolute_sum,
    }
}

// The estimate at these coordinates.
pub fn evaluate(shape: Shape, table: &[i64], coordinates: &[u32]) -> i64
    requires { Evaluable shape table.now coordinates.now }
    ensures { result ≡ estimate_at shape (value_at table.now) (at coordinates.now) }
{
    summed(false, shape, table, coordinates).estimate
}

// The estimate and S.
pub fn evaluate_with_sum(shape: Shape, table: &[i64], coordinates: &[u32]) -> Evaluated
    requires { Evaluable shape table.now coordinates.now }
    ensures value { result ≡ evaluated_at true shape (value_at table.now) (at coordinates.now) }
    ensures room { result.absolute_sum ≤ most_terms * 2 ^ 47 }
{
    summed(true, shape, table, coordinates)
}
