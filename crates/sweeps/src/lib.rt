// The two ways over a table, in the one lent buffer, face by face and level list by level list: forward from the highest level sum down, back from the lowest up.
#![tactic(auto)]

ghost use Rattle.std.specs.Prelude.{true, false, ◌≡◌, ◌+◌, ◌^◌};
ghost use Rattle.numbering.specs.Count.{points};
ghost use Rattle.shapes.specs.Shapes.{points_of};
ghost use Rattle.grids.specs.Turned.{turned_table, former_table};
ghost use Rattle.walks.specs.Walks.{walk_up, walk_down};
ghost use Rattle.lists.specs.Lists.{odd_sums, turned_between};
ghost use Rattle.lists.specs.Steps.{TableOf};
ghost use Rattle.sweeps.specs.Sweeps.{lists_worked, table_worked};
ghost use Rattle.sweeps.specs.Steps.{LastOf};

use cursors::Starts;
use integers::{Back, Forward};
use layouts::Layout;
use neighbours::{Facet, Line, Subspace};
use vectors::LevelVector;

// ---- one face

// The points of a face as the forward turn of the table leaves them, whether or not it is accepted: the level lists from `last`, the last of them, down. Answers how many sums were
// odd. (Compiled into both its callers: whether anything lies across the border is known there, and not asked at each level list.)
#[inline(always)]
fn lower_face(facet: Facet, last: LevelVector, table: &mut [i64]) -> u64
    requires { TableOf facet.line.shape (2 ^ 60) table.old × LastOf facet last }
    ensures walked { table.new ≡ lists_worked true facet.line.shape facet.line.place facet.base facet.axes (walk_down facet.axes facet.line.shape.level) table.old }
    ensures turned { table.new ≡ turned_between true facet.line.shape facet.line.place facet.base (facet.base + points facet.axes facet.line.shape.level) table.old }
    ensures odds { odd_sums facet.line.shape facet.line.place table.old facet.base + result ≡ odd_sums facet.line.shape facet.line.place table.old (facet.base + points facet.axes facet.line.shape.level) }
{
    let starts = Starts::of(facet);
    let mut start = starts.end();
    let mut vector = last;
    let mut cursors = [0u64; 9];
    starts.after_last(vector.sum, &mut cursors);
    let mut odd: u64 = 0;
    loop {
        start -= 1 << vector.sum;
        let v = Subspace::on(facet, &vector, start);
        cursors::pass_back(v, &mut cursors);
        odd += lists::work::<Forward>(v, &cursors, starts.rims(v, &cursors), table);
        if start == facet.base {
            return odd;
        }
        vector.previous();
        if vector.sum < v.vector.sum {
            starts.after_last(vector.sum, &mut cursors);
        }
    }
}

// The points of a face as they are in the table that a forward turn takes to this one, whether or not that turn is accepted: the level lists from the first up.
// Answers how many sums were odd. (Compiled into both its callers as well.)
// (A loop of its own: here the cursors step on after the work on a list, there they step back before it; shared would be the work and the count alone.)
#[inline(always)]
fn raise_face(facet: Facet, table: &mut [i64]) -> u64
    requires { TableOf facet.line.shape (2 ^ 57) table.old }
    ensures walked { table.new ≡ lists_worked false facet.line.shape facet.line.place facet.base facet.axes (walk_up facet.axes facet.line.shape.level) table.old }
    ensures turned { table.new ≡ turned_between false facet.line.shape facet.line.place facet.base (facet.base + points facet.axes facet.line.shape.level) table.old }
    ensures odds { odd_sums facet.line.shape facet.line.place table.new facet.base + result ≡ odd_sums facet.line.shape facet.line.place table.new (facet.base + points facet.axes facet.line.shape.level) }
{
    let starts = Starts::of(facet);
    let end = starts.end();
    let mut start = facet.base;
    let mut vector = LevelVector::first(facet.axes);
    let mut cursors = [0u64; 9];
    starts.before_first(vector.sum, &mut cursors);
    let mut odd: u64 = 0;
    loop {
        let v = Subspace::on(facet, &vector, start);
        odd += lists::work::<Back>(v, &cursors, starts.rims(v, &cursors), table);
        start += 1 << vector.sum;
        if start == end {
            return odd;
        }
        cursors::pass(v, &mut cursors);
        vector.next();
        if v.vector.sum < vector.sum {
            starts.before_first(vector.sum, &mut cursors);
        }
    }
}

// ---- a table (with a zero border it is one face)

// The forward turn of a table with values on the border: the faces from the last down. Where the axis is a border axis of a face, nothing moves.
fn lower_faces(line: Line, table: &mut [i64]) -> u64
    requires { (line.shape.border ≡ true) × TableOf line.shape (2 ^ 59) table.old }
    ensures walked { table.new ≡ table_worked true line.shape line.place table.old }
    ensures turned { table.new ≡ turned_table line.shape line.place table.old }
    ensures odds { result ≡ odd_sums line.shape line.place table.old (points_of line.shape) }
{
    let layout = Layout::of(line.shape.axes, line.shape.level);
    let mut odd: u64 = 0;
    for f in (0..layout.count).rev() {
        if let Some(facet) = Facet::of_face(line, &layout, f) {
            let face = layout.face(f);
            let last = LevelVector::of(facet.axes, face.levels);
            odd += lower_face(facet, last, table);
        }
    }
    odd
}

// The table that a forward turn takes to this one: the faces from the first up.
fn raise_faces(line: Line, table: &mut [i64]) -> u64
    requires { (line.shape.border ≡ true) × TableOf line.shape (2 ^ 53) table.old }
    ensures walked { table.new ≡ table_worked false line.shape line.place table.old }
    ensures turned { table.new ≡ former_table line.shape line.place table.old }
    ensures odds { result ≡ odd_sums line.shape line.place table.new (points_of line.shape) }
{
    let layout = Layout::of(line.shape.axes, line.shape.level);
    let mut odd: u64 = 0;
    for f in 0..layout.count {
        if let Some(facet) = Facet::of_face(line, &layout, f) {
            odd += raise_face(facet, table);
        }
    }
    odd
}

// The forward turn of a table, whether or not it is accepted. Answers how many sums were odd.
pub fn lower(line: Line, table: &mut [i64]) -> u64
    requires { TableOf line.shape (2 ^ 59) table.old }
    ensures walked { table.new ≡ table_worked true line.shape line.place table.old }
    ensures turned { table.new ≡ turned_table line.shape line.place table.old }
    ensures odds { result ≡ odd_sums line.shape line.place table.old (points_of line.shape) }
{
    if line.shape.border {
        return lower_faces(line, table);
    }
    let last = LevelVector::last(line.shape.axes, line.shape.level);
    lower_face(Facet::whole(line), last, table)
}

// The table that a forward turn takes to this one, whether or not that turn is accepted. Answers how many sums were odd.
pub fn raise(line: Line, table: &mut [i64]) -> u64
    requires { TableOf line.shape (2 ^ 53) table.old }
    ensures walked { table.new ≡ table_worked false line.shape line.place table.old }
    ensures turned { table.new ≡ former_table line.shape line.place table.old }
    ensures odds { result ≡ odd_sums line.shape line.place table.new (points_of line.shape) }
{
    if line.shape.border {
        return raise_faces(line, table);
    }
    raise_face(Facet::whole(line), table)
}
