// The work of a turn on one level list, all its points together, in the one lent buffer. Points with the same digit on the axis that follow each other are a
// run; their parents follow each other too, and half of these parents serve the next run as well: no search and no test for each point. Beside the first run and
// the last lies the border, and across it points that follow each other too, where there are any.
#![tactic(auto)]

ghost use Rattle.std.specs.Prelude.{◌≡◌, ◌+◌, ◌*◌, ◌^◌, ◌≤◌, ◌<◌, ◌+ℤ◌, List, ℤ, None, length};
ghost use Rattle.numbering.specs.Point.{at};
ghost use Rattle.neighbours.specs.Facets.{moved_on};
ghost use Rattle.neighbours.specs.Steps.{Below, rims_of};
ghost use Rattle.lists.specs.Lists.{odd_sums, list_worked, came_to, ListTurned};
ghost use Rattle.lists.specs.Steps.{TableOf, value_in, RoomIn, Source, SourceAcross, edge_sum, RunStepped, Stepped, Workable, BlockAt};

use integers::Direction;
use neighbours::{Rims, Subspace};
use numbering::Side;

// ---- runs (two loops by index: one over a closure would have to say what of the table it may read, and zips of split slices would nest three parts of one table)

// A run from number x on whose points have one parent each: the points from number a on.
fn run_by_border<D: Direction>(table: &mut [i64], x: usize, a: usize, width: usize) -> u64
    requires { Source x width a table.old × (x + width ≤ length table.old) × (length table.old < 2 ^ 32) × RoomIn x width table.old }
    ensures { RunStepped D.ahead x width (value_in table.old a) table.old result table.new }
{
    let mut odd: u64 = 0;
    for i in 0..width {
        let sum = table[a + i];
        odd += integers::odd(sum);
        table[x + i] = D::step(table[x + i], sum);
    }
    odd
}

// A run whose points have parents on both sides: the points from number a on, and those from number b on.
fn run_between<D: Direction>(table: &mut [i64], x: usize, a: usize, b: usize, width: usize) -> u64
    requires { Source x width a table.old × Source x width b table.old × (x + width ≤ length table.old) × (length table.old < 2 ^ 32) × RoomIn x width table.old }
    ensures { RunStepped D.ahead x width (λ i. value_in table.old a i +ℤ value_in table.old b i) table.old result table.new }
{
    let mut odd: u64 = 0;
    for i in 0..width {
        let pair = table[a + i] + table[b + i];
        odd += integers::odd(pair);
        table[x + i] = D::step(table[x + i], pair);
    }
    odd
}

// A run beside the border. Its parents on the other side are the points from number `near` on; across the border lie those from the numbers `rims` on, where
// there are any.
#[inline(always)]
fn edge_run<D: Direction>(
    table: &mut [i64],
    x: usize,
    side: Side,
    rims: Option<Rims>,
    near: usize,
    width: usize,
) -> u64
    requires { SourceAcross x width side rims table.old × Source x width near table.old × (x + width ≤ length table.old) × (length table.old < 2 ^ 32) × RoomIn x width table.old }
    ensures { RunStepped D.ahead x width (edge_sum table.old side rims near) table.old result table.new }
{
    match rims {
        Some(rims) => run_between::<D>(table, x, rims.on(side) as usize, near, width),
        None => run_by_border::<D>(table, x, near, width),
    }
}

// ---- blocks

// The points to which the axes beyond add `beyond`, from number `first` on: run after run, each `width` wide. The numerators 2, 6, 10, .. have their parents
// one level up, so these parents follow each other run by run; those at 4, 8, .. are found by `parent_run`, and each serves the runs on both its sides. The
// points across the border of the block follow each other from the numbers `rims` on.
#[inline(always)]
fn block<D: Direction>(
    v: Subspace,
    starts: &[u64; 9],
    rims: Option<Rims>,
    table: &mut [i64],
    first: u64,
    beyond: u64,
    width: usize,
) -> u64
    requires { Workable v starts.now first table.old × BlockAt v first beyond × (1 ≤ v.own) × (width ≡ 2 ^ v.low) × (rims ≡ moved_on (rims_of v) (beyond * 2 ^ v.low)) }
    ensures { Stepped D.ahead v.facet.line.shape v.facet.line.place first (first + 2 ^ (v.low + v.own)) table.old result table.new }
{
    let pairs: u32 = 1 << (v.own - 1);
    let mut x = first as usize;
    let mut near = (starts[1] + (beyond << (v.low + v.own - 1))) as usize;
    let mut odd = edge_run::<D>(table, x, Side::Left, rims, near, width);
    for j in 1..pairs {
        let far = v.parent_run(starts, beyond, 4 * j) as usize;
        x += width;
        odd += run_between::<D>(table, x, near, far, width);
        x += width;
        near += width;
        odd += run_between::<D>(table, x, far, near, width);
    }
    x += width;
    odd + edge_run::<D>(table, x, Side::Right, rims, near, width)
}

// A block with its own points across the border.
#[inline(always)]
fn edged_block<D: Direction>(
    v: Subspace,
    starts: &[u64; 9],
    rims: Option<Rims>,
    table: &mut [i64],
    first: u64,
    beyond: u64,
    width: usize,
) -> u64
    requires { Workable v starts.now first table.old × BlockAt v first beyond × (1 ≤ v.own) × (width ≡ 2 ^ v.low) × (rims ≡ rims_of v) }
    ensures { Stepped D.ahead v.facet.line.shape v.facet.line.place first (first + 2 ^ (v.low + v.own)) table.old result table.new }
{
    let own_rims = match rims {
        Some(rims) => Some(rims.further(beyond << v.low)),
        None => None,
    };
    block::<D>(v, starts, own_rims, table, first, beyond, width)
}

// ---- a level list (its cursors and the table are handed on beside it: a struct of the three would be made anew for each list, and its facts shown anew)

// Block after block, of a level list that moves on the axis.
#[inline(always)]
fn all_blocks<D: Direction>(
    v: Subspace,
    starts: &[u64; 9],
    rims: Option<Rims>,
    table: &mut [i64],
    width: usize,
) -> u64
    requires { Below v starts.now × TableOf v.facet.line.shape (2 ^ 61) table.old × (1 ≤ v.own) × (width ≡ 2 ^ v.low) × (rims ≡ rims_of v) }
    ensures { Stepped D.ahead v.facet.line.shape v.facet.line.place v.start v.end table.old result table.new }
{
    let bits = v.low + v.own;
    let mut odd: u64 = 0;
    for beyond in 0..1u64 << (v.vector.sum - bits) {
        let first = v.start + (beyond << bits);
        odd += edged_block::<D>(v, starts, rims, table, first, beyond, width);
    }
    odd
}

// Block after block, with the runs as wide as they are: `all_blocks` is compiled for single points too. (Without that, turns at (2, 8) take 37 instructions for
// each point and axis in place of 21.)
#[inline(always)]
fn sized_blocks<D: Direction>(
    v: Subspace,
    starts: &[u64; 9],
    rims: Option<Rims>,
    table: &mut [i64],
) -> u64
    requires { Below v starts.now × TableOf v.facet.line.shape (2 ^ 61) table.old × (1 ≤ v.own) × (rims ≡ rims_of v) }
    ensures { Stepped D.ahead v.facet.line.shape v.facet.line.place v.start v.end table.old result table.new }
{
    if v.low == 0 {
        return all_blocks::<D>(v, starts, rims, table, 1);
    }
    all_blocks::<D>(v, starts, rims, table, 1 << v.low)
}

// The points of a level list that has level 0 on the axis: the border lies on both sides of each. What lies across it follows each other as they do, so they are one
// run; where nothing lies there, nothing moves.
#[inline(always)]
fn flat<D: Direction>(v: Subspace, rims: Option<Rims>, table: &mut [i64]) -> u64
    requires { TableOf v.facet.line.shape (2 ^ 61) table.old × (v.own ≡ 0) × (rims ≡ rims_of v) }
    ensures { Stepped D.ahead v.facet.line.shape v.facet.line.place v.start v.end table.old result table.new }
{
    match rims {
        Some(rims) => run_between::<D>(
            table,
            v.start as usize,
            rims.lower as usize,
            rims.upper as usize,
            (v.end - v.start) as usize,
        ),
        None => 0,
    }
}

// A step at each point of a level list, forward or back; answers how many of the sums are odd. In a turn that has come so far, the list's points then hold what the
// whole turn leaves them, and no other place changes. (What lies across the border, and whether a block is two runs, is asked once for a list: the blocks are
// compiled for each.)
#[inline(always)]
pub fn work<D: Direction>(
    v: Subspace,
    starts: &[u64; 9],
    rims: Option<Rims>,
    table: &mut [i64],
) -> u64
    requires { Below v starts.now × TableOf v.facet.line.shape (2 ^ 61) table.old × (rims ≡ rims_of v) }
    ensures worked { table.new ≡ list_worked D.ahead v.facet.line.shape v.facet.line.place v.facet.base v.facet.axes (at v.vector.levels) table.old }
    ensures odds { odd_sums v.facet.line.shape v.facet.line.place table.old v.start + result ≡ odd_sums v.facet.line.shape v.facet.line.place table.old v.end }
    ensures turned { (xs : List ℤ) → length xs ≡ length table.old → table.old ≡ came_to D.ahead v.facet.line.shape v.facet.line.place v.facet.base v.facet.axes (at v.vector.levels) xs → ListTurned D.ahead v.facet.line.shape v.facet.line.place v.facet.base v.facet.axes (at v.vector.levels) xs table.old table.new }
{
    if v.own == 0 {
        return flat::<D>(v, rims, table);
    }
    match rims {
        Some(rims) => {
            if v.own == 1 {
                return sized_blocks::<D>(v, starts, Some(rims), table);
            }
            sized_blocks::<D>(v, starts, Some(rims), table)
        }
        None => {
            if v.own == 1 {
                return sized_blocks::<D>(v, starts, None, table);
            }
            sized_blocks::<D>(v, starts, None, table)
        }
    }
}
