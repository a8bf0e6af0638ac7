// Rates to coefficients on a component grid, in the order of the splits (document 02, c).
#![tactic(auto)]

ghost use Rattle.std.specs.Prelude.{◌≡◌, ◌<◌};
ghost use Rattle.numbering.specs.Point.{at};
ghost use Rattle.component_grids.specs.Component.{across, points_to};
ghost use Rattle.component_boxes.specs.Order.{widest};
ghost use Rattle.component_sweeps.specs.Steps.{tops_of};
ghost use Rattle.component_order.specs.InOrder.{Loaded, in_order};
ghost use Rattle.component_order.specs.Steps.{MixedOn, worked_on, PartsOf};

use component_sweeps::{GridBox, Layout};

// Boxes of at most so many points are done axis by axis, which leaves what the steps in order leave.
const SWEPT: u64 = 1024;

// A box of a grid and the axes that are due there: axes `from` + 1 to `to`.
#[derive(Clone, Copy)]
struct Piece<'a> {
    of: GridBox<'a>,
    from: usize,
    to: usize,
}

// The parts of a piece that is split along its box's widest axis: the middle up to the cut, the halves, and the middle for the rest.
#[derive(Clone, Copy)]
struct Parts<'a> {
    first: Piece<'a>,
    left: Piece<'a>,
    right: Piece<'a>,
    last: Piece<'a>,
}

impl<'a> Piece<'a> {
    // How many points are left.
    fn points_left(&self) -> u64
        ensures { result ≡ points_to (at self.now.of.levels) self.now.of.grid.now.axes }
    {
        component_boxes::count_points(&self.of.levels[..self.of.grid.axes])
    }

    // The axes that are due, one after the other.
    fn sweep(&self, table: &mut [i64])
        requires { MixedOn self.now table.old }
        ensures { table.new ≡ worked_on self.now table.old }
    {
        for axis in self.from..self.to {
            self.of.sweep(axis, table);
        }
    }

    // The piece's parts: its middle has level 0 on the widest axis, and its halves a level less there and middle points of their own.
    // (Each box is written in full: of a struct with facts of its own `..` makes none.)
    fn split(&self) -> Parts<'a>
        requires { 1 < across (at self.now.of.levels (widest (at self.now.of.levels) self.now.of.grid.now.axes)) }
        ensures { PartsOf self.now result }
    {
        let r = component_boxes::widest_axis(&self.of.levels[..self.of.grid.axes]);
        let level = self.of.levels[r] - 1;
        let mut single = self.of.levels;
        single[r] = 0;
        let mut half = self.of.levels;
        half[r] = level;
        let away = (1 << level) * self.of.grid.strides[r];
        let cut = component_boxes::cut_at(self.from, self.to, r);
        let middle = GridBox {
            grid: self.of.grid,
            levels: single,
            centre: self.of.centre,
        };
        let left = GridBox {
            grid: self.of.grid,
            levels: half,
            centre: self.of.centre - away,
        };
        let right = GridBox {
            grid: self.of.grid,
            levels: half,
            centre: self.of.centre + away,
        };
        Parts {
            first: Piece {
                of: middle,
                from: self.from,
                to: cut,
            },
            left: Piece { of: left, ..*self },
            right: Piece { of: right, ..*self },
            last: Piece {
                of: middle,
                from: cut,
                to: self.to,
            },
        }
    }

    // The axes that are due, in the order of the splits. The number of points left falls at each call.
    fn work(&self, table: &mut [i64])
        requires { MixedOn self.now table.old }
        ensures { table.new ≡ worked_on self.now table.old }
    {
        if self.from == self.to {
            return;
        }
        if self.points_left() <= SWEPT {
            self.sweep(table);
            return;
        }
        let parts = self.split();
        parts.first.work(table);
        parts.left.work(table);
        parts.right.work(table);
        parts.last.work(table);
    }
}

// Rates to coefficients: every axis of the whole grid, in the order of the splits.
pub fn in_order(grid: &Layout, table: &mut [i64])
    requires { Loaded grid.now.axes (tops_of grid.now) table.old }
    ensures { table.new ≡ in_order grid.now.axes (tops_of grid.now) table.old }
{
    let whole = GridBox {
        grid,
        levels: grid.tops,
        centre: grid.half_span(&grid.tops),
    };
    Piece {
        of: whole,
        from: 0,
        to: grid.axes,
    }
    .work(table);
}
