// One axis of a box of a component grid, in the one lent buffer: each value of the box becomes itself less half the sum of its two parents' values.
#![tactic(auto)]

ghost use Rattle.std.specs.Prelude.{ℕ, ◌≡◌, ◌+◌, ◌*◌, ◌^◌, ◌≤◌, ◌<◌, set, IfSome};
ghost use Rattle.numbering.specs.Point.{at};
ghost use Rattle.component_grids.specs.Component.{across};
ghost use Rattle.component_boxes.specs.Order.{half_span};
ghost use Rattle.component_sweeps.specs.Steps.{lowered, CanStep, ParentsAt, LoweredOn, Run, CanRun, Band, CanBand, tops_of, turn_of, Turned, Corner, Covers, InBox, Asked};
ghost use Rattle.component_sweeps.specs.SweepSteps.{turn, Class, InClass, Line, InLine, Rows, InRows};

mod axis;
mod grid;

use axis::{BoxAxis, Spread, Sweep};
pub use grid::{GridBox, Layout};

// How far behind and ahead of a point its parents on the turned axis lie, where there are any.
#[derive(Clone, Copy)]
struct Parents {
    left: Option<usize>,
    right: Option<usize>,
}

impl Parents {
    // The value at a position becomes itself less half the sum of those of its parents.
    fn step(self, table: &mut [i64], p: usize)
        requires { CanStep p self table.old }
        ensures { table.new ≡ set table.old p (lowered table.old p self) }
    {
        let a = match self.left {
            Some(far) => table[p - far],
            None => 0,
        };
        let b = match self.right {
            Some(far) => table[p + far],
            None => 0,
        };
        let v = table[p];
        table[p] = integers::less_half(v, a, b);
    }
}

impl Spread {
    // One run. The position is kept, and not made anew from the count: that would take a tenth more instructions on eight axes.
    fn lower_run(self, table: &mut [i64], first: usize, parents: Parents)
        requires { CanRun self first parents table.old }
        ensures { LoweredOn parents (Run self first) table.old table.new }
    {
        let mut p = first;
        for _i in 0..self.width {
            parents.step(table, p);
            p += self.unit;
        }
    }

    // All runs.
    fn lower(self, table: &mut [i64], first: usize, parents: Parents)
        requires { CanBand self first parents table.old }
        ensures { LoweredOn parents (Band self first) table.old table.new }
    {
        for l in 0..self.lines {
            self.lower_run(table, first + l * self.apart, parents);
        }
    }
}

impl Sweep<'_> {
    // How far behind and ahead of a place that reaches so far its parents lie: none where that is an end of the axis.
    fn parents(&self, place: usize, reach: usize) -> Parents
        requires { (self.now.stride * reach < 2 ^ 64) × (place + reach < 2 ^ 64) }
        ensures { ParentsAt self.now.stride self.now.end place reach result }
    {
        let far = self.stride * reach;
        Parents {
            left: (place != reach).then_some(far),
            right: (place + reach != self.end).then_some(far),
        }
    }

    // The places that reach 2^level, on the lines of the band that starts at position q: every second multiple of their reach.
    fn class(&self, table: &mut [i64], q: usize, level: u32)
        requires { Class self.now q level table.old }
        ensures { Turned (turn self.now) (InClass self.now q level) table.old table.new }
    {
        let reach = 1 << level;
        let low = self.place - self.half;
        let high = self.place + self.half;
        for x in (low + reach..high).step_by(2 * reach) {
            self.spread.lower(
                table,
                q + (x - low - 1) * self.stride,
                self.parents(x, reach),
            );
        }
    }

    // The lines of the band that starts at position q, the finest places first: a place's parents are coarser, and have not moved yet.
    // A middle with no parents stays.
    fn line(&self, table: &mut [i64], q: usize)
        requires { Line self.now q table.old }
        ensures { Turned (turn self.now) (InLine self.now q) table.old table.new }
    {
        for level in 0..self.level {
            self.class(table, q, level);
        }
        if self.place == self.reach && self.place + self.reach == self.end {
            return;
        }
        self.spread.lower(
            table,
            q + (self.half - 1) * self.stride,
            self.parents(self.place, self.reach),
        );
    }

    // All lines of the box's points that have the places of position q from axis j on, the turned axis aside.
    fn rows(&self, table: &mut [i64], j: usize, q: usize)
        requires { Rows self.now j q table.old }
        ensures { Turned (turn self.now) (InRows self.now j q) table.old table.new }
    {
        if j == self.spread.from {
            self.line(table, q);
            return;
        }
        let u = j - 1;
        if u == self.on.axis {
            self.rows(table, u, q);
            return;
        }
        let stride = self.on.of.grid.strides[u];
        for i in 0..self.on.of.points_on(u) {
            self.rows(table, u, q + i * stride);
        }
    }
}

impl Layout {
    // How many positions the middle point of a box of these levels comes after the box's first position. (A `for` shows of each turn that
    // the span fits; std's `sum` asks it of the whole beforehand.)
    pub fn half_span(&self, levels: &[u32; 8]) -> usize
        requires { (t : ℕ) → t < self.now.axes → at levels.now t ≤ at self.now.tops t }
        ensures { result ≡ half_span self.now.axes (tops_of self.now) (at levels.now) }
    {
        let mut span = 0;
        for (level, stride) in levels[..self.axes].iter().zip(&self.strides) {
            span += ((1 << *level) - 1) * *stride;
        }
        span
    }
}

impl BoxAxis<'_> {
    // A band with the next axis too, where there is one that can be added. The turned axis and one where the box has a single point add
    // nothing. The points of another one make the run, or widen it where they go on with its unit; or else they make the lines, or add to
    // them in the same way.
    fn add_axis(&self, b: Spread) -> Option<Spread>
        requires { Covers self.now.of self.now.axis b }
        ensures { IfSome result (λ more. Covers self.now.of self.now.axis more × (more.from ≡ b.from + 1)) }
    {
        let u = b.from;
        if u == self.of.grid.axes {
            return None;
        }
        let size = self.of.points_on(u);
        let stride = self.of.grid.strides[u];
        let more = Spread { from: u + 1, ..b };
        if u == self.axis || size == 1 {
            return Some(more);
        }
        if b.lines == 1 {
            if b.width == 1 {
                return Some(Spread {
                    width: size,
                    unit: stride,
                    ..more
                });
            }
            if b.width * b.unit == stride {
                return Some(Spread {
                    width: b.width * size,
                    ..more
                });
            }
            return Some(Spread {
                lines: size,
                apart: stride,
                ..more
            });
        }
        if b.lines * b.apart == stride {
            return Some(Spread {
                lines: b.lines * size,
                ..more
            });
        }
        None
    }

    // The band of as many axes as there can be.
    fn spread(&self) -> Spread
        ensures { Covers self.now.of self.now.axis result }
    {
        let mut b = Spread {
            from: 0,
            width: 1,
            lines: 1,
            apart: 1,
            unit: 1,
        };
        while let Some(more) = self.add_axis(b) {
            b = more;
        }
        b
    }
}

impl GridBox<'_> {
    // How many points the box has on an axis.
    fn points_on(&self, axis: usize) -> usize
        requires { axis < self.now.grid.now.axes }
        ensures { result ≡ across (at self.now.levels axis) }
    {
        component_boxes::points_across(self.levels[axis]) as usize
    }

    // The box's first position.
    fn corner(&self) -> usize
        ensures { Corner self.now result }
    {
        self.centre - self.grid.half_span(&self.levels)
    }

    // One axis of the box.
    pub fn sweep(&self, axis: usize, table: &mut [i64])
        requires { (axis < self.now.grid.now.axes) × Asked (turn_of self.now axis) (InBox (turn_of self.now axis)) table.old }
        ensures { Turned (turn_of self.now axis) (InBox (turn_of self.now axis)) table.old table.new }
    {
        let stride = self.grid.strides[axis];
        let end: usize = 2 << self.grid.tops[axis];
        let place = self.centre / stride % (end - 1) + 1;
        let level = self.levels[axis];
        let on = BoxAxis { of: *self, axis };
        let sweep = Sweep {
            on,
            spread: on.spread(),
            stride,
            end,
            place,
            level,
            half: 1 << level,
            reach: 1 << place.trailing_zeros(),
        };
        sweep.rows(table, self.grid.axes, self.corner());
    }
}
