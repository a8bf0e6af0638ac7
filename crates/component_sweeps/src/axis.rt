// One axis of a box as the code works it.
ghost use Rattle.std.specs.Prelude.{suc, ◌≡◌, ◌^◌, ◌<◌};
ghost use Rattle.numbering.specs.Point.{at};
ghost use Rattle.numbering.specs.Parent.{twos};
ghost use Rattle.component_grids.specs.Component.{points_to, place_at};
ghost use Rattle.component_sweeps.specs.Steps.{tops_of, Covers};

use crate::GridBox;

// How the lines of a box are worked together: `lines` runs, each `apart` from the one before, of `width` positions, each a `unit` from
// the one before, have the box's points on all axes below `from`, the turned one aside. (What it covers stands in `Covers`: a struct with
// facts of its own cannot be made of another by `..b`.)
#[derive(Clone, Copy)]
pub struct Spread {
    pub from: usize,
    pub width: usize,
    pub lines: usize,
    pub apart: usize,
    pub unit: usize,
}

// One axis of a box.
#[derive(Clone, Copy)]
pub struct BoxAxis<'a> {
    pub of: GridBox<'a>,
    pub axis: usize,
    ghost inside: { axis < of.grid.now.axes },
}

// An axis of a box as it is turned.
#[derive(Clone, Copy)]
pub struct Sweep<'a> {
    pub on: BoxAxis<'a>,
    // How the box's lines are worked together.
    pub spread: Spread,
    // How far two places that follow each other lie apart.
    pub stride: usize,
    // Where the axis ends.
    pub end: usize,
    // The place of the box's middle point.
    pub place: usize,
    // The box's level, and how far the box reaches on either side of the middle point. (Both: places are gone through by level, and three
    // expressions start from that reach, which would each shift it anew.)
    pub level: u32,
    pub half: usize,
    // How far the middle point itself reaches.
    pub reach: usize,
    ghost covers: { ∥ Covers on.of on.axis spread ∥₁ },
    ghost stride_is: { stride ≡ points_to (tops_of on.of.grid.now) on.axis },
    ghost end_is: { end ≡ 2 ^ suc (at on.of.grid.now.tops on.axis) },
    ghost place_is: { place ≡ place_at (tops_of on.of.grid.now) on.of.centre on.axis },
    ghost level_is: { level ≡ at on.of.levels on.axis },
    ghost half_is: { half ≡ 2 ^ level },
    ghost reach_is: { reach ≡ 2 ^ twos place },
}
