// Component grids and their boxes as the code holds them.
ghost use Rattle.std.specs.Prelude.{ℕ, ◌≡◌, ◌<◌, ◌≤◌};
ghost use Rattle.numbering.specs.Point.{at};
ghost use Rattle.shapes.specs.Shapes.{most_points};
ghost use Rattle.component_grids.specs.Component.{points_to};
ghost use Rattle.component_boxes.specs.Boxes.{Fits};

// How a component grid of at most 32,768 points is laid out: its axes, the top level of each, and how many positions two points that
// follow each other on it lie apart. (Two arrays and not one of pairs: the levels of the whole grid's box are its tops, and half a box's
// span is over the levels of any box and the strides.)
#[derive(Clone, Copy)]
pub struct Layout {
    pub axes: usize,
    pub tops: [u32; 8],
    pub strides: [usize; 8],
    ghost some: { 1 ≤ axes },
    ghost few: { axes ≤ 8 },
    ghost low: { (t : ℕ) → at tops t ≤ 8 },
    ghost laid: { (t : ℕ) → t < axes → at strides t ≡ points_to (at tops) t },
    ghost small: { points_to (at tops) axes ≤ most_points },
}

// A box of a component grid: its level on each axis, and the position of its middle point.
#[derive(Clone, Copy)]
pub struct GridBox<'a> {
    pub grid: &'a Layout,
    pub levels: [u32; 8],
    pub centre: usize,
    ghost fits: { Fits grid.now.axes (at grid.now.tops) (at levels) centre },
}
