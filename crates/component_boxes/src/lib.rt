// Boxes of a component grid and the order in which they are worked through: how many points an axis has, which axis is the widest, and
// where a split cuts the axes that are still to do.
#![tactic(auto)]

ghost use Rattle.std.specs.Prelude.{ℕ, ◌≡◌, ◌≤◌, length, min};
ghost use Rattle.numbering.specs.Point.{at};
ghost use Rattle.splits.specs.Splits.{cut};
ghost use Rattle.component_grids.specs.Component.{across, points_to};
ghost use Rattle.component_boxes.specs.Order.{widest};

// The axis with most points left among axes of these levels, the smallest of several.
pub fn widest_axis(levels: &[u32]) -> usize
    ensures { result ≡ widest (at levels.now) (length levels.now) }
{
    let mut most = 0;
    for (t, level) in levels.iter().enumerate() {
        if levels[most] < *level {
            most = t;
        }
    }
    most
}

// Where a split along axis r cuts the axes from `from` to `to`.
pub fn cut_at(from: usize, to: usize, r: usize) -> usize
    ensures { result ≡ cut from to r }
{
    from.max(r).min(to)
}

// How many points an axis of a level has. (The level's bound is that of the shift.)
pub fn points_across(level: u32) -> u64
    requires { level ≤ 8 }
    ensures { result ≡ across level }
{
    (2 << level) - 1
}

// How many points axes of these levels have together, or the largest number of the width where they have more.
pub fn count_points(levels: &[u32]) -> u64
    requires { (t : ℕ) → at levels.now t ≤ 8 }
    ensures { result ≡ min (points_to (at levels.now) (length levels.now)) 18446744073709551615 }
{
    levels
        .iter()
        .map(|level| points_across(*level))
        .fold(1, |points: u64, across| points.saturating_mul(across))
}
