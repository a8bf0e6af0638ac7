// The weights of one axis: coordinates, the cell in which one lies, and the weight of a point there.
#![tactic(auto)]

ghost use Rattle.std.specs.Prelude.{◌≡◌, suc, ◌^◌, ◌≤◌, ◌<◌};
ghost use Rattle.surfaces.specs.Weights.{unit, is_coordinate, weight, axis_weight};
ghost use Rattle.axis_weights.specs.Steps.{cell_of};

use surfaces::BITS;

// Whether a number is a coordinate, from 0 to the unit. (A test and no `Option<Coordinate>`: a list of coordinates is checked whole, before the first is used.)
pub fn is_coordinate(x: u32) -> bool
    ensures { result ≡ is_coordinate unit x }
{
    x <= 1 << BITS
}

// One that passed, as the weights take it, in 64 bits.
#[derive(Clone, Copy)]
pub struct Coordinate {
    pub x: u64,
    ghost inside: { x ≤ unit },
}

impl Coordinate {
    // The weight there of a point of this level and index on one axis. (The level's bound is that of the shift.)
    pub fn weight(self, level: u32, index: u64) -> u64
        requires { (level ≤ 8) × (index < 2 ^ suc level) }
        ensures { result ≡ weight unit self.x level index }
    {
        let apart = (self.x << (level + 1)).abs_diff(index << BITS);
        (1u64 << BITS).saturating_sub(apart)
    }

    // The weight there of a point on a border of the axis: the lower one of mark 1, the upper one of mark 2. (It has level 0 and index 1.)
    pub fn border_weight(self, mark: u32) -> u64
        requires { 1 ≤ mark }
        ensures { result ≡ axis_weight unit self.x mark 0 1 }
    {
        if mark == 1 {
            (1 << BITS) - self.x
        } else {
            self.x
        }
    }

    // The cell of a level on one axis in which it lies, counted from 0: the point of index 2 × cell + 1 alone can have a weight above 0 there.
    pub fn cell(self, level: u32) -> u64
        requires { level ≤ 8 }
        ensures { result ≡ cell_of self.x level }
    {
        if self.x < 1 << BITS {
            (self.x << level) >> BITS
        } else {
            0
        }
    }
}
