// The level vectors that a turn meets on the faces of a table, and the parents of their points by number: inside the face, and across its border.
#![tactic(auto)]

mod facets;
mod subspaces;

ghost use Rattle.std.specs.Prelude.{◌≡◌, suc, ◌+◌, ◌^◌, ◌%◌, ◌≤◌, ◌<◌};
ghost use Rattle.neighbours.specs.Steps.{Below, parent_from};

pub use facets::{Facet, Line, Rims};
pub use subspaces::Subspace;

impl Subspace {
    // Points with the same digit on the axis that follow each other have parents that follow each other: the number of the first of the parents at a numerator
    // off the border, where the axes beyond add `beyond`. No search: the digits of a position shifted.
    pub fn parent_run(self, starts: &[u64; 9], beyond: u64, numerator: u32) -> u64
        requires { Below self starts.now × (beyond < 2 ^ 8) × (numerator % 2 ≡ 0) × (0 < numerator) × (numerator < 2 ^ suc self.own) }
        ensures { result ≡ parent_from self starts.now 0 beyond numerator }
    {
        let up = parents::reduce(self.own, numerator);
        let level = up.level;
        let half = u64::from(up.index >> 1);
        starts[(self.own - level) as usize] + (half << self.low) + (beyond << (self.low + level))
    }
}
