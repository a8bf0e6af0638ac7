// The level vectors that a turn on an axis meets.
ghost use Rattle.std.specs.Prelude.{◌≡◌, ◌+◌, ◌^◌, ◌≤◌};
ghost use Rattle.naturals.specs.Sum.{sum_to};
ghost use Rattle.numbering.specs.Point.{at};
ghost use Rattle.numbering.specs.Number.{first_of};

use crate::facets::Facet;
use vectors::LevelVector;

// A level vector (document 01: level list) of a face as a turn on an axis meets it. Its points are the numbers from `start` to `end` − 1. `low` is the sum
// of its levels before the axis, `own` its level there.
#[derive(Clone, Copy)]
pub struct Subspace {
    pub facet: Facet,
    pub vector: LevelVector,
    pub start: u64,
    pub end: u64,
    pub low: u32,
    pub own: u32,
    ghost same: { vector.axes ≡ facet.axes },
    ghost inside: { vector.sum ≤ facet.line.shape.level },
    ghost first: { start ≡ facet.base + first_of facet.axes (at vector.levels) },
    ghost after: { end ≡ start + 2 ^ vector.sum },
    ghost before: { low ≡ sum_to (at vector.levels) facet.place },
    ghost there: { own ≡ at vector.levels facet.place },
}

impl Subspace {
    // A level vector with this first number, for a turn on an axis.
    #[inline(always)]
    pub fn on(facet: Facet, vector: &LevelVector, start: u64) -> Subspace
        requires { (vector.now.axes ≡ facet.axes) × (vector.now.sum ≤ facet.line.shape.level) × (start ≡ facet.base + first_of facet.axes (at vector.now.levels)) }
        ensures { (result.facet ≡ facet) × (result.vector ≡ vector.now) × (result.start ≡ start) }
    {
        let place = facet.place as usize;
        Subspace {
            facet,
            vector: *vector,
            start,
            end: start + (1 << vector.sum),
            low: vectors::level_sum(&vector.levels[..place]),
            own: vector.levels[place],
        }
    }
}
