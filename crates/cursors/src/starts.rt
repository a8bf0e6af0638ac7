// Where the points of each level sum of a face start.
ghost use Rattle.std.specs.Prelude.{ℕ, suc, ◌≡◌, ◌+◌, ◌≤◌};
ghost use Rattle.numbering.specs.Count.{start, points};
ghost use Rattle.numbering.specs.Point.{at};

use neighbours::Facet;

// The number of the first point of each level sum from 0 to the top level; in the next place, N. Other places are not read.
#[derive(Clone, Copy)]
pub struct Starts {
    pub facet: Facet,
    pub places: [u64; 10],
    ghost first: { (s : ℕ) → s ≤ suc facet.line.shape.level → at places s ≡ facet.base + start facet.axes s },
}

impl Starts {
    // The starts of a face.
    #[inline(always)]
    pub fn of(facet: Facet) -> Starts
        ensures { result.facet ≡ facet }
    {
        let rows = shapes::Rows::new();
        let mut places = [0u64; 10];
        for s in 0..facet.line.shape.level + 2 {
            places[s as usize] = facet.base + rows.start(facet.axes, s);
        }
        Starts { facet, places }
    }

    // The number after the last point of the face.
    #[tactic(auto, using(numbering::proofs::Numbering::points_is))]
    pub fn end(&self) -> u64
        ensures { result ≡ self.now.facet.base + points self.now.facet.axes self.now.facet.line.shape.level }
    {
        self.places[self.facet.line.shape.level as usize + 1]
    }
}
