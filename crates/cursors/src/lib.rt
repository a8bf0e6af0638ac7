// The first numbers of the level lists below the one that a turn is at: cursors that step on as the turn goes from list to list. Lowering one axis by j keeps
// the order of level lists, so the lists of one sum that can be lowered by j become, one after the other, all lists of the sum that is smaller by j.
#![tactic(auto)]

mod starts;

ghost use Rattle.std.specs.Prelude.{suc, ◌≡◌, ◌+◌, ◌-◌, ◌*◌, ◌^◌, ◌≤◌};
ghost use Rattle.numbering.specs.Count.{vectors};
ghost use Rattle.numbering.specs.Number.{rank, first_of};
ghost use Rattle.numbering.specs.Point.{at};
ghost use Rattle.neighbours.specs.Facets.{without};
ghost use Rattle.neighbours.specs.Steps.{rims_of};
ghost use Rattle.cursors.specs.Steps.{Cursors, Filled, passed};

use neighbours::{Rims, Subspace};
pub use starts::Starts;

impl Starts {
    // Cursor j of a sum at the place that lies j before the one `past` after it. (`past` is added and no flag; that the sum is one of the face's is asked by all
    // three. In place: an array that is made and handed back for each sum is cleared and copied.)
    #[inline(always)]
    fn back_from(&self, sum: u32, past: u32, cursors: &mut [u64; 9])
        requires { (sum ≤ self.now.facet.line.shape.level) × (past ≤ 1) }
        ensures { Filled (λ j. at self.now.places (sum + past - j)) 9 1 (suc sum) cursors.new }
    {
        for j in 1..sum + 1 {
            cursors[j as usize] = self.places[(sum + past - j) as usize];
        }
    }

    // The cursors before the first level list of a sum.
    #[inline(always)]
    pub fn before_first(&self, sum: u32, cursors: &mut [u64; 9])
        requires { sum ≤ self.now.facet.line.shape.level }
        ensures { Cursors self.now.facet sum 0 cursors.new }
    {
        self.back_from(sum, 0, cursors);
    }

    // The cursors after the last level list of a sum.
    #[inline(always)]
    pub fn after_last(&self, sum: u32, cursors: &mut [u64; 9])
        requires { sum ≤ self.now.facet.line.shape.level }
        ensures { Cursors self.now.facet sum (vectors self.now.facet.axes sum) cursors.new }
    {
        self.back_from(sum, 1, cursors);
    }
}

// ---- across the border

impl Starts {
    // The points of the level lists that cursor j has passed. Cursor 0, which is not kept, is at the list itself; past its sum there is none.
    fn passed(&self, v: Subspace, cursors: &[u64; 9], j: u32) -> u64
        requires { (self.now.facet ≡ v.facet) × Cursors v.facet v.vector.sum (rank (at v.vector.levels) v.facet.axes) cursors.now }
        ensures { result ≡ 2 ^ (v.vector.sum - j) * passed v.facet.axes v.facet.place v.vector.sum j (rank (at v.vector.levels) v.facet.axes) }
    {
        if j == 0 {
            return v.start - self.places[v.vector.sum as usize];
        }
        if v.vector.sum < j {
            return 0;
        }
        cursors[j as usize] - self.places[(v.vector.sum - j) as usize]
    }

    // The number of the first point of a level list without the axis, in a face across the border: of the lists passed, those with the same level on the axis are
    // the ones that reach it and do not reach one more, and without the axis they are the ones before it there.
    fn first_without(&self, v: Subspace, cursors: &[u64; 9]) -> u64
        requires { (self.now.facet ≡ v.facet) × Cursors v.facet v.vector.sum (rank (at v.vector.levels) v.facet.axes) cursors.now }
        ensures { result ≡ first_of (v.facet.axes - 1) (without v.facet.place (at v.vector.levels)) }
    {
        let same = self.passed(v, cursors, v.own) - 2 * self.passed(v, cursors, v.own + 1);
        shapes::Rows::new().start(v.facet.axes - 1, v.vector.sum - v.own) + same
    }

    // The first numbers across the border of a level list, from those of the faces that lie there. (Compiled into its caller: with a zero border, which is known
    // there, nothing of it is computed.)
    #[inline(always)]
    pub fn rims(&self, v: Subspace, cursors: &[u64; 9]) -> Option<Rims>
        requires { (self.now.facet ≡ v.facet) × Cursors v.facet v.vector.sum (rank (at v.vector.levels) v.facet.axes) cursors.now }
        ensures { result ≡ rims_of v }
    {
        match v.facet.rims {
            Some(rims) => Some(rims.further(self.first_without(v, cursors))),
            None => None,
        }
    }
}

// ---- from list to list

// One level list on: each cursor that stands at a list below this one steps over it. (The loop needs j for the cursor and for the
// step; with `..=` it left goals open. Its twin back is as short as a call with a closure that adds or subtracts, which would have to ask that the result fits.)
pub fn pass(v: Subspace, cursors: &mut [u64; 9])
    requires { Cursors v.facet v.vector.sum (rank (at v.vector.levels) v.facet.axes) cursors.old }
    ensures { Cursors v.facet v.vector.sum (suc (rank (at v.vector.levels) v.facet.axes)) cursors.new }
{
    for j in 1..v.own + 1 {
        cursors[j as usize] += 1 << (v.vector.sum - j);
    }
}

// One level list back: each cursor that stands after a list below this one steps back to it.
pub fn pass_back(v: Subspace, cursors: &mut [u64; 9])
    requires { Cursors v.facet v.vector.sum (suc (rank (at v.vector.levels) v.facet.axes)) cursors.old }
    ensures { Cursors v.facet v.vector.sum (rank (at v.vector.levels) v.facet.axes) cursors.new }
{
    for j in 1..v.own + 1 {
        cursors[j as usize] -= 1 << (v.vector.sum - j);
    }
}
