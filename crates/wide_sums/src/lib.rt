// A sum of coefficients times weights, kept in two numbers of 64 bits, and its division by the unit to the nearest.
#![tactic(auto)]

ghost use Rattle.std.specs.Prelude.{true, ◌≡◌, ◌+◌, ◌*◌, ◌/◌, ◌^◌, ◌≤◌, pos, nat_abs, ◌+ℤ◌, ◌*ℤ◌};
ghost use Rattle.integers.specs.Half.{in_limit};
ghost use Rattle.integers.specs.Floor.{floor, remainder};
ghost use Rattle.surfaces.specs.Weights.{unit};
ghost use Rattle.surfaces.specs.Surface.{rounded};

use surfaces::BITS;

// Half of the unit.
const HALF: u64 = 1 << (BITS - 1);

// A coefficient is its high part times the unit, plus its low part. The sums of the parts times weights fit 64 bits each.
pub fn add_high(high: i64, c: i64, joint: u64) -> i64
    requires { (nat_abs high ≤ 2 ^ 62) × (in_limit c ≡ true) × (joint ≤ unit) }
    ensures { result ≡ high +ℤ floor unit c *ℤ pos joint }
{
    high + (c >> BITS) * joint as i64
}

pub fn add_low(low: u64, c: i64, joint: u64) -> u64
    requires { (low ≤ 2 ^ 62) × (joint ≤ unit) }
    ensures { result ≡ low + remainder unit c * joint }
{
    low + (c & ((1 << BITS) - 1)) as u64 * joint
}

// The sum is `high` times the unit, plus `low`. What the type leaves of 64 bits is enough for the last division.
#[derive(Clone, Copy)]
pub struct Sum {
    pub high: i64,
    pub low: u64,
    ghost high_room: { nat_abs high ≤ 2 ^ 62 + 2 ^ 47 },
    ghost low_room: { low ≤ 2 ^ 62 + 2 ^ 47 },
}

impl Sum {
    // Of no terms.
    pub fn new() -> Sum
        ensures high { result.high ≡ pos 0 }
        ensures low { result.low ≡ 0 }
    {
        Sum { high: 0, low: 0 }
    }

    // A coefficient times a weight more.
    pub fn add(&mut self, c: i64, joint: u64)
        requires { (nat_abs self.old.high ≤ 2 ^ 62) × (self.old.low ≤ 2 ^ 62) × (in_limit c ≡ true) × (joint ≤ unit) }
        ensures high { self.new.high ≡ self.old.high +ℤ floor unit c *ℤ pos joint }
        ensures low { self.new.low ≡ self.old.low + remainder unit c * joint }
    {
        self.high = add_high(self.high, c, joint);
        self.low = add_low(self.low, c, joint);
    }

    // With a part of the unit more, divided by the unit and rounded down.
    fn divided(self, more: u64) -> i64
        requires { more ≤ unit }
        ensures { result ≡ self.high +ℤ pos ((self.low + more) / unit) }
    {
        self.high + ((self.low + more) >> BITS) as i64
    }

    // Divided by the unit and rounded to the nearest: half a unit is added, and the division is rounded down. Below zero one less than half is added, so that
    // halves go away from zero.
    pub fn joined(self) -> i64
        ensures { result ≡ rounded unit (self.high *ℤ pos unit +ℤ pos self.low) }
    {
        if self.divided(0) < 0 {
            self.divided(HALF - 1)
        } else {
            self.divided(HALF)
        }
    }
}
