// Exact signed arithmetic of the turns: the content limit of a value and of a table, the rates, a step of a turn, whether a sum is odd, and a value less half a sum.
#![tactic(auto)]

ghost use Rattle.std.specs.Prelude.{◌≡◌, Bool, true, false, ℕ, ◌+◌, ◌%◌, ◌^◌, ◌≤◌, ◌<◌, pos, nat_abs, ◌+ℤ◌, ◌-ℤ◌, length, get_or};
ghost use Rattle.naturals.specs.Test.{all};
ghost use Rattle.integers.specs.Half.{half, odd_of, stepped, in_limit, content_at, is_rate, Within};

// The content limit, 2^47 on either side of zero.
const LIMIT: i64 = 140737488355328;

// Within the content limit, the ends allowed.
pub fn in_limit(v: i64) -> bool
    ensures { result ≡ in_limit v }
{
    (-LIMIT..=LIMIT).contains(&v)
}

// All values of a table at once, with no branch for each: the bits of each value plus 2^bits, modulo 2^64. They are below 2^(bits + 1) only where each value
// is a signed number of so many bits, and 2^k divides what is gathered only where it divides each value.
pub fn gathered(bits: u32, table: &[i64]) -> u64
    requires { bits < 63 }
    ensures within { result < 2 ^ (bits + 1) → (p : ℕ) → p < length table.now → Within bits (get_or table.now p (pos 0)) }
    ensures divided { (k : ℕ) → k ≤ bits → result % 2 ^ k ≡ 0 → (p : ℕ) → p < length table.now → nat_abs (get_or table.now p (pos 0)) % 2 ^ k ≡ 0 }
{
    table.iter().fold(0, |all, &v| all | v.cast_unsigned().wrapping_add(1 << bits))
}

// All values of a table are within the content limit. Where that is not seen for all together, they are looked at one by one.
pub fn all_in_limit(table: &[i64]) -> bool
    ensures { result ≡ all (content_at table.now) (length table.now) }
{
    gathered(47, table) < 1 << 48 || table.iter().all(|&v| in_limit(v))
}

// The ends of the rates.
const SMALLEST: i64 = i32::MIN as i64;

const LARGEST: i64 = i32::MAX as i64;

// A rate, the ends allowed. (By its ends, as the content limit is: a cast tried and thrown away would say less.)
pub fn is_rate(v: i64) -> bool
    ensures { result ≡ is_rate v }
{
    (SMALLEST..=LARGEST).contains(&v)
}

// Which way a turn goes.
pub trait Direction {
    // Forward (true) or back.
    ghost ahead: { Bool };

    // A value after a step of a turn.
    fn step(v: i64, sum: i64) -> i64
        requires { (nat_abs v ≤ 2 ^ 62) × (nat_abs sum ≤ 2 ^ 62) }
        ensures { result ≡ stepped ahead v sum };
}

// Forward a value loses half of its parents' sum.
pub struct Forward;

impl Direction for Forward {
    ghost ahead = { true };

    fn step(v: i64, sum: i64) -> i64 {
        v - (sum >> 1)
    }
}

// Back it gains it.
pub struct Back;

impl Direction for Back {
    ghost ahead = { false };

    fn step(v: i64, sum: i64) -> i64 {
        v + (sum >> 1)
    }
}

// 1 for an odd number, else 0: a number and not a yes or no, since it is added up.
pub fn odd(sum: i64) -> u64
    ensures { result ≡ odd_of sum }
{
    (sum & 1) as u64
}

// A value less half the sum of two, all within the limit.
pub fn less_half(v: i64, a: i64, b: i64) -> i64
    requires { (in_limit v ≡ true) × (in_limit a ≡ true) × (in_limit b ≡ true) }
    ensures { result ≡ v -ℤ half (a +ℤ b) }
{
    Forward::step(v, a + b)
}
