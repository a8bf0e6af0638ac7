// The rates of a house file: checked, many bytes at once where that decides, and then read one after the other.
#![tactic(auto)]

ghost use Rattle.std.specs.Prelude.{◌≡◌, true, false, ◌≤◌, length, map, Ok};
ghost use Rattle.house_numbers.specs.Numbers.{rate_of};
ghost use Rattle.house_rates.specs.Rates.{read_rates};
ghost use Rattle.house_rates.specs.Steps.{checked_rates, rates_over, ends, NotLargeAt, NoneLarge};

use house_numbers::{checked_number, rate_of, read_number};
use refusals::Refusal;

// Number by number: refused with 11 or 12 at the first of the rates that is no filed number, and with 13 where bytes are left after the last.
fn check_each(bytes: &[u8], count: usize) -> Result<(), Refusal>
    ensures { result ≡ checked_rates (read_rates count bytes.now) }
{
    let mut rest = bytes;
    for _ in 0..count {
        let (_, more) = read_number(rest)?;
        rest = more;
    }
    if !rest.is_empty() {
        return Err(Refusal::BytesLeft);
    }
    Ok(())
}

// How many numbers end among so few bytes that a byte counts them. A byte below 128 ends one.
fn few_ends(bytes: &[u8]) -> u8
    requires { length bytes.now ≤ 224 }
    ensures { result ≡ ends bytes.now }
{
    bytes.iter().map(|b| u8::from(*b < 128)).sum()
}

// How many numbers end among some bytes.
fn count_ends(bytes: &[u8]) -> usize
    ensures { result ≡ ends bytes.now }
{
    // A `for`: of a chain, a sum of `map` over `chunks`, the bound and the equation did not close: which list
    // `chunks` yields no lemma of std says (`sum_by_chunks` is of `map_chunks`).
    let mut count: usize = 0;
    for few in bytes.chunks(224) {
        count += usize::from(few_ends(few));
    }
    count
}

// Whether five bytes in a row are of a number that is too long or too large. All five are tested: that is faster than to stop at the first.
fn is_large(row: &[u8; 5]) -> bool
    ensures { result ≡ false → NotLargeAt row.now 0 }
{
    let [a, b, c, d, e] = *row;
    (128 <= a) & (128 <= b) & (128 <= c) & (128 <= d) & (16 <= e)
}

// Says yes only where no five bytes in a row are of a number that is too long or too large.
fn none_large(bytes: &[u8]) -> bool
    ensures { result ≡ true → NoneLarge bytes.now }
{
    // A `for`: of a chain, a `fold` over `array_windows`, the implication did not close, for std has no lemma that follows one over `array_windows`.
    let mut large = false;
    for row in bytes.array_windows::<5>() {
        large |= is_large(row);
    }
    !large
}

// Says yes only to rates that pass: as many numbers end as there are rates, one ends with the last byte, and none is too long or too large.
fn sound(bytes: &[u8], count: usize) -> bool
    ensures { result ≡ true → checked_rates (read_rates count bytes.now) ≡ Ok tt }
{
    match bytes.last() {
        None => false,
        Some(last) => *last < 128 && count_ends(bytes) == count && none_large(bytes),
    }
}

// The rates of bytes that are a number each, into the first places. (By index: past a zip with `iter_mut` nothing is known of what it wrote.)
fn fill_short(bytes: &[u8], table: &mut [i64])
    requires { length bytes.now ≤ length table.old }
    ensures { table.new ≡ rates_over table.old (map rate_of bytes.now) }
{
    for (place, byte) in bytes.iter().enumerate() {
        table[place] = rate_of(u32::from(*byte));
    }
}

// The rates of a file, which were checked: so many filed numbers, and no byte after them.
#[derive(Clone, Copy)]
pub struct CheckedRates<'a> {
    pub bytes: &'a [u8],
    pub count: usize,
    pub ghost passed: { checked_rates (read_rates count bytes.now) ≡ Ok tt },
}

impl<'a> CheckedRates<'a> {
    ghost use Rattle.std.specs.Prelude.{◌∷◌, ◌<◌};
    ghost use Rattle.house_numbers.specs.Reading.{◌next◌};
    ghost use Rattle.house_rates.specs.Steps.{closed};
    ghost use Rattle.house_rates.specs.Held.{rates_of, split_off, held};

    // The check of the rates: all at once, and number by number only where that does not say yes.
    pub fn check(bytes: &'a [u8], count: usize) -> Result<Self, Refusal>
        ensures { held result ≡ read_rates count bytes.now next closed }
    {
        if !sound(bytes, count) {
            check_each(bytes, count)?;
        }
        Ok(CheckedRates { bytes, count })
    }

    // The filed number of the first rate, which is there, and the rates after it.
    fn take_first(self) -> (u32, Self)
        requires { 0 < self.count }
        ensures { rate_of result.0 ∷ rates_of result.1 ≡ rates_of self.entry }
    {
        let (filed, rest) = checked_number(self.bytes);
        (
            filed,
            CheckedRates {
                bytes: rest,
                count: self.count - 1,
            },
        )
    }

    // The filed number of the first rate, where there is one, and the rates after it.
    pub fn split_first(self) -> Option<(u32, Self)>
        ensures { split_off rates_of result ≡ rates_of self.entry }
    {
        if self.count == 0 {
            return None;
        }
        Some(self.take_first())
    }

    // The rates into the first places. Where there are no more bytes than rates, each byte is a number.
    pub fn fill(self, table: &mut [i64])
        requires { length (rates_of self) ≤ length table.old }
        ensures { table.new ≡ rates_over table.old (rates_of self.entry) }
    {
        if self.bytes.len() == self.count {
            return fill_short(self.bytes, table);
        }
        let mut rates = self;
        for place in table[..self.count].iter_mut() {
            let (filed, rest) = rates.take_first();
            *place = rate_of(filed);
            rates = rest;
        }
    }
}
