// Rates that are written: each comes as its filed number, first to last.
#![tactic(auto)]

ghost use Rattle.std.specs.Prelude.{◌≡◌, ◌+◌, ◌≤◌, List, ℤ, length, Ok};
ghost use Rattle.house_rates.specs.Rates.{read_rates};
ghost use Rattle.house_rates.specs.Steps.{checked_rates, rates_read};
ghost use Rattle.house_rates.specs.Held.{split_off};
ghost use Rattle.house_file.specs.Written.{AllRates, written_rates};

use house_rates::CheckedRates;
use written_numbers::filed_of;

// Rates that are written: those of a table, or those of a file that was checked. (No `Iterator`: of one a proof knows what it has given, and here asks for what is left.)
pub trait FiledRates: Copy {
    ghost rates: { Self → List ℤ };

    // The filed number of the first rate, and the rates after it.
    fn split_first(self) -> Option<(u32, Self)>
        ensures { split_off rates result ≡ rates self };

    // So many bytes are enough for d, n and the rates.
    fn enough(self) -> usize
        ensures { 2 + length (written_rates (rates self)) ≤ result };
}

// The rates of a table.
#[derive(Clone, Copy)]
pub struct TableRates<'a> {
    pub rates: &'a [i64],
    ghost each: { AllRates rates.now },
}

impl<'a> FiledRates for TableRates<'a> {
    ghost rates = { λ t. t.rates.now };

    fn split_first(self) -> Option<(u32, Self)> {
        let (rate, rest) = self.rates.split_first()?;
        Some((filed_of(*rate), TableRates { rates: rest }))
    }

    // No number takes more than 5 bytes.
    fn enough(self) -> usize {
        2 + 5 * self.rates.len()
    }
}

impl<'a> FiledRates for CheckedRates<'a> {
    ghost use Rattle.house_rates.specs.Held.{rates_of};

    ghost rates = { rates_of };

    fn split_first(self) -> Option<(u32, Self)> {
        self.split_first()
    }

    fn enough(self) -> usize {
        enough_again(self.bytes, self.count)
    }
}

// Rates that were checked are never written in more bytes than they were read from.
// (As a method it did not close: of a slice in a field, also of a local copy of it, a proof is told the length alone, and not that its elements are bytes.)
fn enough_again(bytes: &[u8], count: usize) -> usize
    requires { checked_rates (read_rates count bytes.now) ≡ Ok tt }
    ensures { 2 + length (written_rates (rates_read (read_rates count bytes.now))) ≤ result }
{
    2 + bytes.len()
}
