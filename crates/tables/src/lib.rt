// Opening and closing a table: load, adopt and unload, in the one lent buffer.
#![tactic(auto)]

ghost use Rattle.std.specs.Prelude.{◌≡◌, ◌-◌, ◌^◌, ◌≤◌, true, map, length};
ghost use Rattle.naturals.specs.Test.{all};
ghost use Rattle.naturals.specs.FirstFailing.{Passes};
ghost use Rattle.integers.specs.Half.{is_rate};
ghost use Rattle.states.specs.After.{after, left};
ghost use Rattle.tables.specs.Tables.{check_table, rate_at, check_rates, check_rated, times, load, adopt, quotient, is_scaled, scaled_at, check_sampled, unload};

use refusals::Refusal;
use shapes::Shape;
use states::{CheckedState, State};

// Refused with 1, 2, 19 or 3.
#[tactic(auto, unfolding(crate::specs::Tables::check_table))]
fn check_table(shape: Shape, table: &[i64]) -> Result<(), Refusal>
    ensures { result ≡ check_table shape table.now }
{
    shape.check()?.check_length(table.len())
}

// All values are rates, seen without a branch for each.
fn all_rates(table: &[i64]) -> bool
    ensures { result ≡ true → Passes (rate_at table.now) (length table.now) }
{
    integers::gathered(31, table) < 1 << 32
}

// All values are rates, else refused with 4 and the first place that holds none.
#[tactic(auto, using(crate::proofs::Checking::rates_pass))]
pub fn check_rates(table: &[i64]) -> Result<(), Refusal>
    ensures { result ≡ check_rates table.now }
{
    if all_rates(table) {
        return Ok(());
    }
    first_rate(table)
}

// The same, value by value.
fn first_rate(table: &[i64]) -> Result<(), Refusal>
    ensures { result ≡ check_rates table.now }
{
    if let Some(p) = table.iter().position(|&v| !integers::is_rate(v)) {
        return Err(Refusal::Rate(p as u64));
    }
    Ok(())
}

// A table of rates: refused with 1, 2, 19, 3 or 4.
#[tactic(auto, unfolding(crate::specs::Tables::check_rated))]
pub fn check_rated(shape: Shape, table: &[i64]) -> Result<(), Refusal>
    ensures { result ≡ check_rated shape table.now }
{
    check_table(shape, table)?;
    check_rates(table)
}

// The factor 2^d between the rates and the values of a loaded table.
#[derive(Clone, Copy)]
pub struct Factor {
    pub axes: u32,
    ghost few: { axes ≤ 8 },
}

impl Factor {
    // A rate times 2^d.
    fn times(self, rate: i64) -> i64
        requires { is_rate rate ≡ true }
        ensures { result ≡ times self.axes rate }
    {
        rate * (1 << self.axes)
    }

    // Each rate times 2^d.
    pub fn scale(self, table: &mut [i64])
        requires { Passes (rate_at table.old) (length table.old) }
        ensures { table.new ≡ map (times self.axes) table.old }
    {
        for v in table.iter_mut() {
            *v = self.times(*v);
        }
    }

    // The value is 2^d times a rate.
    fn is_scaled(self, v: i64) -> bool
        ensures { result ≡ is_scaled self.axes v }
    {
        let rate = v >> self.axes;
        integers::is_rate(rate) && self.times(rate) == v
    }

    // All values are 2^d times a rate, seen without a branch for each.
    fn seen_scaled(self, table: &[i64]) -> bool
        ensures { result ≡ true → Passes (scaled_at self.axes table.now) (length table.now) }
    {
        let axes = self.axes;
        let bits = integers::gathered(31 + axes, table);
        bits < 1 << (32 + axes) && bits % (1 << axes) == 0
    }

    // All values are 2^d times a rate. Where that is not seen for all together, they are looked at one by one.
    fn all_scaled(self, table: &[i64]) -> bool
        ensures { result ≡ all (scaled_at self.axes table.now) (length table.now) }
    {
        self.seen_scaled(table) || table.iter().all(|&v| self.is_scaled(v))
    }

    // Each value divided by 2^d.
    fn divide(self, table: &mut [i64])
        ensures { table.new ≡ map (quotient self.axes) table.old }
    {
        for v in table.iter_mut() {
            *v >>= self.axes;
        }
    }
}

// Load: the table holds rates; each becomes itself times 2^d, and no axis is forward.
#[tactic(auto, unfolding(crate::specs::Tables::load))]
pub fn load(shape: Shape, table: &mut [i64]) -> Result<State, Refusal>
    ensures { after result table.new ≡ load shape table.old }
{
    check_rated(shape, table)?;
    let factor = Factor { axes: shape.axes };
    factor.scale(table);
    Ok(State { shape, forward: 0 })
}

// The byte with a bit for each axis.
fn all_forward(axes: u32) -> u8
    requires { axes ≤ 8 }
    ensures { result ≡ 2 ^ axes - 1 }
{
    let bits: u32 = (1 << axes) - 1;
    bits as u8
}

// Adopt: the table holds coefficients; all axes are forward.
#[tactic(auto, unfolding(crate::specs::Tables::adopt))]
pub fn adopt(shape: Shape, table: &[i64]) -> Result<State, Refusal>
    ensures { result ≡ adopt shape table.now }
{
    check_table(shape, table)?;
    if !integers::all_in_limit(table) {
        return Err(Refusal::Contents);
    }
    Ok(State {
        shape,
        forward: all_forward(shape.axes),
    })
}

// No axis is forward, else refused with 18 and the first that is. (Its twin in `estimates` differs in bit and refusal: one for both would be handed the two.)
fn check_sampled(checked: CheckedState) -> Result<(), Refusal>
    ensures { result ≡ check_sampled checked.state }
{
    if let Some(first) = checked.first_axis(true) {
        return Err(Refusal::StillForward(first + 1));
    }
    Ok(())
}

// Unload: a table with no axis forward becomes rates.
#[tactic(auto, unfolding(crate::specs::Tables::unload))]
pub fn unload(state: State, table: &mut [i64]) -> Result<(), Refusal>
    ensures { left result table.new ≡ unload state table.old }
{
    let checked = state.check(table.len())?;
    check_sampled(checked)?;
    let factor = Factor {
        axes: state.shape.axes,
    };
    if !factor.all_scaled(table) {
        return Err(Refusal::Contents);
    }
    factor.divide(table);
    Ok(())
}
