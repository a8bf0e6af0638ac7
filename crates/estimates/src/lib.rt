// Estimates between the samples, from a table that is forward on every axis, and how far they can be off.
#![tactic(auto)]

ghost use Rattle.std.specs.Prelude.{◌≡◌, ◌≤◌};
ghost use Rattle.surfaces.specs.Weights.{unit};
ghost use Rattle.estimates.specs.Estimates.{check_forward, check_coordinates, check_estimate, estimate};
ghost use Rattle.estimates.specs.Margin.{estimate_with_margin};

use refusals::Refusal;
use states::{CheckedState, State};

// Every axis is forward, else refused with 17 and the first that is not. (As short as a call of one function for this and `tables::check_sampled`.)
fn check_forward(checked: CheckedState) -> Result<(), Refusal>
    ensures { result ≡ check_forward checked.state }
{
    if let Some(first) = checked.first_axis(false) {
        return Err(Refusal::StillSampled(first + 1));
    }
    Ok(())
}

// A coordinate for each axis, else refused with 7; none too large, else with 8 and the first axis where it is.
fn check_coordinates(axes: u32, coordinates: &[u32]) -> Result<(), Refusal>
    ensures { result ≡ check_coordinates unit axes coordinates.now }
{
    if coordinates.len() != axes as usize {
        return Err(Refusal::ListLength);
    }
    if let Some(t) = coordinates
        .iter()
        .position(|&x| !axis_weights::is_coordinate(x))
    {
        return Err(Refusal::Coordinate(t as u32 + 1));
    }
    Ok(())
}

// The checks of an estimate, in their order.
#[tactic(auto, unfolding(crate::specs::Estimates::check_estimate))]
fn check(state: State, table: &[i64], coordinates: &[u32]) -> Result<(), Refusal>
    ensures { result ≡ check_estimate unit state table.now coordinates.now }
{
    let checked = state.check(table.len())?;
    check_forward(checked)?;
    check_coordinates(state.shape.axes, coordinates)?;
    if !integers::all_in_limit(table) {
        return Err(Refusal::Contents);
    }
    Ok(())
}

// The estimate at these coordinates. The table is only read.
#[tactic(auto, unfolding(crate::specs::Estimates::estimate_in_unit))]
pub fn estimate(state: State, table: &[i64], coordinates: &[u32]) -> Result<i64, Refusal>
    ensures { result ≡ estimate state table.now coordinates.now }
{
    check(state, table, coordinates)?;
    Ok(evaluation::evaluate(state.shape, table, coordinates))
}

// An estimate, S, and how far at most the exact value is from the estimate.
#[derive(Clone, Copy)]
pub struct Estimated {
    pub estimate: i64,
    pub absolute_sum: u64,
    pub margin: u64,
}

// The same estimate with its margin.
#[tactic(auto, unfolding(crate::specs::Margin::estimate_with_margin))]
pub fn estimate_with_margin(
    state: State,
    table: &[i64],
    coordinates: &[u32],
) -> Result<Estimated, Refusal>
    ensures { result ≡ estimate_with_margin state table.now coordinates.now }
{
    check(state, table, coordinates)?;
    let found = evaluation::evaluate_with_sum(state.shape, table, coordinates);
    Ok(Estimated {
        estimate: found.estimate,
        absolute_sum: found.absolute_sum,
        margin: margins::margin(state.shape.axes, found.absolute_sum),
    })
}
