// Forward and back on one axis of a table, in the one lent buffer.
#![tactic(auto)]

ghost use Rattle.std.specs.Prelude.{true, not, ◌≡◌, ◌^◌, ◌≤◌, length, if◌then◌else◌};
ghost use Rattle.naturals.specs.Test.{all};
ghost use Rattle.integers.specs.Half.{content_at};
ghost use Rattle.shapes.specs.Shapes.{points_of};
ghost use Rattle.states.specs.After.{after};
ghost use Rattle.lists.specs.Lists.{whole_turn, odd_sums};
ghost use Rattle.lists.specs.Steps.{TableOf};
ghost use Rattle.turns.specs.Turns.{check_turn, forward_turn, back_turn};
ghost use Rattle.turns.specs.Steps.{tried, tried_on, marked_as, turn_on};

use integers::{Back, Direction, Forward};
use neighbours::Line;
use refusals::Refusal;
use states::State;

// What the direction of a turn decides.
pub trait Turning: Direction {
    // The turn of a table, whether or not it is accepted; answers how many sums were odd of the table that is not forward on the axis.
    fn sweep(line: Line, table: &mut [i64]) -> u64
        requires { TableOf line.shape (2 ^ 53) table.old }
        ensures turned { table.new ≡ whole_turn Self.ahead line.shape line.place table.old }
        ensures odds { result ≡ odd_sums line.shape line.place (if Self.ahead then table.old else table.new) (points_of line.shape) };

    // The turn that undoes it. (The other direction's `sweep`: a trait that names the other type would need a law that its `ahead` is the opposite, and a second
    // trait for that type to be of.)
    fn undo(line: Line, table: &mut [i64])
        requires { TableOf line.shape (2 ^ 53) table.old }
        ensures { table.new ≡ whole_turn (not Self.ahead) line.shape line.place table.old };

    // The state that it leaves; refused where the axis is turned already. (One function for both would be handed the bit and the refusal,
    // all that it does besides one call.)
    fn mark(state: State, axis: u32) -> Result<State, Refusal>
        requires { (1 ≤ axis) × (axis ≤ 8) }
        ensures { result ≡ marked_as Self.ahead state axis };
}

#[tactic(auto, unfolding(lists::specs::Lists::whole_turn, crate::specs::Steps::marked_as))]
impl Turning for Forward {
    fn sweep(line: Line, table: &mut [i64]) -> u64 {
        sweeps::lower(line, table) // forward
    }

    fn undo(line: Line, table: &mut [i64]) {
        sweeps::raise(line, table); // forward undone
    }

    fn mark(state: State, axis: u32) -> Result<State, Refusal> {
        if state.has_axis(axis - 1) {
            return Err(Refusal::AlreadyForward(axis));
        }
        Ok(state.toggled(axis - 1))
    }
}

#[tactic(auto, unfolding(lists::specs::Lists::whole_turn, crate::specs::Steps::marked_as))]
impl Turning for Back {
    fn sweep(line: Line, table: &mut [i64]) -> u64 {
        sweeps::raise(line, table) // back
    }

    fn undo(line: Line, table: &mut [i64]) {
        sweeps::lower(line, table); // back undone
    }

    fn mark(state: State, axis: u32) -> Result<State, Refusal> {
        if !state.has_axis(axis - 1) {
            return Err(Refusal::NotForward(axis));
        }
        Ok(state.toggled(axis - 1))
    }
}

// Refused with 1, 2, 14, 19, 3 or 5.
#[tactic(auto, unfolding(crate::specs::Turns::check_turn))]
fn check_turn(state: State, places: usize, axis: u32) -> Result<(), Refusal>
    ensures { result ≡ check_turn state places axis }
{
    state.check(places)?;
    state.shape.check_axis(axis)
}

// A turn on a line's axis where it is accepted (back: where the forward turn that leads here is); else the table is as it was. All values are within the
// content limit before.
pub fn try_on<D: Turning>(line: Line, table: &mut [i64]) -> bool
    requires { (length table.old ≡ points_of line.shape) × (all (content_at table.old) (length table.old) ≡ true) }
    ensures { tried result table.new ≡ tried_on D.ahead line.shape line.place table.old }
{
    if D::sweep(line, table) == 0 {
        if integers::all_in_limit(table) {
            return true;
        }
    }
    D::undo(line, table);
    false
}

// A turn on an axis. Where it is not accepted, the table is turned back. No sum is formed of values that were not tested.
fn turn<D: Turning>(state: State, table: &mut [i64], axis: u32) -> Result<State, Refusal>
    ensures { after result table.new ≡ turn_on D.ahead state table.old axis }
{
    check_turn(state, table.len(), axis)?;
    let marked = D::mark(state, axis)?;
    if !integers::all_in_limit(table) {
        return Err(Refusal::Contents);
    }
    let place = axis - 1;
    let line = Line {
        shape: state.shape,
        place,
    };
    if !try_on::<D>(line, table) {
        return Err(Refusal::Contents);
    }
    Ok(marked)
}

// Forward on an axis (hierarchization): each value becomes itself minus half the sum of its two parents' values as they were.
pub fn hierarchize(state: State, table: &mut [i64], axis: u32) -> Result<State, Refusal>
    ensures { after result table.new ≡ forward_turn state table.old axis }
{
    turn::<Forward>(state, table, axis)
}

// Back on an axis (dehierarchization): the table becomes the one that an accepted forward turn takes to the present one.
pub fn dehierarchize(state: State, table: &mut [i64], axis: u32) -> Result<State, Refusal>
    ensures { after result table.new ≡ back_turn state table.old axis }
{
    turn::<Back>(state, table, axis)
}
