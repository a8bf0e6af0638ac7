// Runs of turns: a list of calls carried out one after the other, with each answer reported.
#![tactic(auto)]

ghost use Rattle.std.specs.Prelude.{◌≡◌};
ghost use Rattle.states.specs.After.{after};
ghost use Rattle.runs.specs.Runs.{carried_out};
ghost use Rattle.runs.specs.Calls.{turn_of, report, run_calls};

use hierarchy::Turn;
use refusals::Refusal;
use states::State;

// A turn as a list of calls names it: direction 0 is forward, every other number is back. (C's numbers; a conversion of the type itself would carry them into its crate.)
fn turn_of(direction: u8, axis: u32) -> Turn
    ensures { result ≡ turn_of direction axis }
{
    if direction == 0 {
        Turn::Forward(axis)
    } else {
        Turn::Back(axis)
    }
}

// One call.
fn carry_out(state: State, table: &mut [i64], turn: Turn) -> Result<State, Refusal>
    ensures { after result table.new ≡ carried_out turn state table.old }
{
    match turn {
        Turn::Forward(axis) => turns::hierarchize(state, table, axis),
        Turn::Back(axis) => turns::dehierarchize(state, table, axis),
    }
}

// Carries out the turns of a list, one direction (0 forward, else back) and one axis for each, and reports the number and place of each refusal, 0 and 0 where
// there is none. A refused turn leaves the state, and the next is carried out. The rest of a list can be handed in later, with the state that this call answers.
// The run itself is refused with 1, 2, 14, 19, 3 or 7, and then carries out no turn.
#[tactic(auto, using(crate::proofs::Appending::run_unchecked))]
pub fn run(
    state: State,
    table: &mut [i64],
    directions: &[u8], // these four as C hands them in; number and place 0 stand for no refusal
    axes: &[u32],
    numbers: &mut [u32],
    places: &mut [u64],
) -> Result<State, Refusal>
    ensures { report result table.new numbers.new places.new ≡ run_calls state table.old directions.now axes.now numbers.old places.old }
{
    state.check(table.len())?;
    let count = directions.len();
    if axes.len() != count || numbers.len() != count || places.len() != count {
        return Err(Refusal::ListLength);
    }
    let mut reached = state;
    // An index: a zip of the four lists would nest three pairs.
    for i in 0..count {
        match carry_out(reached, table, turn_of(directions[i], axes[i])) {
            Ok(next) => {
                numbers[i] = 0;
                places[i] = 0;
                reached = next;
            }
            Err(r) => {
                numbers[i] = r.number();
                places[i] = r.place();
            }
        }
    }
    Ok(reached)
}
