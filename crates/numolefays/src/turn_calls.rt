// Turns: forward, back, and a list of them. A state goes in as shape and set of forward axes, bit t − 1 for axis t; the set comes out.
ghost use Rattle.std.specs.Prelude.{◌≡◌};
ghost use Rattle.turns.specs.Turns.{forward_turn, back_turn};
ghost use Rattle.runs.specs.Calls.{run_calls};
ghost use Rattle.answers.specs.Returned.{returned};
ghost use Rattle.answers.specs.Answers.{state_of, of_after, of_report};

// Forward on an axis.
#[unsafe(no_mangle)]
pub extern "C" fn numolefays_forward(
    axes: u32,
    level: u32,
    border: u8,
    forward: &mut u8,
    table: &mut [i64],
    axis: u32,
    place: &mut u64,
) -> u32
    ensures { returned result place.new (forward.new, table.new) ≡ of_after forward.old (forward_turn (state_of axes level border forward.old) table.old axis) }
{
    let state = answers::state_of(axes, level, border, *forward);
    let answer = turns::hierarchize(state, table, axis);
    answers::hand_state(answer, forward, place)
}

// Back on an axis. (C has a name for each direction.)
#[unsafe(no_mangle)]
pub extern "C" fn numolefays_back(
    axes: u32,
    level: u32,
    border: u8,
    forward: &mut u8,
    table: &mut [i64],
    axis: u32,
    place: &mut u64,
) -> u32
    ensures { returned result place.new (forward.new, table.new) ≡ of_after forward.old (back_turn (state_of axes level border forward.old) table.old axis) }
{
    let state = answers::state_of(axes, level, border, *forward);
    let answer = turns::dehierarchize(state, table, axis);
    answers::hand_state(answer, forward, place)
}

// A list of turns: a direction (0 forward, else back) and an axis for each; the number and the place of each answer go to the last two lists.
#[unsafe(no_mangle)]
pub extern "C" fn numolefays_run(
    axes: u32,
    level: u32,
    border: u8,
    forward: &mut u8,
    table: &mut [i64],
    directions: &[u8],
    turned: &[u32],
    numbers: &mut [u32],
    places: &mut [u64],
    place: &mut u64,
) -> u32
    ensures { returned result place.new (forward.new, table.new, numbers.new, places.new) ≡ of_report forward.old (run_calls (state_of axes level border forward.old) table.old directions.now turned.now numbers.old places.old) }
{
    let state = answers::state_of(axes, level, border, *forward);
    let answer = runs::run(state, table, directions, turned, numbers, places);
    answers::hand_state(answer, forward, place)
}
