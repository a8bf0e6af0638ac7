// The surface between the samples.
ghost use Rattle.std.specs.Prelude.{◌≡◌};
ghost use Rattle.estimates.specs.Estimates as surface;
ghost use Rattle.estimates.specs.Margin as surface_margin;
ghost use Rattle.answers.specs.Returned.{returned};
ghost use Rattle.answers.specs.Answers.{state_of, of_value, of_estimated};

// The estimate at a list of coordinates.
#[unsafe(no_mangle)]
pub extern "C" fn numolefays_estimate(
    axes: u32,
    level: u32,
    border: u8,
    forward: u8,
    table: &[i64],
    coordinates: &[u32],
    estimate: &mut i64,
    place: &mut u64,
) -> u32
    ensures { returned result place.new estimate.new ≡ of_value estimate.old (surface.estimate (state_of axes level border forward) table.now coordinates.now) }
{
    let state = answers::state_of(axes, level, border, forward);
    let answer = estimates::estimate(state, table, coordinates);
    answers::hand(answer, estimate, place)
}

// The same estimate, S and its margin.
#[unsafe(no_mangle)]
pub extern "C" fn numolefays_estimate_with_margin(
    axes: u32,
    level: u32,
    border: u8,
    forward: u8,
    table: &[i64],
    coordinates: &[u32],
    estimate: &mut i64,
    absolute_sum: &mut u64,
    margin: &mut u64,
    place: &mut u64,
) -> u32
    ensures { returned result place.new (estimate.new, absolute_sum.new, margin.new) ≡ of_estimated (estimate.old, absolute_sum.old, margin.old) (surface_margin.estimate_with_margin (state_of axes level border forward) table.now coordinates.now) }
{
    let answer = estimates::estimate_with_margin(
        answers::state_of(axes, level, border, forward),
        table,
        coordinates,
    );
    answers::hand_estimated(answer, estimate, absolute_sum, margin, place)
}
