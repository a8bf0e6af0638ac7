// Tables: load, adopt, unload, and the two whole calls.
ghost use Rattle.std.specs.Prelude.{◌≡◌};
ghost use Rattle.tables.specs.Tables.{load, adopt, unload};
ghost use Rattle.whole.specs.Whole.{rates_to_coefficients, coefficients_to_rates};
ghost use Rattle.answers.specs.Returned.{returned};
ghost use Rattle.answers.specs.Answers.{shape_of, state_of, of_answer, of_after, of_left};

// Rates to a loaded table, no axis forward.
#[unsafe(no_mangle)]
pub extern "C" fn numolefays_load(
    axes: u32,
    level: u32,
    border: u8,
    table: &mut [i64],
    forward: &mut u8,
    place: &mut u64,
) -> u32
    ensures { returned result place.new (forward.new, table.new) ≡ of_after forward.old (load (shape_of axes level border) table.old) }
{
    let answer = tables::load(answers::shape_of(axes, level, border), table);
    answers::hand_state(answer, forward, place)
}

// Coefficients, all axes forward.
#[unsafe(no_mangle)]
pub extern "C" fn numolefays_adopt(
    axes: u32,
    level: u32,
    border: u8,
    table: &[i64],
    forward: &mut u8,
    place: &mut u64,
) -> u32
    ensures { returned result place.new forward.new ≡ of_answer forward.old (adopt (shape_of axes level border) table.now) }
{
    let answer = tables::adopt(answers::shape_of(axes, level, border), table);
    answers::hand_state(answer, forward, place)
}

// A table with no axis forward to rates.
#[unsafe(no_mangle)]
pub extern "C" fn numolefays_unload(
    axes: u32,
    level: u32,
    border: u8,
    forward: u8,
    table: &mut [i64],
    place: &mut u64,
) -> u32
    ensures { returned result place.new table.new ≡ of_left (unload (state_of axes level border forward) table.old) }
{
    let verdict = tables::unload(answers::state_of(axes, level, border, forward), table);
    answers::tell(verdict, place)
}

// Rates to coefficients.
#[unsafe(no_mangle)]
pub extern "C" fn numolefays_rates_to_coefficients(
    axes: u32,
    level: u32,
    border: u8,
    table: &mut [i64],
    place: &mut u64,
) -> u32
    ensures { returned result place.new table.new ≡ of_left (rates_to_coefficients (shape_of axes level border) table.old) }
{
    let verdict = whole::rates_to_coefficients(answers::shape_of(axes, level, border), table);
    answers::tell(verdict, place)
}

// Coefficients to rates. (C has a name for each way.)
#[unsafe(no_mangle)]
pub extern "C" fn numolefays_coefficients_to_rates(
    axes: u32,
    level: u32,
    border: u8,
    table: &mut [i64],
    place: &mut u64,
) -> u32
    ensures { returned result place.new table.new ≡ of_left (coefficients_to_rates (shape_of axes level border) table.old) }
{
    let verdict = whole::coefficients_to_rates(answers::shape_of(axes, level, border), table);
    answers::tell(verdict, place)
}
