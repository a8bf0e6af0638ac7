// Component grids: full grids refined differently on each axis, known by their top levels.
ghost use Rattle.std.specs.Prelude.{◌≡◌};
ghost use Rattle.components.specs.Components.{component_coefficients};
ghost use Rattle.answers.specs.Returned.{returned};
ghost use Rattle.answers.specs.Answers.{of_left};

// Rates to coefficients on the grid of a list of top levels.
#[unsafe(no_mangle)]
pub extern "C" fn numolefays_component_coefficients(
    levels: &[u32],
    table: &mut [i64],
    place: &mut u64,
) -> u32
    ensures { returned result place.new table.new ≡ of_left (component_coefficients levels.now table.old) }
{
    let verdict = components::component_coefficients(levels, table);
    answers::tell(verdict, place)
}
