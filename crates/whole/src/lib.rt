// The whole calls: rates to coefficients, and coefficients to rates, in the one lent buffer.
#![tactic(auto)]

ghost use Rattle.std.specs.Prelude.{◌≡◌, ◌-◌};
ghost use Rattle.states.specs.After.{left};
ghost use Rattle.whole.specs.Whole.{rates_to_coefficients, coefficients_to_rates};
ghost use Rattle.whole.specs.Steps.{InTable, ascent, gone, descent};

use integers::Back;
use neighbours::Line;
use refusals::Refusal;
use shapes::Shape;
use states::State;

// Forward on axis `from` + 1 and every later one, untested: of a loaded table no turn is refused, nor is one that undoes a turn back.
fn climb(shape: Shape, from: u32, table: &mut [i64])
    requires { InTable shape table.old }
    ensures { table.new ≡ ascent (shape.axes - from) from shape table.old }
{
    for k in from..shape.axes {
        let line = Line { shape, place: k };
        sweeps::lower(line, table);
    }
}

// Rates to coefficients: each rate times 2^d, then forward on every axis. Of a loaded table no turn is refused.
pub fn rates_to_coefficients(shape: Shape, table: &mut [i64]) -> Result<(), Refusal>
    ensures { left result table.new ≡ rates_to_coefficients shape table.old }
{
    tables::load(shape, table)?;
    climb(shape, 0, table); // on every axis
    Ok(())
}

// Back on every axis, the last first, until one is refused; answers how many axes are still forward. (No twin of `climb`, which tests nothing.)
fn descend(shape: Shape, table: &mut [i64]) -> u32
    requires { InTable shape table.old }
    ensures { gone result table.new ≡ descent shape.axes shape table.old }
{
    for k in (0..shape.axes).rev() {
        let line = Line { shape, place: k };
        if !turns::try_on::<Back>(line, table) {
            return k + 1;
        }
    }
    0
}

// Coefficients to rates: back on every axis, then each value divided by 2^d. Where that cannot be, the axes turned back go forward again.
#[tactic(auto, using(crate::proofs::AnswersDown::adopt_refuses))]
pub fn coefficients_to_rates(shape: Shape, table: &mut [i64]) -> Result<(), Refusal>
    ensures { left result table.new ≡ coefficients_to_rates shape table.old }
{
    tables::adopt(shape, table)?;
    let forward = descend(shape, table);
    if 0 < forward {
        climb(shape, forward, table);
        return Err(Refusal::Contents);
    }
    let back = State { shape, forward: 0 };
    match tables::unload(back, table) {
        Ok(()) => Ok(()),
        Err(_) => {
            climb(shape, 0, table); // to the table as it was
            Err(Refusal::Contents)
        }
    }
}
