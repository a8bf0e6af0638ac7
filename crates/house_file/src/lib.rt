// The reader of house files: a shape and its rates from bytes, into a lent buffer; and the shape alone.
#![tactic(auto)]

ghost use Rattle.std.specs.Prelude.{◌≡◌, length, IfOk};
ghost use Rattle.refusals.specs.Checks.{verdict};
ghost use Rattle.house_numbers.specs.Steps.{read_in};
ghost use Rattle.house_file.specs.Files.{read_head, shape_of_file, read_table, after_reading, filled_with, read_file};
ghost use Rattle.house_file.specs.Steps.{check_places, table_in, of_checked};

use house_numbers::read_number;
use house_rates::CheckedRates;
use refusals::Refusal;
use shapes::{CheckedShape, Shape};

// So many bytes of a file decide what is read into so many places, one more than an accepted file can have: 10 and for each place 5. (A macro, since a constant's value
// calls no function.)
#[macro_export]
macro_rules! deciding_bytes {
    ($places:expr) => {
        10 + 5 * $places + 1
    };
}

// d and n, with the bytes after them.
pub fn read_head(bytes: &[u8]) -> Result<(Shape, &[u8]), Refusal>
    ensures { read_in result ≡ read_head bytes.now }
{
    let (axes, more) = read_number(bytes)?;
    let (level, rest) = read_number(more)?;
    Ok((Shape::sparse(axes, level), rest))
}

// Refused with 1, 2, 19 or 3: the shape, and fewer than N places.
#[tactic(auto, unfolding(crate::specs::Steps::check_places))]
fn check_places(shape: Shape, places: usize) -> Result<CheckedShape, Refusal>
    ensures verdict { verdict result ≡ check_places shape places }
    ensures shape { IfOk result (λ checked. checked.shape ≡ shape) }
{
    let checked = shape.check()?;
    if (places as u64) < checked.points() {
        return Err(Refusal::TableLength);
    }
    Ok(checked)
}

// The checks of all that follows d and n: the shape, fewer than N places, then the rates.
pub fn check_rest(rest: &[u8], shape: Shape, places: usize) -> Result<CheckedRates<'_>, Refusal>
    ensures { table_in shape result ≡ read_table places shape rest.now }
{
    let checked = check_places(shape, places)?;
    CheckedRates::check(rest, checked.points() as usize)
}

// Once d and n are read: first all checks, then the rates into the buffer.
fn read_table(rest: &[u8], shape: Shape, table: &mut [i64]) -> Result<Shape, Refusal>
    ensures { after_reading result table.new ≡ filled_with table.old (read_table (length table.old) shape rest.now) }
{
    let rates = check_rest(rest, shape, table.len())?;
    rates.fill(table);
    Ok(shape)
}

// The reader: a file's rates into the first places of the buffer, and its shape as the answer. A refused file leaves the buffer as it was.
#[tactic(auto, unfolding(crate::specs::Files::read_file, crate::specs::Files::read_contents))]
pub fn read(bytes: &[u8], table: &mut [i64]) -> Result<Shape, Refusal>
    ensures { after_reading result table.new ≡ read_file bytes.now table.old }
{
    let (shape, rest) = read_head(bytes)?;
    read_table(rest, shape, table)
}

// The shape that a file names, from its first two numbers alone.
#[tactic(auto, unfolding(crate::specs::Files::shape_of_file, crate::specs::Files::head_checked))]
pub fn shape_of(bytes: &[u8]) -> Result<CheckedShape, Refusal>
    ensures { of_checked result ≡ shape_of_file bytes.now }
{
    let (shape, _) = read_head(bytes)?;
    shape.check() // the shape alone
}
