// The text of a table of rates: its coefficients, or why it is refused.
ghost use Rattle.std.specs.Prelude.{◌≡◌};
ghost use Rattle.shapes.specs.Shapes.{counted};
ghost use Rattle.whole.specs.Whole.{rates_to_coefficients};
ghost use Rattle.buffers.specs.Put.{Put};
ghost use Rattle.reports.specs.Steps.{RoomFor, left_text, rates_text};

use refusals::Refusal;
use shapes::Shape;
use texts::lines::{put_heading, put_points, put_refused};

// The rates become coefficients, and these are listed.
fn put_coefficients(shape: Shape, count: u64, table: &mut [i64], out: &mut [u8]) -> usize
    requires { (counted shape ≡ Ok count) × RoomFor table.old out.old }
    ensures { Put (left_text shape (rates_to_coefficients shape table.old)) out.old 0 out.new result }
{
    match whole::rates_to_coefficients(shape, table) {
        Err(why) => put_refused(why, out),
        Ok(()) => {
            let end = put_heading(shape, count, out);
            end + put_points(table, &mut out[end..])
        }
    }
}

// The rates stand in the first places of the table, as many as there are points.
fn put_counted(shape: Shape, count: u64, table: &mut [i64], out: &mut [u8]) -> usize
    requires { (counted shape ≡ Ok count) × RoomFor table.old out.old }
    ensures { Put (rates_text shape table.old) out.old 0 out.new result }
{
    let Some(rates) = table.get_mut(..count as usize) else {
        return put_refused(Refusal::TableLength, out);
    };
    put_coefficients(shape, count, rates, out)
}

// The text of the rates in the first places of the table, or of why the shape or the table is refused.
pub fn put_table(shape: Shape, table: &mut [i64], out: &mut [u8]) -> usize
    requires { RoomFor table.old out.old }
    ensures { Put (rates_text shape table.old) out.old 0 out.new result }
{
    match shape.count() {
        Err(why) => put_refused(why, out),
        Ok(count) => put_counted(shape, count, table, out),
    }
}
