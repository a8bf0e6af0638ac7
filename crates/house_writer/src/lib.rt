// The writer of house files: a shape and its rates into a lent output buffer, and a file read and written again.
#![tactic(auto)]

ghost use Rattle.std.specs.Prelude.{◌++◌, ◌≡◌, ◌+◌, ◌^◌, ◌≤◌, ◌<◌, leb, length, Ok};
ghost use Rattle.shapes.specs.Shapes.{check_shape};
ghost use Rattle.buffers.specs.Put.{Put};
ghost use Rattle.house_file.specs.Files.{read_table};
ghost use Rattle.house_file.specs.Written.{written, written_rates, written_file};
ghost use Rattle.house_writer.specs.Writing.{after_writing, put_file, write_file};
ghost use Rattle.house_writer.specs.Rewriting.{written_again, rewrite_file};

mod filed_rates;

use filed_rates::{FiledRates, TableRates};
use refusals::Refusal;
use shapes::Shape;
use written_numbers::{put_number, size_of};

// How many bytes rates take. (Its loop is that of `put_rates`: over a trait that is no `Iterator`, and there the place goes on too.)
fn rates_size<R: FiledRates>(rates: R) -> usize
    requires { length (written_rates (R.rates rates)) < 2 ^ 64 }
    ensures { result ≡ length (written_rates (R.rates rates)) }
{
    let mut total: usize = 0;
    let mut left = rates;
    while let Some((number, more)) = left.split_first() {
        total += size_of(number);
        left = more;
    }
    total
}

// A buffer of so many bytes has room for d, n and the rates. Most often nothing has to be summed.
fn has_room<R: FiledRates>(rates: R, room: usize) -> bool
    ensures { result ≡ leb (2 + length (written_rates (R.rates rates))) room }
{
    if rates.enough() <= room {
        return true;
    }
    2 + rates_size(rates) <= room
}

// Rates at the front of a buffer; how many bytes they took is answered.
fn put_rates<R: FiledRates>(rates: R, out: &mut [u8]) -> usize
    requires { length (written_rates (R.rates rates)) ≤ length out.old }
    ensures { Put (written_rates (R.rates rates)) out.old 0 out.new result }
{
    let mut at: usize = 0;
    let mut left = rates;
    while let Some((number, more)) = left.split_first() {
        at = put_number(number, out, at);
        left = more;
    }
    at
}

// d and n, at the front of a buffer; how many bytes they took is answered.
fn put_head(shape: Shape, out: &mut [u8]) -> usize
    requires { (check_shape shape ≡ Ok tt) × (2 ≤ length out.old) }
    ensures { Put (written shape.axes ++ written shape.level) out.old 0 out.new result }
{
    let level = put_number(shape.axes, out, 0);
    put_number(shape.level, out, level)
}

// Once the shape and the rates are checked: first the room, then the file into the first bytes of the buffer.
fn put_file<R: FiledRates>(shape: Shape, rates: R, out: &mut [u8]) -> Result<usize, Refusal>
    requires { check_shape shape ≡ Ok tt }
    ensures { after_writing result out.new ≡ put_file (written_file shape (R.rates rates)) out.old }
{
    if !has_room(rates, out.len()) {
        return Err(Refusal::TableLength);
    }
    let head = put_head(shape, out);
    Ok(head + put_rates(rates, &mut out[head..]))
}

// The writer, of a table with a zero border: first all checks, then the file into the first bytes of the buffer.
#[tactic(auto, using(crate::proofs::WholeFile::write_refused))]
pub fn write(axes: u32, level: u32, rates: &[i64], out: &mut [u8]) -> Result<usize, Refusal>
    ensures { after_writing result out.new ≡ write_file axes level rates.now out.old }
{
    let shape = Shape::sparse(axes, level);
    tables::check_rated(shape, rates)?;
    put_file(shape, TableRates { rates }, out)
}

// Once d and n are read: first all checks, then the form into the first bytes of the buffer.
fn rewrite_table(rest: &[u8], shape: Shape, places: usize, out: &mut [u8]) -> Result<usize, Refusal>
    ensures { after_writing result out.new ≡ written_again out.old (read_table places shape rest.now) }
{
    let rates = house_file::check_rest(rest, shape, places)?;
    put_file(shape, rates, out)
}

// A file read and written again, in its one form. It is refused as the reader refuses it for a table of that many places.
#[tactic(auto, unfolding(crate::specs::Rewriting::rewrite_file, house_file::specs::Files::read_contents))]
pub fn rewrite(bytes: &[u8], places: usize, out: &mut [u8]) -> Result<usize, Refusal>
    ensures { after_writing result out.new ≡ rewrite_file places bytes.now out.old }
{
    let (shape, rest) = house_file::read_head(bytes)?;
    rewrite_table(rest, shape, places, out)
}
