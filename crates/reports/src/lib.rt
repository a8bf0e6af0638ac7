// The report of a house file: the text of its coefficients, or of why it is refused.
#![tactic(auto)]

mod contents;

ghost use Rattle.std.specs.Prelude.{◌≡◌, take};
ghost use Rattle.io.specs.Counts.{IsPrefixLen};
ghost use Rattle.texts.specs.Text.{refused_line};
ghost use Rattle.reports.specs.Report.{report as Report·report};
ghost use Rattle.buffers.specs.Put.{Put};

use contents::put_table;
use house_file::deciding_bytes;
use refusals::Refusal;
use texts::lines::put_refused;

// The places of a table that a file is read into.
const PLACES: usize = 8192;

// The most characters of a report: a first line of 81, and for each place a line of 43.
pub const MOST: usize = LINE + 43 * PLACES;

// So many bytes of a file decide its report.
pub const BYTES: usize = deciding_bytes!(PLACES);

// The most characters of a first line, and of the line of a refused file.
pub const LINE: usize = 81;

// Puts the line of a refused file at the start of `out`, and answers how many characters it has.
pub fn refused(why: Refusal, out: &mut [u8; LINE]) -> usize
    ensures put { Put (refused_line why) out.old 0 out.new result }
    ensures out_after { take result out.new ≡ refused_line why }
    ensures prefix_len { IsPrefixLen result out.new }
{
    put_refused(why, out)
}

// Puts the report of a file of these bytes at the start of `out`, and answers how many characters it has.
pub fn text(bytes: &[u8], out: &mut [u8; MOST]) -> usize
    ensures put { Put (Report·report bytes.now) out.old 0 out.new result }
    ensures out_after { take result out.new ≡ Report·report bytes.now }
    ensures prefix_len { IsPrefixLen result out.new }
{
    let mut table = [0i64; PLACES];
    match house_file::read(bytes, &mut table) {
        Err(why) => put_refused(why, out),
        Ok(shape) => put_table(shape, &mut table, out),
    }
}
