// Reads a house file from standard input and prints its one form, or says on standard error why it is refused.
#![tactic(auto)]

use house_file::deciding_bytes;
use refusals::Refusal;
use reports::LINE;
use shapes::MOST_POINTS;

// As many as a table may have points.
const PLACES: usize = MOST_POINTS as usize;

// So many bytes of a file decide.
const BYTES: usize = deciding_bytes!(PLACES);

// The most bytes of a form: 2 and for each place 5.
const MOST: usize = 2 + 5 * PLACES;

// A line as `coefficients` prints it, on standard error.
fn refuse(rt: &HostRuntime, why: Refusal) {
    let mut line = [0u8; LINE];
    let count = reports::refused(why, &mut line);
    let _ = rt.stderr().write_all(&line[..count]);
}

fn print(rt: &HostRuntime, form: &[u8]) {
    if rt.write_all(form).is_err() {
        let _ = eprintln!(rt; "rewrite: standard output could not be written");
    }
}

// What is said of a failure, and that the exit status is 0, are the program's own: an `Err` from `main` would say and give others.
fn main(rt: HostRuntime) {
    let mut bytes = [0u8; BYTES];
    let Ok(length) = streams::read_input(&mut rt.stdin(), &mut bytes) else {
        let _ = eprintln!(rt; "rewrite: standard input could not be read");
        return;
    };
    let mut out = [0u8; MOST];
    match house_writer::rewrite(&bytes[..length], PLACES, &mut out) {
        Err(why) => refuse(&rt, why),
        Ok(size) => print(&rt, &out[..size]),
    }
}
