// Reads a house file from standard input and prints its coefficients, or the number of why it is refused.
#![tactic(auto)]

use reports::{BYTES, MOST};

// What is said of a failure, and that the exit status is 0, are the program's own: an `Err` from `main` would say and give others.
fn main(rt: HostRuntime) {
    let mut bytes = [0u8; BYTES];
    let Ok(length) = streams::read_input(&mut rt.stdin(), &mut bytes) else {
        let _ = eprintln!(rt; "coefficients: standard input could not be read");
        return;
    };
    let mut out = [0u8; MOST];
    let count = reports::text(&bytes[..length], &mut out);
    if rt.write_all(&out[..count]).is_err() {
        let _ = eprintln!(rt; "coefficients: standard output could not be written");
    }
}
