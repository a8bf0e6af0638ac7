// The report of each sample file, in the order of their names, as the program `coefficients` prints it.
#![tactic(auto)]

use reports::{BYTES, MOST};
use std::fs::File;
use std::io;

// Writes the report of a file.
fn report(rt: &HostRuntime, mut file: File) -> io::Result<()> {
    let mut bytes = [0u8; BYTES];
    let mut out = [0u8; MOST];
    let came = streams::read_input(&mut file, &mut bytes);
    // Where a read fails, the report is that of the bytes that had come.
    let length = came.unwrap_or_else(|failed| failed.length);
    let count = reports::text(&bytes[..length], &mut out);
    rt.write_all(&out[..count])
}

// False where there is no such file. The name of a sample file is its number in three digits.
fn show(rt: &HostRuntime, n: u8) -> io::Result<bool> {
    let name = format!(in rt.alloc(); "{n:03}")?;
    let Ok(file) = File::open(rt, name.as_str()) else {
        return Ok(false);
    };
    println!(rt; "file {name}")?;
    report(rt, file)?;
    Ok(true)
}

fn main(rt: HostRuntime) -> io::Result<()> {
    for n in 0u8..255 {
        if !show(&rt, n)? {
            break;
        }
    }
    Ok(())
}
