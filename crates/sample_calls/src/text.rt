// Text on standard output.
use refusals::Refusal;
use std::fmt::Display;
use std::io;

pub fn word(out: &impl Print, bytes: &[u8]) -> io::Result<()> {
    out.write_all(bytes)
}

// A number with a space before it.
pub fn number(out: &impl Print, n: impl Display + Drop) -> io::Result<()> {
    print!(out; " {n}")
}

pub fn letter(out: &impl Print, l: u8) -> io::Result<()> {
    word(out, &[b' ', l])
}

pub fn list(out: &impl Print, l: [u32; 8]) -> io::Result<()> {
    for n in l {
        number(out, n)?;
    }
    Ok(())
}

pub fn refused(out: &impl Print, why: Refusal) -> io::Result<()> {
    let number = why.number();
    let place = why.place();
    print!(out; " refused {number} {place}")
}
