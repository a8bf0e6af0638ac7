// Carries out the calls that standard input lists and prints each with its answer. tests/sample_calls.py makes both the list and what has to be printed.
//
// Letters are read one by one. A small letter says where the numbers after it go: s axes, top level, whether there are values on the border, set of forward axes
// and the lengths of the three lists and of the table; m, l and i the lists (marks, levels and indices, coordinates, directions and axes of turns; i also office,
// tag, axes and top level of an opening); a the bytes of the account; t the table. A comma ends a number, a minus one below zero. A capital is a call, with the
// number before it if it takes one. A point prints the place of the table where the next number would go. All letters are printed as they are read, and after a
// call its answer: a number, the state as set, axes, top level and border, the account as its bytes, the points open by office and in all with the common ones in
// use and free, a shape after `f` for found, `d` for done, an order as < = >, a point after `f`, `e` for the end or for no shape or `b` for the border; or why it
// is refused.
#![tactic(auto)]

mod calls;
mod text;

use calls::Desk;
use std::io;

fn read_all(out: &impl Print, letters: &[u8]) -> io::Result<()> {
    let mut desk = Desk::new();
    for letter in letters {
        text::word(out, &[*letter])?;
        desk.read(out, *letter)?;
    }
    Ok(())
}

fn main(rt: HostRuntime) -> io::Result<()> {
    let mut letters = [0u8; 262144];
    let came = streams::read_input(&mut rt.stdin(), &mut letters);
    // Where a read fails, the letters that had come are read.
    let count = came.unwrap_or_else(|failed| failed.length);
    read_all(&rt, &letters[..count])
}
