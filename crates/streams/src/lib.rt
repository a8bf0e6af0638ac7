// What a reader gives, as standard input, read to its end or until a buffer is full.
#![tactic(auto)]

ghost use Rattle.std.specs.Prelude.{◌<◌, length, take, IfOk};
ghost use Rattle.std.specs.Io.KnownBytes.{Consumes, IsAtEnd};
ghost use Rattle.io.specs.Counts.{IsPrefixLen};
ghost use Rattle.streams.specs.Streams.{came};

use std::io::Read;

// A read failed after so many bytes had come.
#[derive(Clone, Copy, Debug, PartialEq, Eq)]
pub struct Unreadable {
    pub length: usize,
}

// Reads to the end or until the buffer is full, and answers how many bytes came: those stand at the start of the buffer, also where a read failed. Where
// every read succeeded and the buffer is not full, no byte is left.
pub fn read_input<R: Read>(from: &mut R, bytes: &mut [u8]) -> Result<usize, Unreadable>
    ensures prefix_len { IsPrefixLen (came result) bytes.new }
    ensures came { Consumes (R.remaining from.old) (R.remaining from.new) (take (came result) bytes.new) }
    ensures end { IfOk result (λ n. n < length bytes.new → IsAtEnd (R.remaining from.new)) }
{
    // A count stays beside the buffer, and no rest of it: the count is what is answered.
    let mut length = 0;
    while length < bytes.len() {
        match from.read(&mut bytes[length..]) {
            Ok(0) => break,
            Ok(more) => length += more,
            Err(_) => return Err(Unreadable { length }),
        }
    }
    Ok(length)
}
