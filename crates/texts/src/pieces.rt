// Pieces of text: each is put at the start of a buffer, and how many characters were put is answered.
// Not by `write!`: its contract promises `Ok` at no writer and the text at `Ok` alone, and of a `&mut [u8]` or a `Cursor` over one no text; tried at both, at a `fmt::InlineText`, and at a writer of our own that never fails.
ghost use Rattle.std.specs.Prelude.{◌+◌, ◌≤◌, length};
ghost use Rattle.texts.specs.Text.{named};
ghost use Rattle.buffers.specs.Put.{Put};

use itoa::{Buffer, Integer};

// Characters as they are given.
pub fn put(text: &[u8], out: &mut [u8]) -> usize
    requires { length text.now ≤ length out.old }
    ensures { Put text.now out.old 0 out.new result }
{
    out[..text.len()].copy_from_slice(text);
    text.len()
}

// A number in decimal digits, after a minus sign where it is below zero.
pub fn put_number<I: Integer>(n: I, out: &mut [u8]) -> usize
    requires { I.MAX_STR_LEN ≤ length out.old }
    ensures put { Put (I.text n) out.old 0 out.new result }
    ensures most { result ≤ I.MAX_STR_LEN }
{
    let mut buffer = Buffer::new();
    put(buffer.format(n).as_bytes(), out)
}

// A word, and a number.
pub fn put_named(word: &[u8], n: u64, out: &mut [u8]) -> usize
    requires { length word.now + 20 ≤ length out.old }
    ensures put { Put (named word.now n) out.old 0 out.new result }
    ensures most { result ≤ length word.now + 20 }
{
    let end = put(word, out);
    end + put_number(n, &mut out[end..])
}
