// The numbers of a house file as they are written: the filed form of a rate, the bytes that a number takes, and a number put into a buffer.
#![tactic(auto)]

ghost use Rattle.std.specs.Prelude.{true, ◌≡◌, ◌+◌, ◌≤◌, length};
ghost use Rattle.integers.specs.Half.{is_rate};
ghost use Rattle.buffers.specs.Put.{Put};
ghost use Rattle.house_numbers.specs.Numbers.{filed};
ghost use Rattle.house_file.specs.Written.{written};

// The filed form of a rate, formed in 64 bits.
pub fn filed_of(rate: i64) -> u32
    requires { is_rate rate ≡ true }
    ensures { result ≡ filed rate }
{
    if rate < 0 {
        return (-2 * rate - 1) as u32;
    }
    (2 * rate) as u32
}

// How many bytes a number takes: one, and one more for each seven bits that it does not fit in.
pub fn size_of(number: u32) -> usize
    ensures { result ≡ length (written number) }
{
    1 + usize::from(128 <= number)
        + usize::from(16384 <= number)
        + usize::from(2097152 <= number)
        + usize::from(268435456 <= number)
}

// A number in its fewest groups, from a place on; the place after it is answered.
// (With the part behind the place as its own slice, writing takes 51, 17 and 35 instructions for a rate of the three kinds that docs/BENCHMARKS.md
// counts, instead of 48, 16 and 32; plain code that takes many bytes at once takes 42, 13 and 42.)
pub fn put_number(number: u32, out: &mut [u8], place: usize) -> usize
    requires { place + length (written number) ≤ length out.old }
    ensures { Put (written number) out.old place out.new result }
{
    let mut left = number;
    let mut at = place;
    while 128 <= left {
        out[at] = (128 + (left & 127)) as u8;
        left >>= 7;
        at += 1;
    }
    out[at] = left as u8;
    at + 1
}
