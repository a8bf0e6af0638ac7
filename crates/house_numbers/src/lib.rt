// The numbers of a house file: read from the front of some bytes with their checks, read once they were checked, and the rate of one.
#![tactic(auto)]

ghost use Rattle.std.specs.Prelude.{◌≡◌, true, false, ◌*◌, ◌^◌, ◌≤◌, ◌<◌};
ghost use Rattle.house_numbers.specs.Reading.{got};
ghost use Rattle.house_numbers.specs.Numbers.{read_number, rate_of};
ghost use Rattle.house_numbers.specs.Steps.{Reads, read_in};

use refusals::Refusal;

// A group of seven bits, shifted to its place in a number.
fn placed(group: u64, shift: u32) -> u64
    requires { (group < 128) × (shift ≤ 28) }
    ensures { result ≡ group * 2 ^ shift }
{
    group << shift
}

// A test that refuses a number. Bytes that were checked are known to pass it, so for them it is not made.
fn refuses<const CHECKED: bool>(test: bool) -> bool
    requires { CHECKED ≡ true → test ≡ false }
    ensures { result ≡ test }
{
    !CHECKED && test
}

// The filed number at the front of some bytes, which were checked or not, byte by byte. Its first four groups fit whatever they are, the fifth where it is below 16.
// (By index: a group's place is also its shift.)
fn long_number<const CHECKED: bool>(bytes: &[u8]) -> Result<(u32, &[u8]), Refusal>
    requires { CHECKED ≡ true → Reads (read_number bytes.now) }
    ensures { read_in result ≡ read_number bytes.now }
{
    let mut value: u64 = 0;
    for place in 0..4 {
        if refuses::<CHECKED>(bytes.len() <= place) {
            return Err(Refusal::FileEnds);
        }
        let group = u64::from(bytes[place]);
        let shift = 7 * place as u32;
        if group < 128 {
            value += placed(group, shift);
            return Ok((value as u32, &bytes[place + 1..]));
        }
        value += placed(group - 128, shift);
    }
    if refuses::<CHECKED>(bytes.len() <= 4) {
        return Err(Refusal::FileEnds);
    }
    let fifth = u64::from(bytes[4]);
    if refuses::<CHECKED>(16 <= fifth) {
        return Err(Refusal::FiledNumber);
    }
    value += placed(fifth, 28);
    Ok((value as u32, &bytes[5..]))
}

// The filed number at the front of some bytes, which were checked or not, with the bytes after it. Most have one byte.
fn number<const CHECKED: bool>(bytes: &[u8]) -> Result<(u32, &[u8]), Refusal>
    requires { CHECKED ≡ true → Reads (read_number bytes.now) }
    ensures { read_in result ≡ read_number bytes.now }
{
    if refuses::<CHECKED>(bytes.is_empty()) {
        return Err(Refusal::FileEnds);
    }
    let first = bytes[0];
    if first < 128 {
        return Ok((u32::from(first), &bytes[1..]));
    }
    long_number::<CHECKED>(bytes)
}

// The filed number at the front of some bytes, with the bytes after it, or why it is refused.
pub fn read_number(bytes: &[u8]) -> Result<(u32, &[u8]), Refusal>
    ensures { read_in result ≡ read_number bytes.now }
{
    number::<false>(bytes)
}

// The filed number at the front of some bytes that were checked, with the bytes after it.
pub fn checked_number(bytes: &[u8]) -> (u32, &[u8])
    requires { Reads (read_number bytes.now) }
    ensures { got result.0 result.1.now ≡ read_number bytes.now }
{
    number::<true>(bytes).unwrap()
}

// The rate of a filed number.
pub fn rate_of(filed: u32) -> i64
    ensures { result ≡ rate_of filed }
{
    let filed = u64::from(filed); // in 64 bits, as the rate: one instruction less
    let half = (filed >> 1) as i64;
    if filed & 1 == 0 {
        return half;
    }
    -1 - half
}
