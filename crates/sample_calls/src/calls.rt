// A letter of the list, and the call that it may stand for.
use crate::text;
use accounts::{Account, Answered, Usage};
use estimates::Estimated;
use numbering::Side;
use points::{MarkedPoint, padded};
use refusals::Refusal;
use shapes::Shape;
use states::State;
use std::cmp::Ordering;
use std::fmt::Display;
use std::io;
use vectors::compare_levels;

// The places where numbers go: the numbers of the state from 0, the list m from 16, the list l from 32, the list i from 48, the account from 64, the table
// from 96.
const MARKS: usize = 16;

const LEVELS: usize = 32;

const INDICES: usize = 48;

const ACCOUNT: usize = 64;

const TABLE: usize = 96;

// Where in the state stand a shape, whether it has values on the border, the set of forward axes, and how many numbers of each list and how many places of the
// table a call is lent.
const AXES: usize = 0;

const LEVEL: usize = 1;

const BORDER: usize = 2;

const SET: usize = 3;

const MARKS_LENT: usize = 4;

const LEVELS_LENT: usize = 5;

const INDICES_LENT: usize = 6;

const PLACES: usize = 7;

// The numbers that stand on the desk beside the table. (The lengths of the lists stand among the numbers, as the list of calls gives them.)
#[derive(Clone, Copy)]
struct Numbers {
    s: [u32; 16],
    m: [u32; 16],
    l: [u32; 16],
    i: [u32; 16],
}

// Where the next number goes, that number so far, and all places.
#[derive(Clone, Copy)]
pub struct Desk {
    at: usize,
    number: u64,
    numbers: Numbers,
    account: Account,
    table: [i64; 2048],
}

// The low bits of a number. (Not one function over both widths: std's cast that keeps the low bits is `as`, which a type parameter has not.)
fn word(n: u64) -> u32 {
    (n & 0xffff_ffff) as u32
}

fn byte(n: u32) -> u8 {
    (n & 0xff) as u8
}

// ---- answers

// A number that is answered, or why there is none.
fn numbered<T: Display + Drop>(out: &impl Print, answer: Result<T, Refusal>) -> io::Result<()> {
    match answer {
        Ok(number) => text::number(out, number),
        Err(why) => text::refused(out, why),
    }
}

// An estimate, S and the margin; or why there are none.
fn margined(out: &impl Print, answer: Result<Estimated, Refusal>) -> io::Result<()> {
    match answer {
        Ok(found) => {
            text::number(out, found.estimate)?;
            text::number(out, found.absolute_sum)?;
            text::number(out, found.margin)
        }
        Err(why) => text::refused(out, why),
    }
}

// A point after the letter f; or zeros, after the letter that stands for no point or after why it is refused.
fn located(
    out: &impl Print,
    answer: Result<Option<MarkedPoint>, Refusal>,
    none: u8,
) -> io::Result<()> {
    let mut marks = [0; 8];
    let mut levels = [0; 8];
    let mut indices = [0; 8];
    match answer {
        Ok(Some(found)) => {
            let point = found.point;
            marks = found.marks;
            levels = point.levels;
            indices = point.indices;
            text::letter(out, b'f')?;
        }
        Ok(None) => text::letter(out, none)?,
        Err(why) => text::refused(out, why)?,
    }
    text::list(out, marks)?;
    text::list(out, levels)?;
    text::list(out, indices)
}

fn ordered(out: &impl Print, order: Ordering) -> io::Result<()> {
    match order {
        Ordering::Less => text::letter(out, b'<'),
        Ordering::Equal => text::letter(out, b'='),
        Ordering::Greater => text::letter(out, b'>'),
    }
}

fn judged(out: &impl Print, verdict: Result<(), Refusal>) -> io::Result<()> {
    match verdict {
        Ok(()) => text::letter(out, b'd'),
        Err(why) => text::refused(out, why),
    }
}

// The state that is answered; its set is handed to the next call.
fn shown(out: &impl Print, state: State) -> io::Result<u8> {
    let shape = state.shape;
    text::number(out, state.forward)?;
    text::number(out, shape.axes)?;
    text::number(out, shape.level)?;
    text::number(out, u32::from(shape.border))?;
    Ok(state.forward)
}

fn answered(out: &impl Print, answer: Result<State, Refusal>, set: u8) -> io::Result<u8> {
    match answer {
        Ok(state) => shown(out, state),
        Err(why) => {
            text::refused(out, why)?;
            Ok(set)
        }
    }
}

// The account that is answered; it is handed to the next call.
fn kept(out: &impl Print, account: Account) -> io::Result<Account> {
    for byte in account.slots {
        text::number(out, byte)?;
    }
    Ok(account)
}

fn changed(out: &impl Print, answer: Answered) -> io::Result<Account> {
    judged(out, answer.verdict)?;
    kept(out, answer.account)
}

fn used(out: &impl Print, answer: Result<Usage, Refusal>) -> io::Result<()> {
    match answer {
        Ok(usage) => {
            for points in usage.by_office {
                text::number(out, points)?;
            }
            text::number(out, usage.in_all)?;
            text::number(out, usage.common)?;
            text::number(out, usage.free)
        }
        Err(why) => text::refused(out, why),
    }
}

// The shape that is open under a tag; or `e`, where the slot is empty.
fn under(out: &impl Print, answer: Result<Option<Shape>, Refusal>) -> io::Result<()> {
    match answer {
        Ok(Some(shape)) => {
            text::letter(out, b'f')?;
            text::number(out, shape.axes)?;
            text::number(out, shape.level)?;
            text::number(out, u32::from(shape.border))
        }
        Ok(None) => text::letter(out, b'e'),
        Err(why) => text::refused(out, why),
    }
}

// ---- calls

// The first numbers of a list.
fn part<'a>(list: &'a [u32], count: u32) -> &'a [u32] {
    list.get(..count as usize).unwrap_or(list)
}

// Four turns, and what is reported of them.
fn run(
    out: &impl Print,
    state: State,
    l: &[u32; 16],
    axes: &[u32],
    table: &mut [i64],
) -> io::Result<Result<State, Refusal>> {
    let directions = [byte(l[0]), byte(l[1]), byte(l[2]), byte(l[3])];
    let mut numbers = [77u32; 4];
    let mut places = [77u64; 4];
    let answer = runs::run(state, table, &directions, axes, &mut numbers, &mut places);
    for (number, place) in numbers.iter().zip(&places) {
        text::number(out, *number)?;
        text::number(out, *place)?;
    }
    Ok(answer)
}

// The call that a letter stands for, with the number x before it; answers the set afterwards.
fn call(
    out: &impl Print,
    letter: u8,
    x: u64,
    numbers: &Numbers,
    account: &mut Account,
    table: &mut [i64],
) -> io::Result<u8> {
    let Numbers { s, m, l, i } = numbers;
    let shape = Shape {
        axes: s[AXES],
        level: s[LEVEL],
        border: s[BORDER] != 0,
    };
    let set = byte(s[SET]);
    let state = State {
        shape,
        forward: set,
    };
    let marks = part(m, s[MARKS_LENT]);
    let levels = part(l, s[LEVELS_LENT]);
    let indices = part(i, s[INDICES_LENT]);
    let axis = word(x);
    // The capitals are matched here alone, and all other letters in `read`, so an enum of either would only list them twice.
    match letter {
        b'A' => return answered(out, tables::load(shape, table), set),
        b'B' => return answered(out, tables::adopt(shape, table), set),
        b'F' => return answered(out, turns::hierarchize(state, table, axis), set),
        b'G' => return answered(out, turns::dehierarchize(state, table, axis), set),
        b'T' => return answered(out, run(out, state, l, indices, table)?, set),
        b'C' => numbered(out, shape.count())?,
        b'D' => *account = changed(out, accounts::close(*account, i[0], i[1]))?,
        b'E' => numbered(out, estimates::estimate(state, table, levels))?,
        b'H' => *account = changed(out, accounts::open(*account, i[0], i[1], i[2], i[3]))?,
        b'I' => used(out, accounts::usage_of(*account))?,
        b'K' => under(out, accounts::table_under(*account, i[0], i[1]))?,
        b'L' => located(
            out,
            parents::parent(shape, marks, levels, indices, axis, Side::Left),
            b'b',
        )?,
        b'M' => margined(out, estimates::estimate_with_margin(state, table, levels))?,
        b'N' => numbered(out, numbers::number_of_point(shape, marks, levels, indices))?,
        b'O' => ordered(out, compare_levels(padded(levels), padded(indices)))?,
        b'P' => located(out, numbers::point_of_number(shape, x).map(Some), b' ')?,
        b'S' => located(
            out,
            successor::successor(shape, marks, levels, indices),
            b'e',
        )?,
        b'U' => judged(out, tables::unload(state, table))?,
        b'V' => judged(out, whole::rates_to_coefficients(shape, table))?,
        b'W' => judged(out, whole::coefficients_to_rates(shape, table))?,
        b'Z' => *account = kept(out, Account::empty())?,
        _ => located(
            out,
            parents::parent(shape, marks, levels, indices, axis, Side::Right),
            b'b',
        )?,
    }
    Ok(set)
}

impl Desk {
    pub fn new() -> Desk {
        Desk {
            at: 0,
            number: 0,
            numbers: Numbers {
                s: [0; 16],
                m: [0; 16],
                l: [0; 16],
                i: [0; 16],
            },
            account: Account::empty(),
            table: [0; 2048],
        }
    }

    // A number ends: it goes to its place, and the next goes behind it.
    fn store(&mut self, n: u64) {
        let at = self.at;
        if at < MARKS {
            self.numbers.s[at] = word(n);
        } else if at < LEVELS {
            self.numbers.m[at - MARKS] = word(n);
        } else if at < INDICES {
            self.numbers.l[at - LEVELS] = word(n);
        } else if at < ACCOUNT {
            self.numbers.i[at - INDICES] = word(n);
        } else if at < TABLE {
            self.account.slots[at - ACCOUNT] = byte(word(n));
        } else if let Some(place) = self.table.get_mut(at - TABLE) {
            *place = n.cast_signed();
        }
        self.at = at.wrapping_add(1);
    }

    // A place of the table, printed instead.
    fn show(&mut self, out: &impl Print) -> io::Result<()> {
        let at = self.at;
        if TABLE <= at
            && let Some(value) = self.table.get(at - TABLE)
        {
            text::number(out, *value)?;
        }
        self.at = at.wrapping_add(1);
        Ok(())
    }

    // A capital: the call on as many places of the table as it is lent.
    fn call(&mut self, out: &impl Print, letter: u8) -> io::Result<()> {
        let places = self.numbers.s[PLACES] as usize;
        let set = match self.table.get_mut(..places) {
            Some(table) => call(
                out,
                letter,
                self.number,
                &self.numbers,
                &mut self.account,
                table,
            )?,
            None => 0,
        };
        self.numbers.s[SET] = u32::from(set);
        Ok(())
    }

    // One letter.
    pub fn read(&mut self, out: &impl Print, letter: u8) -> io::Result<()> {
        match letter {
            b'0'..=b'9' => {
                let tenfold = self.number.wrapping_mul(10);
                self.number = tenfold.wrapping_add(u64::from(letter - b'0'));
                return Ok(());
            }
            b',' => self.store(self.number),
            b'-' => self.store(self.number.wrapping_neg()),
            b'.' => self.show(out)?,
            b'A'..=b'Z' => self.call(out, letter)?,
            b's' => self.at = 0,
            b'm' => self.at = MARKS,
            b'l' => self.at = LEVELS,
            b'i' => self.at = INDICES,
            b'a' => self.at = ACCOUNT,
            b't' => self.at = TABLE,
            _ => {}
        }
        self.number = 0;
        Ok(())
    }
}
