// The account of four offices that share an allowance of points (document 02, i): opening and closing tables, and what a planner reads.
#![tactic(auto)]

ghost use Rattle.std.specs.Prelude.{◌≡◌, ◌<◌, ◌≤◌, ◌+◌, ◌-◌, IfOk};
ghost use Rattle.refusals.specs.Checks.{verdict};
ghost use Rattle.numbering.specs.Point.{at};
ghost use Rattle.shapes.specs.Shapes.{most_points};
ghost use Rattle.accounts.specs.Accounts.{own_points, common_points, account_of, empty, slot, held_by, common};
ghost use Rattle.accounts.specs.Calls.{check_account, check_slot, check_free, check_open, open_table, close_table, usage_of, shape_under};
ghost use Rattle.accounts.specs.Steps.{weight, weighed, common_over, check_more, answered};

use refusals::Refusal;
use shapes::Shape;

// The points that each office has of its own, and those that are common (document 02, i).
const OWN_POINTS: u32 = 4096;

const COMMON_POINTS: u64 = 49152;

// How many points a slot counts, at the place of its byte: none for 0, for 16 × d + n those of the shape, and 65,535 where that is no shape which passes. This is
// more than the common points and an office's own together, so that the test of the common points refuses an account with such a byte too.
const POINTS: [u16; 256] = [
    0, 65535, 65535, 65535, 65535, 65535, 65535, 65535, 65535, 65535, 65535, 65535, 65535, 65535,
    65535, 65535, 1, 3, 7, 15, 31, 63, 127, 255, 511, 65535, 65535, 65535, 65535, 65535, 65535,
    65535, 1, 5, 17, 49, 129, 321, 769, 1793, 4097, 65535, 65535, 65535, 65535, 65535, 65535,
    65535, 1, 7, 31, 111, 351, 1023, 2815, 7423, 18943, 65535, 65535, 65535, 65535, 65535, 65535,
    65535, 1, 9, 49, 209, 769, 2561, 7937, 23297, 65535, 65535, 65535, 65535, 65535, 65535, 65535,
    65535, 1, 11, 71, 351, 1471, 5503, 18943, 65535, 65535, 65535, 65535, 65535, 65535, 65535,
    65535, 65535, 1, 13, 97, 545, 2561, 10625, 65535, 65535, 65535, 65535, 65535, 65535, 65535,
    65535, 65535, 65535, 1, 15, 127, 799, 4159, 18943, 65535, 65535, 65535, 65535, 65535, 65535,
    65535, 65535, 65535, 65535, 1, 17, 161, 1121, 6401, 31745, 65535, 65535, 65535, 65535, 65535,
    65535, 65535, 65535, 65535, 65535, 65535, 65535, 65535, 65535, 65535, 65535, 65535, 65535,
    65535, 65535, 65535, 65535, 65535, 65535, 65535, 65535, 65535, 65535, 65535, 65535, 65535,
    65535, 65535, 65535, 65535, 65535, 65535, 65535, 65535, 65535, 65535, 65535, 65535, 65535,
    65535, 65535, 65535, 65535, 65535, 65535, 65535, 65535, 65535, 65535, 65535, 65535, 65535,
    65535, 65535, 65535, 65535, 65535, 65535, 65535, 65535, 65535, 65535, 65535, 65535, 65535,
    65535, 65535, 65535, 65535, 65535, 65535, 65535, 65535, 65535, 65535, 65535, 65535, 65535,
    65535, 65535, 65535, 65535, 65535, 65535, 65535, 65535, 65535, 65535, 65535, 65535, 65535,
    65535, 65535, 65535, 65535, 65535, 65535, 65535, 65535, 65535, 65535, 65535, 65535, 65535,
    65535, 65535, 65535, 65535, 65535, 65535, 65535, 65535, 65535, 65535, 65535, 65535, 65535,
];

// The shapes of the open tables by office and tag: eight slots for each of four offices. A slot is 0 where nothing is open, else 16 × d + n.
#[derive(Clone, Copy)]
pub struct Account {
    pub slots: [u8; 32],
}

// What a call answers, and the account that it leaves.
#[derive(Clone, Copy)]
pub struct Answered {
    pub verdict: Result<(), Refusal>,
    pub account: Account,
}

// The points open, by office and in all, and the common points in use and free.
#[derive(Clone, Copy)]
pub struct Usage {
    pub by_office: [u64; 4],
    pub in_all: u64,
    pub common: u64,
    pub free: u64,
}

// A slot: the place of its office, from 0, and its tag.
#[derive(Clone, Copy)]
struct Slot {
    office: usize,
    tag: usize,
    ghost within: { office < 4 },
    ghost tagged: { tag < 8 },
}

// ---- slots

impl Slot {
    // That of an office, from 1, and a tag, as a caller gives them. Refused with 22.
    fn find(office: u32, tag: u32) -> Result<Slot, Refusal>
        ensures verdict { verdict result ≡ check_slot office tag }
        ensures slot { IfOk result (λ found. (found.office ≡ office - 1) × (found.tag ≡ tag)) }
    {
        if !(1..=4).contains(&office) || 8 <= tag {
            return Err(Refusal::NoSlot);
        }
        Ok(Slot {
            office: (office - 1) as usize,
            tag: tag as usize,
        })
    }

    // Its place in an account.
    fn place(self) -> usize
        ensures { (result ≡ slot self.office self.tag) × (result < 32) }
    {
        self.office * 8 + self.tag
    }
}

// How many points a slot counts: 65,535 where its byte is no shape that passes. (The table is lent: named without `&` it would be built on the stack.)
fn weight(byte: u8) -> u32
    ensures { result ≡ weight byte }
{
    let points = &POINTS;
    u32::from(points[byte as usize])
}

// What an office with so many points open has above its own.
fn above(points: u32) -> u64
    ensures { result ≡ points - own_points }
{
    u64::from(points.saturating_sub(OWN_POINTS))
}

// The common points in use where the offices have so many open.
fn common_of(held: [u32; 4]) -> u64
    ensures { result ≡ common_over held }
{
    above(held[0]) + above(held[1]) + above(held[2]) + above(held[3])
}

// ---- the checks

// How many points an office has open, slots that hold what they may not counted as 65,535.
fn weighed(slots: &[u8; 32], office: usize) -> u32
    requires { office < 4 }
    ensures { result ≡ weighed (account_of slots.now) office }
{
    let mut points = 0;
    for tag in 0..8 {
        points += weight(slots[office * 8 + tag]);
    }
    points
}

// How many points each office has open. Refused with 20.
fn check(slots: &[u8; 32]) -> Result<[u32; 4], Refusal>
    ensures verdict { verdict result ≡ check_account (account_of slots.now) }
    ensures held { IfOk result (λ held. (held ≡ held_by (account_of slots.now)) × (common (account_of slots.now) ≤ common_points)) }
{
    let held = [
        weighed(slots, 0),
        weighed(slots, 1),
        weighed(slots, 2),
        weighed(slots, 3),
    ];
    if COMMON_POINTS < common_of(held) {
        return Err(Refusal::Allowance);
    }
    Ok(held)
}

// Refused with 21 where something is open in the slot.
#[tactic(auto, unfolding(crate::specs::Calls::check_free))]
fn check_free(slots: &[u8; 32], slot: Slot) -> Result<(), Refusal>
    ensures { result ≡ check_free (account_of slots.now) slot.office slot.tag }
{
    if slots[slot.place()] != 0 {
        return Err(Refusal::Tag);
    }
    Ok(())
}

// Refused with 21 where nothing is open in the slot.
#[tactic(auto, unfolding(crate::specs::Calls::check_open))]
fn check_open(slots: &[u8; 32], slot: Slot) -> Result<(), Refusal>
    ensures { result ≡ check_open (account_of slots.now) slot.office slot.tag }
{
    if slots[slot.place()] == 0 {
        return Err(Refusal::Tag);
    }
    Ok(())
}

// Refused with 20 where the common points would not suffice, were so many points more open for the slot's office than the offices have open now.
#[inline(always)]
fn check_more(held: [u32; 4], slot: Slot, points: u64) -> Result<(), Refusal>
    requires { (at held slot.office ≤ common_points + own_points) × (points ≤ most_points) }
    ensures { result ≡ check_more held slot.office points }
{
    let mut more = held;
    more[slot.office] += points as u32;
    if COMMON_POINTS < common_of(more) {
        return Err(Refusal::Allowance);
    }
    Ok(())
}

// ---- the calls

// A table of d axes and top level n with a zero border is opened under a tag, in a lent account. Refused with 20 for the account, 1, 2, 19, 22, 21, or 20 for the
// common points.
pub fn open_in(
    slots: &mut [u8; 32],
    office: u32,
    tag: u32,
    axes: u32,
    level: u32,
) -> Result<(), Refusal>
    ensures { answered result slots.new ≡ open_table (account_of slots.old) office tag axes level }
{
    let held = check(slots)?;
    let points = Shape::sparse(axes, level).check()?.points();
    let slot = Slot::find(office, tag)?;
    check_free(slots, slot).and(check_more(held, slot, points))?;
    slots[slot.place()] = (16 * axes + level) as u8;
    Ok(())
}

// The table under a tag is closed, in a lent account. Refused with 20 for the account, 22 or 21.
pub fn close_in(slots: &mut [u8; 32], office: u32, tag: u32) -> Result<(), Refusal>
    ensures { answered result slots.new ≡ close_table (account_of slots.old) office tag }
{
    check(slots)?;
    let slot = Slot::find(office, tag)?;
    check_open(slots, slot)?;
    slots[slot.place()] = 0;
    Ok(())
}

// The points open and the common points. Refused with 20.
pub fn usage_in(slots: &[u8; 32]) -> Result<Usage, Refusal>
    ensures { result ≡ usage_of (account_of slots.now) }
{
    let held = check(slots)?;
    let by_office = [
        u64::from(held[0]),
        u64::from(held[1]),
        u64::from(held[2]),
        u64::from(held[3]),
    ];
    let common = common_of(held);
    Ok(Usage {
        by_office,
        in_all: by_office[0] + by_office[1] + by_office[2] + by_office[3],
        common,
        free: COMMON_POINTS - common,
    })
}

// The shape that is open under a tag, if any. Refused with 20 or 22.
pub fn table_in(slots: &[u8; 32], office: u32, tag: u32) -> Result<Option<Shape>, Refusal>
    ensures { result ≡ shape_under (account_of slots.now) office tag }
{
    check(slots)?;
    let byte = slots[Slot::find(office, tag)?.place()];
    if byte == 0 {
        return Ok(None);
    }
    Ok(Some(Shape::sparse(u32::from(byte / 16), u32::from(byte % 16))))
}

// ---- the same on an account by value

impl Account {
    // Nothing is open.
    pub fn empty() -> Account
        ensures { result ≡ empty }
    {
        Account { slots: [0; 32] }
    }
}

// Opening: the verdict, and the account with the table; refused, the one that was handed in.
pub fn open(account: Account, office: u32, tag: u32, axes: u32, level: u32) -> Answered
    ensures { result ≡ open_table account office tag axes level }
{
    let mut slots = account.slots;
    let verdict = open_in(&mut slots, office, tag, axes, level);
    Answered {
        verdict,
        account: Account { slots },
    }
}

// Closing: the verdict, and the account without the table; refused, the one that was handed in.
pub fn close(account: Account, office: u32, tag: u32) -> Answered
    ensures { result ≡ close_table account office tag }
{
    let mut slots = account.slots;
    let verdict = close_in(&mut slots, office, tag);
    Answered {
        verdict,
        account: Account { slots },
    }
}

// The points open and the common points. Refused with 20.
pub fn usage_of(account: Account) -> Result<Usage, Refusal>
    ensures { result ≡ usage_of account }
{
    usage_in(&account.slots)
}

// The shape that is open under a tag, if any. Refused with 20 or 22.
pub fn table_under(account: Account, office: u32, tag: u32) -> Result<Option<Shape>, Refusal>
    ensures { result ≡ shape_under account office tag }
{
    table_in(&account.slots, office, tag)
}
