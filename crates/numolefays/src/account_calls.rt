// The account of four offices, as 32 bytes: the byte of office o and tag t is at place 8 × (o − 1) + t, 0 where nothing is open, else 16 × d + n.
ghost use Rattle.std.specs.Prelude.{◌≡◌};
ghost use Rattle.accounts.specs.Accounts.{account_of, empty};
ghost use Rattle.accounts.specs.Calls.{open_table, close_table, usage_of, shape_under};
ghost use Rattle.answers.specs.Returned.{returned, done};
ghost use Rattle.answers.specs.Answers.{of_answered, of_usage, of_table};

use accounts::Account;

// An account in which nothing is open.
#[unsafe(no_mangle)]
pub extern "C" fn numolefays_empty_account(account: &mut [u8; 32], place: &mut u64) -> u32
    ensures { returned result place.new account.new ≡ done empty.slots }
{
    let nothing = Account::empty();
    let slots = nothing.slots;
    *account = slots;
    answers::tell(Ok(()), place)
}

// A table is opened under a tag of an office.
#[unsafe(no_mangle)]
pub extern "C" fn numolefays_open_table(
    account: &mut [u8; 32],
    office: u32,
    tag: u32,
    axes: u32,
    level: u32,
    place: &mut u64,
) -> u32
    ensures { returned result place.new account.new ≡ of_answered (open_table (account_of account.old) office tag axes level) }
{
    answers::tell(accounts::open_in(account, office, tag, axes, level), place)
}

// The table under a tag of an office is closed.
#[unsafe(no_mangle)]
pub extern "C" fn numolefays_close_table(
    account: &mut [u8; 32],
    office: u32,
    tag: u32,
    place: &mut u64,
) -> u32
    ensures { returned result place.new account.new ≡ of_answered (close_table (account_of account.old) office tag) }
{
    answers::tell(accounts::close_in(account, office, tag), place)
}

// The points open, by office and in all, and the common points in use and free.
#[unsafe(no_mangle)]
pub extern "C" fn numolefays_account_usage(
    account: &[u8; 32],
    by_office: &mut [u64; 4],
    in_all: &mut u64,
    common_used: &mut u64,
    common_free: &mut u64,
    place: &mut u64,
) -> u32
    ensures { returned result place.new (by_office.new, in_all.new, common_used.new, common_free.new) ≡ of_usage (by_office.old, in_all.old, common_used.old, common_free.old) (usage_of (account_of account.now)) }
{
    let answer = accounts::usage_in(account);
    answers::hand_usage(answer, by_office, in_all, common_used, common_free, place)
}

// The shape that is open under a tag of an office: `none` is 1 where nothing is, else 0.
#[unsafe(no_mangle)]
pub extern "C" fn numolefays_table_under(
    account: &[u8; 32],
    office: u32,
    tag: u32,
    axes: &mut u32,
    level: &mut u32,
    none: &mut u32,
    place: &mut u64,
) -> u32
    ensures { returned result place.new (axes.new, level.new, none.new) ≡ of_table (axes.old, level.old, none.old) (shape_under (account_of account.now) office tag) }
{
    let answer = accounts::table_in(account, office, tag);
    answers::hand_table(answer, axes, level, none, place)
}
