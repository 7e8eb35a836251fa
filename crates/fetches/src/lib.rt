// Fetch changes, over lent tables: "a first fetch reports, a second straight after reports none", and either kind lists the gone.
#![tactic(auto)]

ghost use Rattle.std.specs.Prelude.{◌≡◌, true, ◌+◌, ◌≤◌, get_or, replicate};
ghost use Rattle.laws.specs.Loops.{map_in};
ghost use Rattle.steps.specs.Number.{zero64};
ghost use Rattle.sparse.specs.Places.{most_variables, variable_count_at, changed_at};
ghost use Rattle.sparse_test.specs.Reads.{reads};
ghost use Rattle.sparse_test.specs.Whole.{tables};
ghost use Rattle.fetches.specs.Seen.{cleared_by};
ghost use Rattle.fetches.specs.Fetch.{places, fetch, fetch_by, fetch_in, fetch_of};

use listing::Listed;
use sparse::tables::Tables;
use sparse::{
    Bytes, CHANGED, GONE_COUNT, Keys, Reals, SHOULD_CLEAR, VARIABLE_COUNT, Values, Words,
};

pub mod listing;
pub mod shown;

// A place for each variable that is live and for each that is gone.
pub const PLACES: usize = 64;

// The three lists: an entry's number, its value, and whether it is gone, 1 or 0.
pub type Numbers = [u64; PLACES];

pub type Moved = [f64; PLACES];

pub type Flags = [u8; PLACES];

// 0 or 18, and how many places of the three lists are filled.
#[repr(C)]
#[derive(Clone, Copy)]
pub struct Fetched {
    pub number: u32,
    pub count: u32,
}

fn clear_changed(bytes: &mut Bytes, count: usize)
    requires { count ≤ most_variables }
    ensures { bytes.new ≡ map_in (λ _. 0) changed_at (changed_at + count) bytes.old }
{
    bytes[CHANGED..CHANGED + count].fill(0);
}

// A set that a fetch has reported is cleared.
fn clear_reported(words: &Words, bytes: &mut Bytes)
    requires { get_or words.now variable_count_at 0 ≤ most_variables }
    ensures { bytes.new ≡ cleared_by words.now bytes.old }
{
    if words[SHOULD_CLEAR] == 1 {
        clear_changed(bytes, words[VARIABLE_COUNT] as usize);
    }
}

// The three lists zero, whatever they held: what `Listed` begins with.
pub fn clear_lists(numbers: &mut Numbers, moved: &mut Moved, gone: &mut Flags)
    ensures numbers_after { numbers.new ≡ replicate places 0 }
    ensures moved_after { moved.new ≡ replicate places zero64 }
    ensures gone_after { gone.new ≡ replicate places 0 }
{
    *numbers = [0; PLACES];
    *moved = [0.0; PLACES];
    *gone = [0; PLACES];
}

// The tables are parameters of their own here: the C names `knobharbor_fetch` and `knobharbor_held_fetch` are lent keys and values to be read alone, of which no `TablesMut` can be made.
// On tables that are known to read as a state, and any lists. None wait among the gone afterwards.
pub fn fetch_held(
    words: &mut Words,
    keys: &Keys,
    bytes: &mut Bytes,
    reals: &mut Reals,
    values: &Values,
    numbers: &mut Numbers,
    moved: &mut Moved,
    gone: &mut Flags,
) -> u32
    requires { reads (tables words.old keys.now bytes.old reals.old values.now) ≡ true }
    ensures { fetch 0 result numbers.new moved.new gone.new (tables words.new keys.now bytes.new reals.new values.now) ≡ fetch_in (tables words.old keys.now bytes.old reals.old values.now) }
{
    clear_reported(words, bytes);
    clear_lists(numbers, moved, gone);
    let mut out = Listed {
        numbers,
        moved,
        gone,
        count: 0,
    };
    listing::list_changes(words, bytes, reals, &mut out);
    words[SHOULD_CLEAR] = 1 - words[SHOULD_CLEAR];
    words[GONE_COUNT] = 0;
    out.count
}

// "Fetch fills lists of 64 places, zero past its count, all zero on 18." Three wrong answers that this shuts out: the same list once more from a second fetch straight after, a gone variable told twice or not at all, and numbers that the lender had in the lists left there past the count or beside 18.
pub fn fetch_changes(
    words: &mut Words,
    keys: &Keys,
    bytes: &mut Bytes,
    reals: &mut Reals,
    values: &Values,
    numbers: &mut Numbers,
    moved: &mut Moved,
    gone: &mut Flags,
) -> Fetched
    ensures { fetch_by result numbers.new moved.new gone.new (tables words.new keys.now bytes.new reals.new values.now) ≡ fetch_of (tables words.old keys.now bytes.old reals.old values.now) }
{
    let tables = Tables {
        words,
        keys,
        bytes,
        reals,
        values,
    };
    if !sparse_test::reads_as_state(&tables) {
        clear_lists(numbers, moved, gone);
        return Fetched {
            number: 18,
            count: 0,
        };
    }
    let count = fetch_held(words, keys, bytes, reals, values, numbers, moved, gone);
    Fetched { number: 0, count }
}
