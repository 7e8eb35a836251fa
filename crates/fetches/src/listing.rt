// The list of a fetch: the variables by ascending number, and the gone ones among them, "gone before a value of the same number".
ghost use Rattle.std.specs.Prelude.{◌≡◌, ◌+◌, ◌-◌, ◌<◌, ◌≤◌, get_or, set};
ghost use Rattle.std.specs.Int.{from_bool};
ghost use Rattle.sparse.specs.Places.{most_rows, most_variables, most_gone, row_count_at, variable_count_at, gone_count_at, gone_numbers_at};
ghost use Rattle.sparse.specs.Lookup.{Ascends};
ghost use Rattle.fetches.specs.Fetch.{places};
ghost use Rattle.fetches.specs.Lists.{lists};
ghost use Rattle.fetches.specs.Telling.{gone_to, tell_gone};
ghost use Rattle.fetches.specs.Listing.{ended, entries, listing, SameLists, returned, list_news, list_all};

use crate::{Flags, Moved, Numbers};
use sparse::lookup::look_up;
use sparse::{
    Bytes, CHANGED, GONE_COUNT, GONE_NUMBERS, OLD_VALUES, ROW_COUNT, Reals, VARIABLE_COUNT,
    VARIABLE_NUMBERS, VARIABLE_PLACES, Words,
};

// The lists of a fetch, as they are lent, and how many of their places are filled.
#[derive(Drop)]
pub struct Listed<'a> {
    pub numbers: &'a mut Numbers,
    pub moved: &'a mut Moved,
    pub gone: &'a mut Flags,
    pub count: u32,
}

impl Listed<'_> {
    // One entry more.
    fn push(&mut self, number: u64, value: f64, gone: bool)
        requires { self.old.count < places }
        ensures after { entries self.new ≡ lists (set self.old.numbers.now self.old.count number) (set self.old.moved.now self.old.count value) (set self.old.gone.now self.old.count (from_bool gone)) (self.old.count + 1) }
        ensures same { SameLists self.old self.new }
    {
        let i = self.count as usize;
        self.numbers[i] = number;
        self.moved[i] = value;
        self.gone[i] = u8::from(gone);
        self.count += 1;
    }
}

// One that is live and among the g gone ones went and has returned.
fn has_returned(words: &Words, g: usize, n: u64) -> bool
    requires g_le_most_gone { g ≤ most_gone }
    requires ascends { Ascends words.now gone_numbers_at g }
    ensures { result ≡ returned words.now g n }
{
    look_up(words, GONE_NUMBERS, g, n) < g
}

// Of the g gone ones, from the place e on: the first that comes after a value of the number n.
fn gone_to(words: &Words, g: usize, e: usize, n: u64) -> usize
    requires g_le_most_gone { g ≤ most_gone }
    requires e_le_g { e ≤ g }
    ensures value { result ≡ gone_to words.now g e n }
    ensures lower_bound { e ≤ result }
    ensures upper_bound { result ≤ g }
{
    for j in e..g {
        if n < words[GONE_NUMBERS + j] {
            return j;
        }
    }
    g
}

// The gone ones from the place a up to the place b.
fn tell_gone(words: &Words, out: &mut Listed, a: usize, b: usize)
    requires a_le_b { a ≤ b }
    requires b_le_most_gone { b ≤ most_gone }
    requires a_bound { out.old.count + (b - a) ≤ places }
    ensures after { entries out.new ≡ tell_gone words.now a b (entries out.old) }
    ensures count { out.new.count ≡ out.old.count + (b - a) }
    ensures same { SameLists out.old out.new }
{
    for j in a..b {
        out.push(words[GONE_NUMBERS + j], 0.0, true);
    }
}

// One variable: a changed one whose value is not its old one, or one that has returned, goes on the lists behind the gone ones up to its number, and its old value is the value now. `told` of the gone ones are told before, and the result's afterwards.
fn note_news(
    words: &Words,
    bytes: &Bytes,
    reals: &mut Reals,
    out: &mut Listed,
    i: usize,
    told: usize,
) -> usize
    requires row_count_at_bound { get_or words.now row_count_at 0 ≤ most_rows }
    requires gone_count_at_bound { get_or words.now gone_count_at 0 ≤ most_gone }
    requires ascends { Ascends words.now gone_numbers_at (get_or words.now gone_count_at 0) }
    requires i_lt_most_variables { i < most_variables }
    requires told_bound { told ≤ get_or words.now gone_count_at 0 }
    requires count_bound { out.old.count ≤ i + told }
    ensures result_after { listing reals.new (entries out.new) result ≡ list_news words.now bytes.now (get_or words.now gone_count_at 0) i (listing reals.old (entries out.old) told) }
    ensures told_bound_2 { result ≤ get_or words.now gone_count_at 0 }
    ensures count_bound_2 { out.new.count ≤ i + 1 + result }
    ensures same { SameLists out.old out.new }
{
    let g = words[GONE_COUNT] as usize;
    let n = words[VARIABLE_NUMBERS + i];
    let back = has_returned(words, g, n);
    if !((bytes[CHANGED + i] == 1) | back) {
        return told;
    }
    let x = sparse_test::asking::constant_of(
        bytes,
        reals,
        words[ROW_COUNT] as usize,
        bytes[VARIABLE_PLACES + i],
    );
    if !((reals[OLD_VALUES + i] != x) | back) {
        return told;
    }
    let e = gone_to(words, g, told, n);
    tell_gone(words, out, told, e);
    out.push(n, x, false);
    reals[OLD_VALUES + i] = x;
    e
}

// From the first place of the lists on: all variables, and the gone ones that come after the last of them.
pub fn list_changes(words: &Words, bytes: &Bytes, reals: &mut Reals, out: &mut Listed)
    requires row_count_at_bound { get_or words.now row_count_at 0 ≤ most_rows }
    requires variable_count_at_bound { get_or words.now variable_count_at 0 ≤ most_variables }
    requires gone_count_at_bound { get_or words.now gone_count_at 0 ≤ most_gone }
    requires ascends { Ascends words.now gone_numbers_at (get_or words.now gone_count_at 0) }
    ensures after { ended reals.new (entries out.new) ≡ list_all words.now bytes.now (get_or words.now gone_count_at 0) (get_or words.now variable_count_at 0) (listing reals.old (lists out.old.numbers.now out.old.moved.now out.old.gone.now 0) 0) }
    ensures same { SameLists out.old out.new }
{
    out.count = 0;
    let k = words[VARIABLE_COUNT] as usize;
    let mut told = 0;
    for i in 0..k {
        told = note_news(words, bytes, reals, out, i, told);
    }
    let g = words[GONE_COUNT] as usize;
    tell_gone(words, out, told, g);
}
