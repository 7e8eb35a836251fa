// The test that sparse tables read as a state: refusal 18 of every call but reset.
#![tactic(auto)]

ghost use Rattle.std.specs.Prelude.{◌≡◌, true, ◌+◌, ◌≤◌, get_or};
ghost use Rattle.layout.specs.Layout.{term_room};
ghost use Rattle.layout.specs.cells.Names.{last_place, cell_room};
ghost use Rattle.sparse.specs.Places.{words_size, most_rows, most_variables, most_constraints, most_terms, most_gone, symbol_count_at, row_count_at, cell_count_at, variable_count_at, constraint_count_at, edit_count_at, gone_count_at, gone_numbers_at, term_counts_at};
ghost use Rattle.sparse.specs.Lookup.{Ascends};
ghost use Rattle.sparse_test.specs.Stretch.{most_in, up_in};
ghost use Rattle.sparse_test.specs.Reads.{reads};
ghost use Rattle.sparse_test.specs.Tested.{words_fit, bytes_fit, content_fits, term_count};
ghost use Rattle.sparse_test.specs.Whole.{tables, room_for, counts_in};
ghost use Rattle.sparse.specs.Tables.{lent};

pub mod asking;
pub mod owners;
pub mod records;
pub mod stretch;
pub mod tableau;
pub mod uses;

use layout::TERM_ROOM;
use layout::cells::LAST_PLACE;
use sparse::tables::Tables;
use sparse::{Bytes, MOST_CONSTRAINTS, MOST_GONE, MOST_VARIABLES, Words};
use stretch::{bytes_up, each, every, up};

// The greatest number that a u32 holds.
const GREATEST_U32: u64 = 4294967295;

// The least that it does not.
const ABOVE_U32: u64 = 4294967296;

fn room_for(c: u64, e: u64, r: u64) -> bool
    ensures { result ≡ room_for c e r }
{
    if c > MOST_CONSTRAINTS as u64 {
        return false;
    }
    if e > MOST_CONSTRAINTS as u64 {
        return false;
    }
    (c + e <= MOST_CONSTRAINTS as u64) & (r <= c + e)
}

fn counts_fit(words: &Words) -> bool
    ensures { result ≡ counts_in words.now }
{
    (0 < words[sparse::NEXT_ID])
        & (words[sparse::NEXT_ID] <= GREATEST_U32)
        & (words[sparse::SYMBOL_COUNT] <= LAST_PLACE as u64)
        & (words[sparse::CELL_COUNT] <= layout::cells::CELL_ROOM as u64)
        & (words[sparse::VARIABLE_COUNT] <= MOST_VARIABLES as u64)
        & (words[sparse::SHOULD_CLEAR] <= 1)
        & (words[sparse::WHOLE] <= 1)
        & (words[sparse::GONE_COUNT] <= MOST_GONE as u64)
        & room_for(
            words[sparse::CONSTRAINT_COUNT],
            words[sparse::EDIT_COUNT],
            words[sparse::ROW_COUNT],
        )
}

// The n words from place a on.
pub fn words_up(words: &Words, a: usize, n: usize, low: u64, high: u64) -> bool
    requires { a + n ≤ words_size }
    ensures { result ≡ up_in words.now a n low high }
{
    up(n, |i| words[a + i], low, high)
}

fn words_fit(words: &Words, k: usize, v: usize, c: usize, g: usize) -> bool
    requires k_le_last_place { k ≤ last_place }
    requires v_le_most_variables { v ≤ most_variables }
    requires c_le_most_constraints { c ≤ most_constraints }
    requires g_le_most_gone { g ≤ most_gone }
    ensures { result ≡ words_fit words.now k v c g }
{
    words_up(words, sparse::IDS + 1, k, 1, words[sparse::NEXT_ID])
        & words_up(words, sparse::VARIABLE_NUMBERS, v, 0, ABOVE_U32)
        & words_up(words, sparse::CONSTRAINT_NUMBERS, c, 0, ABOVE_U32)
        & every(0, c, |i| 0 < words[sparse::CONSTRAINT_GROUPS + i])
        & words_up(words, sparse::GONE_NUMBERS, g, 0, ABOVE_U32)
}

fn bytes_fit(bytes: &Bytes, k: usize, r: usize, c: usize) -> bool
    requires k_le_last_place { k ≤ last_place }
    requires r_le_most_rows { r ≤ most_rows }
    requires c_le_most_constraints { c ≤ most_constraints }
    ensures { result ≡ bytes_fit bytes.now k r c }
{
    each(0, c, |i| bytes[sparse::TERM_COUNTS + i] <= TERM_ROOM as u8)
        & bytes_up(bytes, sparse::ROW_PLACES + 1, r, 1, (k + 1) as u8)
}

// How many terms the first c constraints have; no more than there is room for, if no constraint has.
pub fn term_count(bytes: &Bytes, c: usize) -> usize
    requires { c ≤ most_constraints }
    ensures value { result ≡ term_count bytes.now c }
    ensures upper_bound { most_in bytes.now term_counts_at c term_room ≡ true → result ≤ most_terms }
{
    let mut m = 0;
    for i in 0..c {
        m += usize::from(bytes[sparse::TERM_COUNTS + i]);
    }
    m
}

// The counts are no struct: `reals_fit`, `owned_fit`, `uses_fit` and `returned_fit` each ask for the bounds of those that they take, and one struct would ask for all.
fn content_fits(tables: &Tables) -> bool
    requires symbol_count_at_bound { get_or tables.now.words.now symbol_count_at 0 ≤ last_place }
    requires row_count_at_bound { get_or tables.now.words.now row_count_at 0 ≤ most_rows }
    requires cell_count_at_bound { get_or tables.now.words.now cell_count_at 0 ≤ cell_room }
    requires variable_count_at_bound { get_or tables.now.words.now variable_count_at 0 ≤ most_variables }
    requires constraint_count_at_bound { get_or tables.now.words.now constraint_count_at 0 ≤ most_constraints }
    requires edit_count_at_bound { get_or tables.now.words.now edit_count_at 0 ≤ most_constraints }
    requires term_room_value { most_in tables.now.bytes.now term_counts_at (get_or tables.now.words.now constraint_count_at 0) term_room ≡ true }
    requires gone_count_at_bound { get_or tables.now.words.now gone_count_at 0 ≤ most_gone }
    requires ascends { Ascends tables.now.words.now gone_numbers_at (get_or tables.now.words.now gone_count_at 0) }
    ensures { result ≡ content_fits (lent tables.now) }
{
    let k = tables.words[sparse::SYMBOL_COUNT] as usize;
    let r = tables.words[sparse::ROW_COUNT] as usize;
    let n = tables.words[sparse::CELL_COUNT] as usize;
    let v = tables.words[sparse::VARIABLE_COUNT] as usize;
    let c = tables.words[sparse::CONSTRAINT_COUNT] as usize;
    let e = tables.words[sparse::EDIT_COUNT] as usize;
    let g = tables.words[sparse::GONE_COUNT] as usize;
    let mut table = owners::no_codes();
    owners::fill_codes(&mut table, tables.bytes, k);
    if !owners::owned_fit(&mut table, tables.bytes, tables.reals, k, v, c, e) {
        return false;
    }
    let m = term_count(tables.bytes, c);
    let mut index = uses::no_index();
    uses::fill_index(&mut index, tables.bytes, v);
    let costs = tableau::shut_basics(&mut table, tables.reals, tables.bytes, k, r);
    records::reals_fit(tables.reals, k, r, v, c, e, m)
        & uses::edits_up(tables.words, &index, tables.bytes, v, e)
        & uses::uses_fit(tables.words, &index, tables.bytes, v, e, m)
        & costs
        & tableau::keys_fit(tables.keys, &table, tables.bytes, n, k, r)
        & tableau::values_fit(tables.values, n)
        & records::returned_fit(tables.words, tables.reals, v, g)
}

pub fn reads_as_state(tables: &Tables) -> bool
    ensures { result ≡ reads (lent tables.now) }
{
    if !counts_fit(tables.words) {
        return false;
    }
    let k = tables.words[sparse::SYMBOL_COUNT] as usize;
    let v = tables.words[sparse::VARIABLE_COUNT] as usize;
    let c = tables.words[sparse::CONSTRAINT_COUNT] as usize;
    let g = tables.words[sparse::GONE_COUNT] as usize;
    if !words_fit(tables.words, k, v, c, g) {
        return false;
    }
    if !bytes_fit(tables.bytes, k, tables.words[sparse::ROW_COUNT] as usize, c) {
        return false;
    }
    content_fits(tables)
}
