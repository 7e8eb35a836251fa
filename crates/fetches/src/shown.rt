// A live constraint as it was added, out of lent tables into lent places: those in which a line's reader hands one over.
ghost use Rattle.std.specs.Prelude.{◌≡◌, true, ◌+◌, ◌≤◌, ◌<◌, get_or};
ghost use Rattle.steps.specs.Number.{zero64};
ghost use Rattle.layout.specs.Layout.{term_room};
ghost use Rattle.sparse.specs.Places.{most_variables, most_constraints, most_terms, variable_count_at, variable_numbers_at, term_counts_at};
ghost use Rattle.sparse_test.specs.Stretch.{most_in};
ghost use Rattle.sparse_test.specs.Reads.{greatest_u32};
ghost use Rattle.sparse_test.specs.Tested.{number_in, term_count};
ghost use Rattle.sparse_test.specs.Whole.{tables};
ghost use Rattle.fetches.specs.shown.Shown.{line, without, show_of};
ghost use Rattle.fetches.specs.shown.Filled.{filled};
ghost use Rattle.fetches.specs.shown.Stored.{variable_at, coefficient_at, line_in};
ghost use Rattle.sparse.specs.Tables.{lent};

use layout::TERM_ROOM;
use sparse::lookup::look_up;
use sparse::tables::Tables;
use sparse::{Bytes, Reals, Words};
use sparse_test::asking::byte_from;
use sparse_test::reads_as_state;
use sparse_test::stretch::wide;

// 0, 0 or the refusal's number, 0, the kind, how many terms, the group.
pub type LineWords = [u64; LINE_WORDS];

pub const LINE_WORDS: usize = 6;

// The constant, the strength.
pub type LineReals = [f64; LINE_REALS];

pub const LINE_REALS: usize = 2;

// The terms, zeros behind them.
pub type Variables = [u32; TERM_ROOM];

pub type Coefficients = [f64; TERM_ROOM];

// How many terms the constraints before i have.
fn terms_before(bytes: &Bytes, i: usize) -> usize
    requires i_lt_most_constraints { i < most_constraints }
    requires term_room_value { most_in bytes.now term_counts_at (i + 1) term_room ≡ true }
    ensures value { result ≡ term_count bytes.now i }
    ensures term_room_bound { result + term_room ≤ most_terms }
{
    let mut m = 0;
    for j in 0..i {
        m += wide(bytes[sparse::TERM_COUNTS + j]);
    }
    m
}

// The number of the variable whose symbol stands at place p.
fn number_of(words: &Words, bytes: &Bytes, v: usize, p: u8) -> u32
    requires v_le_most_variables { v ≤ most_variables }
    requires greatest_u32_value { most_in words.now variable_numbers_at v greatest_u32 ≡ true }
    ensures { result ≡ number_in words.now bytes.now v p }
{
    let i = byte_from(bytes, sparse::VARIABLE_PLACES, v, p);
    if i < v {
        return words[sparse::VARIABLE_NUMBERS + i] as u32;
    }
    0
}

fn variables_of(words: &Words, bytes: &Bytes, from: usize, n: usize) -> Variables
    requires n_le_term_room { n ≤ term_room }
    requires term_room_bound { from + term_room ≤ most_terms }
    requires variable_count_at_bound { get_or words.now variable_count_at 0 ≤ most_variables }
    requires greatest_u32_value { most_in words.now variable_numbers_at (get_or words.now variable_count_at 0) greatest_u32 ≡ true }
    ensures { result ≡ filled 0 (variable_at words.now bytes.now from) n }
{
    let v = words[sparse::VARIABLE_COUNT] as usize;
    let mut r = [0u32; TERM_ROOM];
    for j in 0..n {
        r[j] = number_of(words, bytes, v, bytes[sparse::TERMS + (from + j)]);
    }
    r
}

fn coefficients_of(reals: &Reals, from: usize, n: usize) -> Coefficients
    requires n_le_term_room { n ≤ term_room }
    requires term_room_bound { from + term_room ≤ most_terms }
    ensures { result ≡ filled zero64 (coefficient_at reals.now from) n }
{
    let mut r = [0.0f64; TERM_ROOM];
    for j in 0..n {
        r[j] = reals[sparse::COEFFICIENTS + (from + j)];
    }
    r
}

fn hand_over(
    words: &Words,
    bytes: &Bytes,
    reals: &Reals,
    i: usize,
    lwords: &mut LineWords,
    lreals: &mut LineReals,
    variables: &mut Variables,
    coefficients: &mut Coefficients,
)
    requires i_lt_most_constraints { i < most_constraints }
    requires term_room_value { most_in bytes.now term_counts_at (i + 1) term_room ≡ true }
    requires variable_count_at_bound { get_or words.now variable_count_at 0 ≤ most_variables }
    requires greatest_u32_value { most_in words.now variable_numbers_at (get_or words.now variable_count_at 0) greatest_u32 ≡ true }
    ensures { line lwords.new lreals.new variables.new coefficients.new ≡ line_in words.now bytes.now reals.now i }
{
    let n = wide(bytes[sparse::TERM_COUNTS + i]);
    let from = terms_before(bytes, i);
    let kind = wide(bytes[sparse::RELATIONS + i]);
    *lwords = [
        0,
        0,
        0,
        kind as u64,
        n as u64,
        words[sparse::CONSTRAINT_GROUPS + i],
    ];
    *lreals = [
        reals[sparse::CONSTRAINT_CONSTANTS + i],
        reals[sparse::CONSTRAINT_STRENGTHS + i],
    ];
    *variables = variables_of(words, bytes, from, n);
    *coefficients = coefficients_of(reals, from, n);
}

fn refuse(
    number: u64,
    lwords: &mut LineWords,
    lreals: &mut LineReals,
    variables: &mut Variables,
    coefficients: &mut Coefficients,
)
    ensures { line lwords.new lreals.new variables.new coefficients.new ≡ without number }
{
    *lwords = [0, number, 0, 0, 0, 0];
    *lreals = [0.0; LINE_REALS];
    *variables = [0; TERM_ROOM];
    *coefficients = [0.0; TERM_ROOM];
}

// 18 for tables that do not read as a state, then 5 for a number that is not live.
pub fn show(
    tables: &Tables,
    number: u32,
    lwords: &mut LineWords,
    lreals: &mut LineReals,
    variables: &mut Variables,
    coefficients: &mut Coefficients,
)
    ensures { line lwords.new lreals.new variables.new coefficients.new ≡ show_of number (lent tables.now) }
{
    if !reads_as_state(tables) {
        return refuse(18, lwords, lreals, variables, coefficients);
    }
    let c = tables.words[sparse::CONSTRAINT_COUNT] as usize;
    let i = look_up(tables.words, sparse::CONSTRAINT_NUMBERS, c, number as u64);
    if i < c {
        return hand_over(
            tables.words,
            tables.bytes,
            tables.reals,
            i,
            lwords,
            lreals,
            variables,
            coefficients,
        );
    }
    refuse(5, lwords, lreals, variables, coefficients)
}
