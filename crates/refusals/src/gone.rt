// 25: "a removal would make a 33rd gone entry". Counted before the steps, of the variables that go with what is removed.
ghost use Rattle.std.specs.Prelude.{◌≡◌, ◌+◌, ◌<◌, ◌≤◌, get_or};
ghost use Rattle.sparse.specs.Places.{most_variables, most_constraints, most_terms, term_counts_at};
ghost use Rattle.sparse_test.specs.Tested.{term_count};
ghost use Rattle.laws.specs.Lists.{sum_in};
ghost use Rattle.refusals.specs.Refusals.{variables_in, constraints_in, Tabled, takes_in, edit_use, uses_at, taken_at, entry_at, entries_in, gone_full_in};

use crate::is_live;
use sparse::{Bytes, Reals, Words};
use sparse_test::stretch::wide;

// What a removal takes, as the call names it: the constraint of a number, the edit of a variable, the constraints of a group.
#[derive(Clone, Copy)]
pub enum Taken {
    Constraint(u32),
    Edit(u32),
    Group(u16),
}

fn takes(words: &Words, x: Taken, c: usize) -> bool
    requires { c < most_constraints }
    ensures { result ≡ takes_in words.now x c }
{
    match x {
        Taken::Constraint(n) => n as u64 == words[sparse::CONSTRAINT_NUMBERS + c],
        Taken::Edit(_) => false,
        Taken::Group(g) => g as u64 == words[sparse::CONSTRAINT_GROUPS + c],
    }
}

fn edit_use(x: Taken, n: u64) -> u64
    ensures value { result ≡ edit_use x n }
    ensures upper_bound { result ≤ 1 }
{
    match x {
        Taken::Constraint(_) => 0,
        Taken::Edit(m) => u64::from(n == m as u64),
        Taken::Group(_) => 0,
    }
}

// How many of the n terms from place `from` on are of the variable whose symbol stands at place p.
fn uses_at(bytes: &Bytes, from: usize, n: usize, p: u8) -> u64
    requires { from + n ≤ most_terms }
    ensures value { result ≡ uses_at bytes.now from n p }
    ensures upper_bound { result ≤ n }
{
    let mut s = 0;
    for j in 0..n {
        s += u64::from(p == bytes[sparse::TERMS + (from + j)]);
    }
    s
}

// Of the constraint at place c, if it is taken. Its terms start at place `from`.
fn taken_at(words: &Words, bytes: &Bytes, x: Taken, p: u8, c: usize, from: usize, n: usize) -> u64
    requires c_lt_most_constraints { c < most_constraints }
    requires n_bound { from + n ≤ most_terms }
    requires from_value { from ≡ term_count bytes.now c }
    requires n_value { n ≡ get_or bytes.now (term_counts_at + c) 0 }
    ensures value { result ≡ taken_at words.now bytes.now x p c }
    ensures upper_bound { result ≤ n }
{
    if !takes(words, x, c) {
        return 0;
    }
    uses_at(bytes, from, n, p)
}

// The constraints' terms stand one after the other: each starts where the one before it ends.
fn term_uses(words: &Words, bytes: &Bytes, x: Taken, p: u8) -> u64
    requires { Tabled words.now bytes.now }
    ensures value { result ≡ sum_in (taken_at words.now bytes.now x p) 0 (constraints_in words.now) }
    ensures upper_bound { result ≤ most_terms }
{
    let e = words[sparse::CONSTRAINT_COUNT] as usize;
    let mut s = 0;
    let mut from = 0;
    for c in 0..e {
        let n = wide(bytes[sparse::TERM_COUNTS + c]);
        s += taken_at(words, bytes, x, p, c, from, n);
        from += n;
    }
    s
}

// The variable at place i goes, was reported, and no gone entry waits for its number. NaN alone differs from itself.
fn makes_entry(words: &Words, bytes: &Bytes, reals: &Reals, x: Taken, i: usize) -> bool
    requires tabled { Tabled words.now bytes.now }
    requires i_lt_most_variables { i < most_variables }
    ensures { result ≡ entry_at words.now bytes.now reals.now x i }
{
    let n = words[sparse::VARIABLE_NUMBERS + i];
    let uses = words[sparse::VARIABLE_USES + i];
    let old = reals[sparse::OLD_VALUES + i];
    let g = words[sparse::GONE_COUNT] as usize;
    let waits = is_live(words, sparse::GONE_NUMBERS, g, n);
    let taken = edit_use(x, n) + term_uses(words, bytes, x, bytes[sparse::VARIABLE_PLACES + i]);
    // `old != old` as in `variables::less`: no law joins `is_nan` to what the definitions say.
    (0 < uses) & (uses <= taken) & !(old != old) & !waits
}

fn entries_made(words: &Words, bytes: &Bytes, reals: &Reals, x: Taken) -> u64
    requires { Tabled words.now bytes.now }
    ensures value { result ≡ entries_in words.now bytes.now reals.now x }
    ensures upper_bound { result ≤ variables_in words.now }
{
    let v = words[sparse::VARIABLE_COUNT] as usize;
    let mut s = 0;
    for i in 0..v {
        s += u64::from(makes_entry(words, bytes, reals, x, i));
    }
    s
}

// Where all live variables would find room, none is looked at.
pub fn gone_full(words: &Words, bytes: &Bytes, reals: &Reals, x: Taken) -> bool
    requires { Tabled words.now bytes.now }
    ensures { result ≡ gone_full_in words.now bytes.now reals.now x }
{
    let g = words[sparse::GONE_COUNT];
    let v = words[sparse::VARIABLE_COUNT];
    if g + v <= sparse::MOST_GONE as u64 {
        return false;
    }
    (sparse::MOST_GONE as u64) < g + entries_made(words, bytes, reals, x)
}
