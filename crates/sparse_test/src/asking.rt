// The queries, over sparse tables: has constraint, has edit, value. "Queries give false or 0.0 for an unknown number, and beside 18."
ghost use Rattle.std.specs.Prelude.{◌≡◌, true, false, ◌+◌, ◌≤◌};
ghost use Rattle.steps.specs.Number.{zero64};
ghost use Rattle.steps.specs.Changes.{value};
ghost use Rattle.steps.specs.Tests.{has_constraint, has_edit};
ghost use Rattle.sparse.specs.Places.{most_rows, most_variables, most_constraints, variable_numbers_at, bytes_size};
ghost use Rattle.sparse.specs.Sparse.{read};
ghost use Rattle.sparse_test.specs.Reads.{reads};
ghost use Rattle.sparse_test.specs.Whole.{tables};
ghost use Rattle.sparse.specs.Lookup.{Ascends, place_from};
ghost use Rattle.sparse_test.specs.Asked.{asked, constant_of, value_in, edit_in};
ghost use Rattle.sparse.specs.Tables.{lent};

use crate::reads_as_state;
use sparse::lookup::look_up;
use sparse::tables::Tables;
use sparse::{Bytes, Reals, Words};

// Which of the n bytes from place a on is x; n if none is. Variables' and edits' bytes stand in no order.
pub fn byte_from(bytes: &Bytes, a: usize, n: usize, x: u8) -> usize
    requires { a + n ≤ bytes_size }
    ensures value { result ≡ place_from bytes.now a n x }
    ensures upper_bound { result ≤ n }
{
    (0..n).find(|i| x == bytes[a + *i]).unwrap_or(n)
}

// The constant of the row whose symbol stands at place p, or 0.0.
pub fn constant_of(bytes: &Bytes, reals: &Reals, r: usize, p: u8) -> f64
    requires { r ≤ most_rows }
    ensures { result ≡ constant_of bytes.now reals.now r p }
{
    let i = byte_from(bytes, sparse::ROW_PLACES + 1, r, p);
    if i < r {
        reals[sparse::CONSTANTS + 1 + i]
    } else {
        0.0
    }
}

fn value_in(words: &Words, bytes: &Bytes, reals: &Reals, v: usize, r: usize, n: u64) -> f64
    requires v_le_most_variables { v ≤ most_variables }
    requires r_le_most_rows { r ≤ most_rows }
    requires ascends { Ascends words.now variable_numbers_at v }
    ensures { result ≡ value_in words.now bytes.now reals.now v r n }
{
    let i = look_up(words, sparse::VARIABLE_NUMBERS, v, n);
    if i < v {
        constant_of(bytes, reals, r, bytes[sparse::VARIABLE_PLACES + i])
    } else {
        0.0
    }
}

pub fn edit_in(words: &Words, bytes: &Bytes, v: usize, e: usize, n: u64) -> bool
    requires v_le_most_variables { v ≤ most_variables }
    requires e_le_most_constraints { e ≤ most_constraints }
    requires ascends { Ascends words.now variable_numbers_at v }
    ensures { result ≡ edit_in words.now bytes.now v e n }
{
    let i = look_up(words, sparse::VARIABLE_NUMBERS, v, n);
    if i < v {
        byte_from(
            bytes,
            sparse::EDIT_VARIABLES,
            e,
            bytes[sparse::VARIABLE_PLACES + i],
        ) < e
    } else {
        false
    }
}

// The same on tables that are known to read as a state.
pub fn has_constraint_held(tables: &Tables, n: u32) -> bool
    requires { reads (lent tables.now) ≡ true }
    ensures { result ≡ has_constraint n (read (lent tables.now)) }
{
    let c = tables.words[sparse::CONSTRAINT_COUNT] as usize;
    look_up(tables.words, sparse::CONSTRAINT_NUMBERS, c, n as u64) < c
}

pub fn has_constraint(tables: &Tables, n: u32) -> bool
    ensures { result ≡ asked (has_constraint n) false (lent tables.now) }
{
    if !reads_as_state(tables) {
        return false;
    }
    has_constraint_held(tables, n)
}

// The same on tables that are known to read as a state.
pub fn has_edit_held(tables: &Tables, n: u32) -> bool
    requires { reads (lent tables.now) ≡ true }
    ensures { result ≡ has_edit n (read (lent tables.now)) }
{
    let v = tables.words[sparse::VARIABLE_COUNT] as usize;
    let e = tables.words[sparse::EDIT_COUNT] as usize;
    edit_in(tables.words, tables.bytes, v, e, n as u64)
}

pub fn has_edit(tables: &Tables, n: u32) -> bool
    ensures { result ≡ asked (has_edit n) false (lent tables.now) }
{
    if !reads_as_state(tables) {
        return false;
    }
    has_edit_held(tables, n)
}

// The same on tables that are known to read as a state.
pub fn get_value_held(tables: &Tables, n: u32) -> f64
    requires { reads (lent tables.now) ≡ true }
    ensures { result ≡ value n (read (lent tables.now)) }
{
    let v = tables.words[sparse::VARIABLE_COUNT] as usize;
    let r = tables.words[sparse::ROW_COUNT] as usize;
    value_in(tables.words, tables.bytes, tables.reals, v, r, n as u64)
}

pub fn get_value(tables: &Tables, n: u32) -> f64
    ensures { result ≡ asked (value n) zero64 (lent tables.now) }
{
    if !reads_as_state(tables) {
        return 0.0;
    }
    get_value_held(tables, n)
}
