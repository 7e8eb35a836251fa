// What the lent tables hold of a constraint or of an edit: where it stands, and its terms.
ghost use Rattle.std.specs.Prelude.{◌≡◌, ◌+◌, ◌≤◌, ◌<◌, get_or};
ghost use Rattle.sparse.specs.Places.{most_variables, most_constraints, bytes_size};
ghost use Rattle.sparse.specs.Places.{variable_numbers_at, term_counts_at};
ghost use Rattle.sparse.specs.Lookup.{Ascends, place_from};
ghost use Rattle.sparse_test.specs.Tested.{term_count};
ghost use Rattle.refusals.specs.Refusals.{variables_in, edits_in};
ghost use Rattle.solver.specs.Placed.{edit_place};
ghost use Rattle.solver.specs.StoredTerms.{variable_at, stored_term, stored_pack, Names, Terms};

use changes::terms::{Pack, Term};
use sparse::lookup::look_up;
use sparse::{Bytes, Reals, Words};
use sparse_test::asking::byte_from;

// Where the edit of the variable n stands, which is known to have one.
pub fn edit_place(words: &Words, bytes: &Bytes, n: u64) -> usize
    requires words_bound { variables_in words.now ≤ most_variables }
    requires words_bound_2 { edits_in words.now ≤ most_constraints }
    requires n_bound { place_from words.now variable_numbers_at (variables_in words.now) n < variables_in words.now }
    requires ascends { Ascends words.now variable_numbers_at (variables_in words.now) }
    ensures { result ≡ edit_place words.now bytes.now n }
{
    let v = words[sparse::VARIABLE_COUNT] as usize;
    let e = words[sparse::EDIT_COUNT] as usize;
    let z = look_up(words, sparse::VARIABLE_NUMBERS, v, n);
    byte_from(
        bytes,
        sparse::EDIT_VARIABLES,
        e,
        bytes[sparse::VARIABLE_PLACES + z],
    )
}

// The number of the variable whose symbol's place stands at byte q.
fn variable_at(words: &Words, bytes: &Bytes, q: usize) -> u32
    requires q_lt_bytes_size { q < bytes_size }
    requires names { Names words.now bytes.now q }
    ensures { result ≡ variable_at words.now bytes.now q }
{
    let v = words[sparse::VARIABLE_COUNT] as usize;
    let i = byte_from(bytes, sparse::VARIABLE_PLACES, v, bytes[q]);
    words[sparse::VARIABLE_NUMBERS + i] as u32
}

fn stored_term(words: &Words, bytes: &Bytes, reals: &Reals, from: usize, i: usize, n: usize) -> Term
    requires terms { Terms words.now bytes.now from n }
    requires i_lt_n { i < n }
    ensures { result ≡ stored_term words.now bytes.now reals.now from i }
{
    let variable = variable_at(words, bytes, sparse::TERMS + (from + i));
    Term {
        variable,
        coefficient: reals[sparse::COEFFICIENTS + (from + i)],
    }
}

// n terms of a stored constraint, as a pack.
pub fn stored_pack(words: &Words, bytes: &Bytes, reals: &Reals, from: usize, n: usize) -> Pack
    requires { Terms words.now bytes.now from n }
    ensures { result ≡ stored_pack words.now bytes.now reals.now from n }
{
    let mut p = changes::terms::none();
    for i in 0..n {
        let t = stored_term(words, bytes, reals, from, i, n);
        p = changes::terms::push(p, t);
    }
    p
}

fn wide(x: u8) -> usize
    ensures { result ≡ x }
{
    x as usize
}

// The terms of the j-th constraint.
pub fn constraint_terms(words: &Words, bytes: &Bytes, reals: &Reals, j: usize) -> Pack
    requires j_lt_most_constraints { j < most_constraints }
    requires terms { Terms words.now bytes.now (term_count bytes.now j) (get_or bytes.now (term_counts_at + j) 0) }
    ensures { result ≡ stored_pack words.now bytes.now reals.now (term_count bytes.now j) (get_or bytes.now (term_counts_at + j) 0) }
{
    let from = sparse_test::term_count(bytes, j);
    let n = wide(bytes[sparse::TERM_COUNTS + j]);
    stored_pack(words, bytes, reals, from, n)
}
