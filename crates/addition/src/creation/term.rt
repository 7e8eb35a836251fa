// Step 1: each term's variable is found or made, its use counted, and its row or its symbol inserted in the row that is being built.
// The five tables are parameters of their own here: which of them are read alone their types say, and a `TablesMut` would need a clause for each.
ghost use Rattle.std.specs.Prelude.{◌≡◌, false, ◌+◌, ◌≤◌, ◌<◌, get_or};
ghost use Rattle.steps.specs.Number.{Mark, near_zero};
ghost use Rattle.steps.specs.Row.{insert_row};
ghost use Rattle.steps.specs.CreateRow.{written, add_variable, insert_variable, insert_term, insert_terms};
ghost use Rattle.rows.specs.Marks.{mark_of};
ghost use Rattle.std.specs.Prelude.{None};
ghost use Rattle.layout.specs.cells.Names.{last_place};
ghost use Rattle.sparse.specs.Places.{most_variables, symbol_count_at, row_count_at};
ghost use Rattle.sparse.specs.Sparse.{symbol_count, row_count, variable_count, symbol_at, basic_of};
ghost use Rattle.changes.specs.terms.Terms.{terms_of};
ghost use Rattle.variables.specs.Variables.{found_in};
ghost use Rattle.waist.specs.Working.{cutoff_of, Sound, sparse};
ghost use Rattle.waist.specs.Standing.{Owners, Standing};
ghost use Rattle.waist.specs.Growing.{next_id};
ghost use Rattle.addition.specs.creation.Building.{Builds};
ghost use Rattle.addition.specs.creation.Steps.{Used, most_spare, Room, Steps};
ghost use Rattle.addition.specs.creation.Known.{Knows};
ghost use Rattle.addition.specs.creation.Terms.{used_by, term_of, kept_by};
ghost use Rattle.addition.specs.creation.Going.{Ready};

use changes::terms::{Pack, shown};
use layout::cells::ROW_ROOM;
use layout::cells::row::load_row;
use rows::number::{CELL_BOUND, Wrote, joined, near_zero};
use rows::row::{insert_row, insert_symbol};
use sparse::{
    Bytes, CELL_COUNT, CONSTANTS, CUTOFF, Keys, Reals, SYMBOL_COUNT, VARIABLE_PLACES, Values, Words,
};
use variables::found::{count_use, find_variable};
use variables::kept::keep_variable;
use waist::choices::row_of;
use waist::kinds::Kind;
use waist::symbols::append_symbol;

// A new variable with a new symbol.
fn new_variable(
    words: &mut Words,
    keys: &Keys,
    bytes: &mut Bytes,
    reals: &mut Reals,
    values: &Values,
    row: &mut [f64; ROW_ROOM],
    n: u64,
)
    requires sound { Sound false (sparse words.old keys.now bytes.old reals.old values.now) }
    requires values_bound { symbol_count (sparse words.old keys.now bytes.old reals.old values.now) < last_place }
    requires values_bound_2 { next_id (sparse words.old keys.now bytes.old reals.old values.now) < 9223372036854775808 }
    requires values_bound_3 { variable_count (sparse words.old keys.now bytes.old reals.old values.now) < most_variables }
    requires words_value { found_in n words.old ≡ None }
    ensures { (a : Mark) → Standing false a (sparse words.old keys.now bytes.old reals.old values.now) → (Builds a a (add_variable n) (sparse words.old keys.now bytes.old reals.old values.now) (sparse words.new keys.now bytes.new reals.new values.now) row.old row.new) × Steps 1 0 (sparse words.old keys.now bytes.old reals.old values.now) (sparse words.new keys.now bytes.new reals.new values.now) }
{
    let p = append_symbol(words, keys, bytes, reals, values, Kind::External);
    row[usize::from(p)] = 0.0;
    keep_variable(words, bytes, reals, n, p);
}

// The variable gets a symbol if new.
fn know_variable(
    words: &mut Words,
    keys: &Keys,
    bytes: &mut Bytes,
    reals: &mut Reals,
    values: &Values,
    row: &mut [f64; ROW_ROOM],
    n: u64,
)
    requires sound { Sound false (sparse words.old keys.now bytes.old reals.old values.now) }
    requires room { Room n (sparse words.old keys.now bytes.old reals.old values.now) }
    requires owners { Owners (sparse words.old keys.now bytes.old reals.old values.now) }
    ensures { (a : Mark) → Standing false a (sparse words.old keys.now bytes.old reals.old values.now) → Knows n a (sparse words.old keys.now bytes.old reals.old values.now) (sparse words.new keys.now bytes.new reals.new values.now) row.old row.new }
{
    let f = find_variable(words, n);
    let Some(_i) = f else {
        new_variable(words, keys, bytes, reals, values, row, n);
        return;
    };
}

// Row i in the row with k, with room for it as it is loaded.
fn insert_loaded(
    words: &Words,
    keys: &Keys,
    bytes: &Bytes,
    reals: &Reals,
    values: &Values,
    row: &mut [f64; ROW_ROOM],
    i: u8,
    k: f64,
    past: Wrote,
    other: &mut [f64; ROW_ROOM],
) -> Wrote
    requires standing { Standing false (mark_of past) (sparse words.now keys.now bytes.now reals.now values.now) }
    requires le_i { 1 ≤ i }
    requires i_bound { i ≤ get_or words.now row_count_at 0 }
    ensures { Builds (mark_of past) (mark_of result) (λ b. written (insert_row b.work.tableau.cutoff (basic_of (sparse words.now keys.now bytes.now reals.now values.now) i).row k b.row) b.work) (sparse words.now keys.now bytes.now reals.now values.now) (sparse words.now keys.now bytes.now reals.now values.now) row.old row.new }
{
    let width = words[SYMBOL_COUNT] as usize;
    load_row(keys, values, words[CELL_COUNT] as usize, i, width, other);
    other[0] = reals[CONSTANTS + usize::from(i)];
    let w = insert_row(reals[CUTOFF], row, other, k, width);
    joined(past, w.wrote)
}

// Row i in the row with k.
fn insert_basic(
    words: &Words,
    keys: &Keys,
    bytes: &Bytes,
    reals: &Reals,
    values: &Values,
    row: &mut [f64; ROW_ROOM],
    i: u8,
    k: f64,
    past: Wrote,
) -> Wrote
    requires standing { Standing false (mark_of past) (sparse words.now keys.now bytes.now reals.now values.now) }
    requires le_i { 1 ≤ i }
    requires i_bound { i ≤ get_or words.now row_count_at 0 }
    ensures { Builds (mark_of past) (mark_of result) (λ b. written (insert_row b.work.tableau.cutoff (basic_of (sparse words.now keys.now bytes.now reals.now values.now) i).row k b.row) b.work) (sparse words.now keys.now bytes.now reals.now values.now) (sparse words.now keys.now bytes.now reals.now values.now) row.old row.new }
{
    let mut other: [f64; ROW_ROOM] = [0.0; ROW_ROOM];
    insert_loaded(
        words, keys, bytes, reals, values, row, i, k, past, &mut other,
    )
}

// The row of the symbol at place p if it is basic, and else the symbol.
fn insert_variable(
    words: &Words,
    keys: &Keys,
    bytes: &Bytes,
    reals: &Reals,
    values: &Values,
    row: &mut [f64; ROW_ROOM],
    p: u8,
    k: f64,
    past: Wrote,
) -> Wrote
    requires standing { Standing false (mark_of past) (sparse words.now keys.now bytes.now reals.now values.now) }
    requires le_p { 1 ≤ p }
    requires p_bound { p ≤ get_or words.now symbol_count_at 0 }
    ensures { Builds (mark_of past) (mark_of result) (insert_variable (symbol_at (sparse words.now keys.now bytes.now reals.now values.now) p) k) (sparse words.now keys.now bytes.now reals.now values.now) (sparse words.now keys.now bytes.now reals.now values.now) row.old row.new }
{
    let f = row_of(words, bytes, p);
    let Some(i) = f else {
        let w = insert_symbol(reals[CUTOFF], row, usize::from(p), k, CELL_BOUND);
        return joined(past, w);
    };
    insert_basic(words, keys, bytes, reals, values, row, i as u8, k, past)
}

// The variable of this number, its use counted, in the row with k.
fn insert_known(
    words: &mut Words,
    keys: &Keys,
    bytes: &Bytes,
    reals: &Reals,
    values: &Values,
    row: &mut [f64; ROW_ROOM],
    n: u64,
    k: f64,
    past: Wrote,
) -> Wrote
    requires standing { Standing false (mark_of past) (sparse words.old keys.now bytes.now reals.now values.now) }
    requires used { Used most_spare (sparse words.old keys.now bytes.now reals.now values.now) }
    ensures builds { Builds (mark_of past) (mark_of result) (used_by n k) (sparse words.old keys.now bytes.now reals.now values.now) (sparse words.new keys.now bytes.now reals.now values.now) row.old row.new }
    ensures steps { Steps 0 1 (sparse words.old keys.now bytes.now reals.now values.now) (sparse words.new keys.now bytes.now reals.now values.now) }
{
    let f = find_variable(words, n);
    let Some(v) = f else {
        return past;
    };
    count_use(words, v);
    insert_variable(
        words,
        keys,
        bytes,
        reals,
        values,
        row,
        bytes[VARIABLE_PLACES + v],
        k,
        past,
    )
}

// One term whose coefficient is not near zero.
fn insert_term(
    words: &mut Words,
    keys: &Keys,
    bytes: &mut Bytes,
    reals: &mut Reals,
    values: &Values,
    row: &mut [f64; ROW_ROOM],
    n: u64,
    k: f64,
    past: Wrote,
) -> Wrote
    requires standing { Standing false (mark_of past) (sparse words.old keys.now bytes.old reals.old values.now) }
    requires room { Room n (sparse words.old keys.now bytes.old reals.old values.now) }
    requires used { Used most_spare (sparse words.old keys.now bytes.old reals.old values.now) }
    ensures builds { Builds (mark_of past) (mark_of result) (insert_term (term_of n k)) (sparse words.old keys.now bytes.old reals.old values.now) (sparse words.new keys.now bytes.new reals.new values.now) row.old row.new }
    ensures steps { Steps 1 1 (sparse words.old keys.now bytes.old reals.old values.now) (sparse words.new keys.now bytes.new reals.new values.now) }
{
    know_variable(words, keys, bytes, reals, values, row, n);
    insert_known(words, keys, bytes, reals, values, row, n, k, past)
}

// One term, a coefficient that is near zero by the cutoff skipped.
fn insert_kept(
    cutoff: f64,
    words: &mut Words,
    keys: &Keys,
    bytes: &mut Bytes,
    reals: &mut Reals,
    values: &Values,
    row: &mut [f64; ROW_ROOM],
    n: u64,
    k: f64,
    past: Wrote,
) -> Wrote
    requires standing { Standing false (mark_of past) (sparse words.old keys.now bytes.old reals.old values.now) }
    requires room { near_zero cutoff k ≡ false → Room n (sparse words.old keys.now bytes.old reals.old values.now) }
    requires used { Used most_spare (sparse words.old keys.now bytes.old reals.old values.now) }
    ensures builds { Builds (mark_of past) (mark_of result) (kept_by cutoff n k) (sparse words.old keys.now bytes.old reals.old values.now) (sparse words.new keys.now bytes.new reals.new values.now) row.old row.new }
    ensures steps { Steps 1 1 (sparse words.old keys.now bytes.old reals.old values.now) (sparse words.new keys.now bytes.new reals.new values.now) }
{
    if near_zero(cutoff, k) {
        return past;
    }
    insert_term(words, keys, bytes, reals, values, row, n, k, past)
}

// Each term in order.
pub fn insert_terms(
    words: &mut Words,
    keys: &Keys,
    bytes: &mut Bytes,
    reals: &mut Reals,
    values: &Values,
    row: &mut [f64; ROW_ROOM],
    p: Pack,
    past: Wrote,
) -> Wrote
    requires { Ready (mark_of past) (terms_of p) (sparse words.old keys.now bytes.old reals.old values.now) }
    ensures builds { Builds (mark_of past) (mark_of result) (insert_terms (cutoff_of (sparse words.old keys.now bytes.old reals.old values.now)) (terms_of p)) (sparse words.old keys.now bytes.old reals.old values.now) (sparse words.new keys.now bytes.new reals.new values.now) row.old row.new }
    ensures values_bound { (symbol_count (sparse words.new keys.now bytes.new reals.new values.now) ≤ 126) × (row_count (sparse words.new keys.now bytes.new reals.new values.now) ≡ row_count (sparse words.old keys.now bytes.old reals.old values.now)) × (next_id (sparse words.new keys.now bytes.new reals.new values.now) ≤ 4294900016) }
{
    let e = shown(p);
    let vars = p.vars;
    let coefs = p.coefs;
    let cutoff = reals[CUTOFF];
    let mut w = past;
    for j in 0..e {
        w = insert_kept(
            cutoff,
            words,
            keys,
            bytes,
            reals,
            values,
            row,
            u64::from(vars[j]),
            coefs[j],
            w,
        );
    }
    w
}
