// A suggestion made where the records stand: it changes no record but its own suggestion, no symbol and no variable but their flags, so what it can change is written over the lent tables and the rest stays.
ghost use Rattle.std.specs.Prelude.{◌≡◌, true, cond, ◌+◌, ◌≤◌, ◌<◌, set};
ghost use Rattle.laws.specs.Given.{Then};
ghost use Rattle.steps.specs.Number.{is_finite};
ghost use Rattle.steps.specs.Calls.{suggest};
ghost use Rattle.layout.specs.cells.Names.{last_place, cell_room};
ghost use Rattle.sparse.specs.Places.{most_rows, most_variables, most_constraints, suggestions_at};
ghost use Rattle.sparse.specs.Sparse.{cell_count};
ghost use Rattle.sparse.specs.Form.{Counts};
ghost use Rattle.sparse_test.specs.Reads.{reads};
ghost use Rattle.lending.specs.sparse_copy.Over.{cleared};
ghost use Rattle.stored.specs.Suggested.{with_real};
ghost use Rattle.refusals.specs.Refusals.{edited_in};
ghost use Rattle.lending.specs.Lending.{answer_of, called, refused18, call_in, call_of};
ghost use Rattle.lending.specs.Entered.{Entered};
ghost use Rattle.solver.specs.Backed.{back_words, back_bytes, back_reals, back_over};
ghost use Rattle.sparse.specs.Tables.{held, lent, Same};

use crate::begin::{accepted, mark_bit, refused, refused_by_test};
use crate::suggest::drag;
use lending::Answer;
use lending::sparse_copy::put;
use rows::number::Wrote;
use sparse::tables::TablesMut;
use sparse::{Bytes, Reals, Words};

fn put_words(words: &mut Words, wwords: &Words, wrote: Wrote)
    ensures { words.new ≡ back_words wrote wwords.now words.old }
{
    words[sparse::CELL_COUNT] = wwords[sparse::CELL_COUNT];
    words[sparse::SHOULD_CLEAR] = wwords[sparse::SHOULD_CLEAR];
    words[sparse::WHOLE] = mark_bit(wrote);
}

fn put_bytes(bytes: &mut Bytes, wbytes: &Bytes, r: usize, v: usize)
    requires r_le_most_rows { r ≤ most_rows }
    requires v_le_most_variables { v ≤ most_variables }
    ensures { bytes.new ≡ back_bytes wbytes.now r v bytes.old }
{
    put::part(bytes, wbytes, sparse::ROW_PLACES + 1, r);
    put::part(bytes, wbytes, sparse::CHANGED, v);
}

fn put_reals(reals: &mut Reals, wreals: &Reals, k: usize, r: usize, j: usize, new: f64)
    requires k_le_last_place { k ≤ last_place }
    requires r_le_most_rows { r ≤ most_rows }
    requires j_lt_most_constraints { j < most_constraints }
    ensures { reals.new ≡ set (back_reals wreals.now k r reals.old) (suggestions_at + j) new }
{
    put::part(reals, wreals, sparse::CONSTANTS + 1, r);
    put::part(reals, wreals, sparse::OBJECTIVE + 1, k);
    reals[sparse::SUGGESTIONS + j] = new;
}

// What the steps left in the room, and the j-th edit's new suggestion.
fn put_back(tables: &mut TablesMut, room: &TablesMut, wrote: Wrote, j: usize, new: f64)
    requires counts { Counts (held tables.old) }
    requires wvalues_bound { cell_count (held room.now) ≤ cell_room }
    requires j_lt_most_constraints { j < most_constraints }
    ensures does { held tables.new ≡ with_real (back_over wrote (held room.now) (held tables.old)) (suggestions_at + j) new }
    ensures same { Same tables.old tables.new }
{
    let wwords = &*room.words;
    let k = tables.words[sparse::SYMBOL_COUNT] as usize;
    let r = tables.words[sparse::ROW_COUNT] as usize;
    let v = tables.words[sparse::VARIABLE_COUNT] as usize;
    let n = wwords[sparse::CELL_COUNT] as usize;
    put_words(tables.words, wwords, wrote);
    put::part(tables.keys, room.keys, 0, n);
    put::part(tables.values, room.values, 0, n);
    put_bytes(tables.bytes, room.bytes, r, v);
    put_reals(tables.reals, room.reals, k, r, j, new);
}

// The tests passed: the variable has an edit, and the suggestion is finite.
fn suggest_known(
    tables: &mut TablesMut,
    room: &mut TablesMut,
    n: u32,
    new: f64,
    budget: u32,
) -> Answer
    requires entered { Entered (held tables.old) (held room.old) }
    requires value { is_finite new ≡ true }
    requires n_value { edited_in tables.old.words.now tables.old.bytes.now n ≡ true }
    ensures does { called (answer_of result) (held tables.new) ≡ call_in (suggest n new budget) (held tables.old) }
    ensures same_tables { Same tables.old tables.new }
    ensures same_room { Same room.old room.new }
{
    tables.long();
    let j = crate::looks::edit_place(tables.words, tables.bytes, n as u64);
    let went = match drag(&tables.lend(), room, j, new, budget) {
        Ok(went) => went,
        Err(e) => return refused(e),
    };
    put_back(tables, room, went.wrote, j, new);
    accepted(went)
}

// "Suggest: 18, 1, 8." The stored suggestion changes only if the call is accepted.
pub fn suggest_back(
    tables: &mut TablesMut,
    room: &mut TablesMut,
    n: u32,
    new: f64,
    budget: u32,
) -> Answer
    requires { Entered (held tables.old) (held room.old) }
    ensures does { called (answer_of result) (held tables.new) ≡ call_in (suggest n new budget) (held tables.old) }
    ensures same_tables { Same tables.old tables.new }
    ensures same_room { Same room.old room.new }
{
    if let Err(why) = refusals::suggest_tests(tables.words, tables.bytes, n, new) {
        return refused_by_test(tables.words, why);
    }
    suggest_known(tables, room, n, new, budget)
}

fn suggest_if(
    ok: bool,
    tables: &mut TablesMut,
    room: &mut TablesMut,
    n: u32,
    new: f64,
    budget: u32,
) -> Answer
    requires { Then ok (Entered (held tables.old) (held room.old)) }
    ensures does { called (answer_of result) (held tables.new) ≡ cond ok (call_in (suggest n new budget) (held tables.old)) (called refused18 (held tables.old)) }
    ensures same_tables { Same tables.old tables.new }
    ensures same_room { Same room.old room.new }
{
    if !ok {
        return lending::refuse18();
    }
    suggest_back(tables, room, n, new, budget)
}

// The whole call: the tables tested, the room entered and cleared.
pub fn suggest_tested(
    tables: &mut TablesMut,
    room: &mut TablesMut,
    n: u32,
    new: f64,
    budget: u16,
) -> Answer
    ensures values_value { called (answer_of result) (held tables.new) ≡ call_of (suggest n new budget) (held room.old) (held tables.old) }
    ensures wvalues_value { held room.new ≡ cleared (held room.old) }
    ensures same_tables { Same tables.old tables.new }
    ensures same_room { Same room.old room.new }
{
    let ok = lending::enter(&tables.lend(), room);
    let a = suggest_if(ok, tables, room, n, new, budget as u32);
    lending::room::clear(room);
    a
}

// The second door's, for tables that are known to read as a state and that nobody else writes: no test, no room cleared. It works in place, so tables and room do not change places.
pub fn suggest_held(
    tables: &mut TablesMut,
    room: &mut TablesMut,
    n: u32,
    new: f64,
    budget: u16,
) -> Answer
    requires { reads (held tables.old) ≡ true }
    ensures values_value { called (answer_of result) (held tables.new) ≡ call_in (suggest n new budget) (held tables.old) }
    ensures values_value_2 { reads (held tables.new) ≡ true }
    ensures same_tables { Same tables.old tables.new }
    ensures same_room { Same room.old room.new }
{
    tables.long();
    lending::enter_held(&tables.lend(), room);
    suggest_back(tables, room, n, new, budget as u32)
}
