// The objective on tables that stand: a symbol inserted in it, or a row's cells.
// The five tables are parameters of their own here: which of them are read alone their types say, and a `TablesMut` would need a clause for each.
ghost use Rattle.std.specs.Prelude.{◌≡◌, false, ◌≤◌, get_or};
ghost use Rattle.steps.specs.Number.{worse};
ghost use Rattle.steps.specs.CreateRow.{insert_in_objective};
ghost use Rattle.steps.specs.Remove.{insert_row_in_objective};
ghost use Rattle.rows.specs.Marks.{mark_of};
ghost use Rattle.sparse.specs.Places.{symbol_count_at, row_count_at};
ghost use Rattle.sparse.specs.Sparse.{symbol_at, basic_of};
ghost use Rattle.layout.specs.cells.Names.{last_place};
ghost use Rattle.waist.specs.Working.{sparse};
ghost use Rattle.waist.specs.Dropping.{Free};
ghost use Rattle.waist.specs.Standing.{Standing, Makes};
ghost use Rattle.waist.specs.Goals.{symbol_goal, symbol_goal_mark};

use crate::substituting::objective::insert_cells;
use layout::cells::ROW_ROOM;
use layout::cells::row::load_row;
use rows::cell::{cell_value, insert_cell, mark_cell};
use rows::number::{OBJECTIVE_BOUND, Wrote, joined};
use sparse::{Bytes, CELL_COUNT, CUTOFF, Keys, OBJECTIVE, Reals, SYMBOL_COUNT, Values, Words};

fn insert_symbol(reals: &mut Reals, p: u8, k: f64, before: Wrote) -> Wrote
    requires { p ≤ last_place }
    ensures result_value { mark_of result ≡ worse (mark_of before) (symbol_goal_mark p k reals.old) }
    ensures reals_after { reals.new ≡ symbol_goal p k reals.old }
{
    let cutoff = reals[CUTOFF];
    let at = OBJECTIVE + p as usize;
    let c = insert_cell(cutoff, reals[at], k);
    reals[at] = cell_value(c);
    mark_cell(OBJECTIVE_BOUND, before, c)
}

// "in the objective with the strength": the symbol at place p, which is not basic.
pub fn insert_in_objective(
    words: &Words,
    keys: &Keys,
    bytes: &Bytes,
    reals: &mut Reals,
    values: &Values,
    p: u8,
    k: f64,
    before: Wrote,
) -> Wrote
    requires standing { Standing false (mark_of before) (sparse words.now keys.now bytes.now reals.old values.now) }
    requires le_p { 1 ≤ p }
    requires p_bound { p ≤ get_or words.now symbol_count_at 0 }
    requires free { Free p (sparse words.now keys.now bytes.now reals.old values.now) }
    ensures { Makes false false (mark_of before) (mark_of result) (insert_in_objective (symbol_at (sparse words.now keys.now bytes.now reals.old values.now) p).id k) (sparse words.now keys.now bytes.now reals.old values.now) (sparse words.now keys.now bytes.now reals.new values.now) }
{
    insert_symbol(reals, p, k, before)
}

// The cells of row i times k.
pub fn insert_row_in_objective(
    words: &Words,
    keys: &Keys,
    bytes: &Bytes,
    reals: &mut Reals,
    values: &Values,
    i: u8,
    k: f64,
    before: Wrote,
) -> Wrote
    requires standing { Standing false (mark_of before) (sparse words.now keys.now bytes.now reals.old values.now) }
    requires le_i { 1 ≤ i }
    requires i_bound { i ≤ get_or words.now row_count_at 0 }
    ensures { Makes false false (mark_of before) (mark_of result) (insert_row_in_objective (basic_of (sparse words.now keys.now bytes.now reals.old values.now) i).row k) (sparse words.now keys.now bytes.now reals.old values.now) (sparse words.now keys.now bytes.now reals.new values.now) }
{
    let mut row: [f64; ROW_ROOM] = [0.0; ROW_ROOM];
    let width = words[SYMBOL_COUNT] as usize;
    let n = words[CELL_COUNT] as usize;
    load_row(keys, values, n, i, width, &mut row);
    let cutoff = reals[CUTOFF];
    let w = insert_cells(cutoff, reals, &row, width, k);
    joined(before, w)
}
