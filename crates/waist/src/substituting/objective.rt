// In the objective, which stands dense along the places.
ghost use Rattle.std.specs.Prelude.{◌≡◌, ◌+◌, ◌≤◌, ◌<◌, get_or, set};
ghost use Rattle.std.specs.Float.{nan};
ghost use Rattle.laws.specs.Loops.{run};
ghost use Rattle.steps.specs.Number.{objective_bound, all_whole};
ghost use Rattle.rows.specs.Marks.{mark_of};
ghost use Rattle.rows.specs.Table.{inserted_value, inserted_mark};
ghost use Rattle.sparse.specs.Places.{objective_at};
ghost use Rattle.layout.specs.cells.Names.{last_place};
ghost use Rattle.waist.specs.substituting.Objective.{aim, aim_turn, objective_in};

use layout::cells::ROW_ROOM;
use rows::cell::{cell_value, insert_cell, mark_cell};
use rows::number::{OBJECTIVE_BOUND, Wrote, nothing};
use sparse::{OBJECTIVE, Reals};

// The cell at place p gets o times k; an absent o is passed over.
pub fn insert_at(cutoff: f64, reals: &mut Reals, p: usize, o: f64, k: f64, before: Wrote) -> Wrote
    requires { p ≤ last_place }
    ensures result_value { mark_of result ≡ inserted_mark cutoff objective_bound k (mark_of before) (get_or reals.old (objective_at + p) nan) o }
    ensures reals_after { reals.new ≡ set reals.old (objective_at + p) (inserted_value cutoff k (get_or reals.old (objective_at + p) nan) o) }
{
    if o == 0.0 {
        return before;
    }
    let c = insert_cell(cutoff, reals[OBJECTIVE + p], o * k);
    reals[OBJECTIVE + p] = cell_value(c);
    mark_cell(OBJECTIVE_BOUND, before, c)
}

// The cells of a dense row along `width` places, times k.
pub fn insert_cells(
    cutoff: f64,
    reals: &mut Reals,
    row: &[f64; ROW_ROOM],
    width: usize,
    k: f64,
) -> Wrote
    requires { width ≤ last_place }
    ensures { aim reals.new (mark_of result) ≡ run (aim_turn cutoff k row.now) 1 (width + 1) (aim reals.old all_whole) }
{
    let mut w = nothing();
    for p in 1..width + 1 {
        w = insert_at(cutoff, reals, p, row[p], k, w);
    }
    w
}

// "Substitute s: s's cell k goes, then insert row times k.": s stands at place `at`, the row is dense along `width` places.
pub fn substitute_objective(
    cutoff: f64,
    reals: &mut Reals,
    at: usize,
    row: &[f64; ROW_ROOM],
    width: usize,
) -> Wrote
    requires at_le_last_place { at ≤ last_place }
    requires width_le_last_place { width ≤ last_place }
    ensures { aim reals.new (mark_of result) ≡ objective_in cutoff at width row.now reals.old }
{
    let k = reals[OBJECTIVE + at];
    if k == 0.0 {
        return nothing();
    }
    reals[OBJECTIVE + at] = 0.0;
    insert_cells(cutoff, reals, row, width, k)
}
