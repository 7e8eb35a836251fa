// Add's step 6, a row without a subject: the temporary slack comes, its row is optimised, and it goes.
ghost use Rattle.std.specs.Prelude.{◌≡◌, true, false, ℕ, ◌≤◌};
ghost use Rattle.steps.specs.Work as steps;
ghost use Rattle.steps.specs.Work.{going};
ghost use Rattle.steps.specs.Artificial.{remove_temporary, add_with_artificial_variable};
ghost use Rattle.rows.specs.Marks.{mark_of};
ghost use Rattle.std.specs.Prelude.{Some};
ghost use Rattle.sparse.specs.Sparse.{row_count, symbol_at};
ghost use Rattle.waist.specs.Working.{work_of};
ghost use Rattle.waist.specs.Standing.{Standing};
ghost use Rattle.waist.specs.Ending.{outcome_of, Goes, ended_of};
ghost use Rattle.addition.specs.Adding.{created_by, Fitting, Temporary};
ghost use Rattle.addition.specs.Removed.{Looked, out_of, closing_of};
ghost use Rattle.sparse.specs.Tables.{held, Same};

use layout::cells::ROW_ROOM;
use optimising::optimise;
use rows::number::{Wrote, near_zero};
use sparse::CUTOFF;
use sparse::refusal::Refusal;
use sparse::tables::TablesMut;
use waist::artificial::{artificial_constant, close_artificial, stand_temporary};
use waist::choices::{any_pivotable_symbol, is_empty_row, row_of};
use waist::ending::{Refused, Went, check_finite};
use waist::holding::pivot_on;
use waist::symbols::purge;

// "Remove the temporary everywhere."
fn purge_temporary(room: &mut TablesMut, p: u8, pivots: u32, before: Wrote) -> Result<Went, Refused>
    requires standing { Standing false (mark_of before) (held room.old) }
    requires temporary { Temporary p (held room.old) }
    ensures values_value { outcome_of false (ended_of result) (held room.new) ≡ going (steps.purge (symbol_at (held room.old) p).id (work_of false (mark_of before) pivots (held room.old))) }
    ensures goes { Goes false (ended_of result) (held room.new) }
    ensures same { Same room.old room.new }
{
    purge(room, p);
    Ok(Went {
        pivots,
        wrote: before,
    })
}

// "pivot on the row's first slack or Error (none: refuse 12)"
fn pivot_temporary(
    room: &mut TablesMut,
    p: u8,
    i: u8,
    pivots: u32,
    before: Wrote,
) -> Result<Went, Refused>
    requires standing { Standing false (mark_of before) (held room.old) }
    requires temporary { Temporary p (held room.old) }
    requires looked { Looked p (held room.old) (Some i) }
    requires le_i { 1 ≤ i }
    requires i_bound { i ≤ row_count (held room.old) }
    ensures values_value { outcome_of false (ended_of result) (held room.new) ≡ out_of before pivots (held room.old) (symbol_at (held room.old) p).id i }
    ensures goes { Goes false (ended_of result) (held room.new) }
    ensures same { Same room.old room.new }
{
    let f = any_pivotable_symbol(&room.lend(), i);
    let Some(q) = f else {
        return Err(Refused {
            why: Refusal::CannotBeMet,
            pivots,
            wrote: before,
        });
    };
    let w = pivot_on(false, room, i, q as u8, before);
    check_finite(pivots, w)?;
    purge_temporary(room, p, pivots, w)
}

// "If the temporary is still basic: drop an empty row, else pivot"
fn remove_temporary(
    room: &mut TablesMut,
    p: u8,
    pivots: u32,
    before: Wrote,
) -> Result<Went, Refused>
    requires standing { Standing false (mark_of before) (held room.old) }
    requires temporary { Temporary p (held room.old) }
    ensures values_value { outcome_of false (ended_of result) (held room.new) ≡ remove_temporary (symbol_at (held room.old) p) (work_of false (mark_of before) pivots (held room.old)) }
    ensures goes { Goes false (ended_of result) (held room.new) }
    ensures same { Same room.old room.new }
{
    let f = row_of(room.words, room.bytes, p);
    let Some(at) = f else {
        return purge_temporary(room, p, pivots, before);
    };
    let i = at as u8;
    if is_empty_row(&room.lend(), i) {
        return purge_temporary(room, p, pivots, before);
    }
    pivot_temporary(room, p, i, pivots, before)
}

// "Its constant not near zero: refuse 12." "The copy goes."
fn close_temporary(room: &mut TablesMut, p: u8, pivots: u32, before: Wrote) -> Result<Went, Refused>
    requires standing { Standing true (mark_of before) (held room.old) }
    requires temporary { Temporary p (held room.old) }
    ensures values_value { outcome_of false (ended_of result) (held room.new) ≡ closing_of (symbol_at (held room.old) p) (work_of true (mark_of before) pivots (held room.old)) }
    ensures goes { Goes false (ended_of result) (held room.new) }
    ensures same { Same room.old room.new }
{
    let x = artificial_constant(room.words, room.reals);
    if near_zero(room.reals[CUTOFF], x) {
        close_artificial(room.words, room.keys, room.bytes, room.reals, room.values);
        return remove_temporary(room, p, pivots, before);
    }
    Err(Refused {
        why: Refusal::CannotBeMet,
        pivots,
        wrote: before,
    })
}

// "Without: a temporary slack is basic with this row, a copy is the artificial objective; optimise it." The tag plays no part.
pub fn add_with_artificial(
    room: &mut TablesMut,
    row: &mut [f64; ROW_ROOM],
    budget: u32,
    before: Wrote,
) -> Result<Went, Refused>
    requires { Fitting (mark_of before) (held room.old) row.old }
    ensures by_index { (marker other : ℕ) → outcome_of false (ended_of result) (held room.new) ≡ add_with_artificial_variable budget (created_by (mark_of before) marker other (held room.old) row.old) }
    ensures goes { Goes false (ended_of result) (held room.new) }
    ensures same { Same room.old room.new }
{
    let p = stand_temporary(room, row, before);
    let passed = optimise(true, room, budget, 0, before)?;
    close_temporary(room, p, passed.pivots, passed.wrote)
}
