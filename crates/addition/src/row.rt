// Add's steps 4 to 7, once the row is created.
ghost use Rattle.std.specs.Prelude.{◌≡◌, false};
ghost use Rattle.steps.specs.Add.{add_created};
ghost use Rattle.rows.specs.Marks.{mark_of};
ghost use Rattle.sparse.specs.Sparse.{symbol_at};
ghost use Rattle.waist.specs.Ending.{outcome_of, Goes, ended_of};
ghost use Rattle.addition.specs.Adding.{created_by, Fitting, Open, Made};
ghost use Rattle.addition.specs.Chosen.{dummies_of, unchosen_of};
ghost use Rattle.addition.specs.Stepped.{added_row};
ghost use Rattle.sparse.specs.Tables.{held, Same};

use crate::subject::add_with_subject;
use crate::temporary::add_with_artificial;
use layout::cells::ROW_ROOM;
use optimising::optimise;
use rows::number::{Wrote, near_zero};
use sparse::CUTOFF;
use sparse::refusal::Refusal;
use sparse::tables::TablesMut;
use waist::ending::{Refused, Went, check_finite};
use waist::subject::{all_dummies, choose_subject};

// "refuse 12 unless the constant is near zero, else the subject is the marker"
fn add_dummies(
    room: &mut TablesMut,
    row: &mut [f64; ROW_ROOM],
    marker: u8,
    other: u8,
    before: Wrote,
) -> Result<Went, Refused>
    requires fitting { Fitting (mark_of before) (held room.old) row.old }
    requires fact { Open marker (held room.old) }
    ensures values_value { outcome_of false (ended_of result) (held room.new) ≡ dummies_of (symbol_at (held room.old) marker) (created_by (mark_of before) marker other (held room.old) row.old) }
    ensures goes { Goes false (ended_of result) (held room.new) }
    ensures same { Same room.old room.new }
{
    if near_zero(room.reals[CUTOFF], row[0]) {
        return add_with_subject(room, row, marker, before);
    }
    Err(Refused {
        why: Refusal::CannotBeMet,
        pivots: 0,
        wrote: before,
    })
}

fn add_without_subject(
    room: &mut TablesMut,
    row: &mut [f64; ROW_ROOM],
    marker: u8,
    other: u8,
    budget: u32,
    before: Wrote,
) -> Result<Went, Refused>
    requires fitting { Fitting (mark_of before) (held room.old) row.old }
    requires fact { Open marker (held room.old) }
    ensures values_value { outcome_of false (ended_of result) (held room.new) ≡ unchosen_of budget (created_by (mark_of before) marker other (held room.old) row.old) }
    ensures goes { Goes false (ended_of result) (held room.new) }
    ensures same { Same room.old room.new }
{
    if all_dummies(room.words, room.bytes, row) {
        return add_dummies(room, row, marker, other, before);
    }
    add_with_artificial(room, row, budget, before)
}

// "Subject: .. If none and all cells are dummies: ..": then step 5 or 6.
fn add_created(
    room: &mut TablesMut,
    row: &mut [f64; ROW_ROOM],
    marker: u8,
    other: u8,
    budget: u32,
    before: Wrote,
) -> Result<Went, Refused>
    requires { Made (mark_of before) marker other (held room.old) row.old }
    ensures values_value { outcome_of false (ended_of result) (held room.new) ≡ add_created budget (created_by (mark_of before) marker other (held room.old) row.old) }
    ensures goes { Goes false (ended_of result) (held room.new) }
    ensures same { Same room.old room.new }
{
    let f = choose_subject(room.words, room.bytes, row, marker, other);
    let Some(p) = f else {
        return add_without_subject(room, row, marker, other, budget, before);
    };
    add_with_subject(room, row, p as u8, before)
}

// What follows once the row is created; the two passes share one budget.
pub fn add_row(
    room: &mut TablesMut,
    row: &mut [f64; ROW_ROOM],
    marker: u8,
    other: u8,
    budget: u32,
    before: Wrote,
) -> Result<Went, Refused>
    requires { Made (mark_of before) marker other (held room.old) row.old }
    ensures values_value { outcome_of false (ended_of result) (held room.new) ≡ added_row budget (created_by (mark_of before) marker other (held room.old) row.old) }
    ensures goes { Goes false (ended_of result) (held room.new) }
    ensures same { Same room.old room.new }
{
    check_finite(0, before)?;
    let added = add_created(room, row, marker, other, budget, before)?;
    optimise(false, room, budget, added.pivots, added.wrote)
}
