// Add's step 5: a row with a subject.
ghost use Rattle.std.specs.Prelude.{◌≡◌, false, ℕ};
ghost use Rattle.steps.specs.Add.{add_with_subject};
ghost use Rattle.rows.specs.Marks.{mark_of};
ghost use Rattle.sparse.specs.Sparse.{symbol_at};
ghost use Rattle.waist.specs.Ending.{outcome_of, Goes, ended_of};
ghost use Rattle.addition.specs.Adding.{created_by, Fitting, Open};
ghost use Rattle.sparse.specs.Tables.{held, Same};

use layout::cells::ROW_ROOM;
use rows::number::{Wrote, joined};
use rows::row::solve_for;
use sparse::SYMBOL_COUNT;
use sparse::tables::TablesMut;
use waist::ending::{Refused, Went, check_finite};
use waist::holding::enter_on;

// "With a subject: solve, substitute, note an External with non-zero constant, keep the row." The tag plays no part.
pub fn add_with_subject(
    room: &mut TablesMut,
    row: &mut [f64; ROW_ROOM],
    p: u8,
    before: Wrote,
) -> Result<Went, Refused>
    requires fitting { Fitting (mark_of before) (held room.old) row.old }
    requires fact { Open p (held room.old) }
    ensures by_index { (marker other : ℕ) → outcome_of false (ended_of result) (held room.new) ≡ add_with_subject (symbol_at (held room.old) p) (created_by (mark_of before) marker other (held room.old) row.old) }
    ensures goes { Goes false (ended_of result) (held room.new) }
    ensures same { Same room.old room.new }
{
    let width = room.words[SYMBOL_COUNT] as usize;
    let u = solve_for(row, usize::from(p), width);
    let past = joined(before, u);
    let all = enter_on(room, p, row, past);
    check_finite(0, all)
}
