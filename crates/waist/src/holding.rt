// The waist's operations on tables that stand: each is a step of the work, and leaves tables that stand.
ghost use Rattle.std.specs.Prelude.{◌≡◌, false, ◌+◌, ◌-◌, ◌≤◌, ◌<◌, get_or};
ghost use Rattle.steps.specs.Number.{Mark};
ghost use Rattle.steps.specs.Work.{with_rows, drop_row};
ghost use Rattle.steps.specs.Substitute.{enter_basis, pivot};
ghost use Rattle.keeps.specs.Fits.{FitsW};
ghost use Rattle.rows.specs.Reading.{row_of};
ghost use Rattle.rows.specs.Marks.{mark_of};
ghost use Rattle.sparse.specs.Places.{most_rows, most_variables, symbol_count_at, row_count_at, variable_count_at};
ghost use Rattle.sparse.specs.Sparse.{symbol_at};
ghost use Rattle.waist.specs.substituting.Loose.{SettledRow};
ghost use Rattle.waist.specs.substituting.Notes.{noted, var_changed_if};
ghost use Rattle.waist.specs.Working.{work_of, Sound};
ghost use Rattle.waist.specs.Alone.{RowsAlone};
ghost use Rattle.waist.specs.Dropping.{Free};
ghost use Rattle.waist.specs.Entering.{Later};
ghost use Rattle.waist.specs.Standing.{Standing, Makes, row_symbol};
ghost use Rattle.sparse.specs.Tables.{held, Same};

use crate::basis::drop_row;
use crate::pivoting::{enter_basis, pivot};
use crate::substituting::notes::var_changed_if;
use layout::cells::ROW_ROOM;
use rows::number::{Wrote, joined};
use sparse::tables::TablesMut;
use sparse::{Bytes, Words};

// Row i leaves and the symbol at place p, which is not basic, enters.
pub fn pivot_on(art: bool, room: &mut TablesMut, i: u8, p: u8, before: Wrote) -> Wrote
    requires standing { Standing art (mark_of before) (held room.old) }
    requires le_i { 1 ≤ i }
    requires i_bound { i ≤ get_or room.old.words.now row_count_at 0 }
    requires le_p { 1 ≤ p }
    requires p_bound { p ≤ get_or room.old.words.now symbol_count_at 0 }
    requires free { Free p (held room.old) }
    ensures makes { Makes art art (mark_of before) (mark_of result) (pivot (row_symbol (held room.old) i).id (symbol_at (held room.old) p)) (held room.old) (held room.new) }
    ensures later { Later (held room.old) (held room.new) }
    ensures row_count_at_unchanged { get_or room.new.words.now row_count_at 0 ≡ get_or room.old.words.now row_count_at 0 }
    ensures same { Same room.old room.new }
{
    let w = pivot(art, room, i, p);
    joined(before, w)
}

// Row i goes.
pub fn drop_on(art: bool, room: &mut TablesMut, i: u8)
    requires sound { Sound art (held room.old) }
    requires le_i { 1 ≤ i }
    requires i_bound { i ≤ get_or room.old.words.now row_count_at 0 }
    ensures makes { (a : Mark) → Standing art a (held room.old) → Makes art art a a (λ w. with_rows (drop_row (row_symbol (held room.old) i).id w.tableau.rows) w) (held room.old) (held room.new) }
    ensures rows_alone { RowsAlone (held room.old) (held room.new) }
    ensures row_count_at_after { get_or room.new.words.now row_count_at 0 ≡ get_or room.old.words.now row_count_at 0 - 1 }
    ensures same { Same room.old room.new }
{
    drop_row(art, room, i);
}

// The variable whose symbol stands at place p is noted; that this is the steps' note, and keeps standing tables so, is the law note-makes.
pub fn note_on(on: bool, words: &mut Words, bytes: &mut Bytes, p: u8)
    requires { get_or words.old variable_count_at 0 ≤ most_variables }
    ensures { noted words.new bytes.new ≡ var_changed_if on p (noted words.old bytes.old) }
{
    var_changed_if(on, words, bytes, p);
}

// The row, dense, is solved for the symbol at place p, which is not basic.
pub fn enter_on(room: &mut TablesMut, p: u8, row: &[f64; ROW_ROOM], before: Wrote) -> Wrote
    requires standing { Standing false (mark_of before) (held room.old) }
    requires le_p { 1 ≤ p }
    requires p_bound { p ≤ get_or room.old.words.now symbol_count_at 0 }
    requires free { Free p (held room.old) }
    requires row_count_at_bound { get_or room.old.words.now row_count_at 0 + 1 < most_rows }
    requires settled_row { SettledRow (get_or room.old.words.now symbol_count_at 0) row.now }
    requires fits_w { FitsW (enter_basis (symbol_at (held room.old) p) (row_of (get_or room.old.words.now symbol_count_at 0) row.now) (work_of false (mark_of before) 0 (held room.old))) }
    ensures makes { Makes false false (mark_of before) (mark_of result) (enter_basis (symbol_at (held room.old) p) (row_of (get_or room.old.words.now symbol_count_at 0) row.now)) (held room.old) (held room.new) }
    ensures later { Later (held room.old) (held room.new) }
    ensures row_count_at_after { get_or room.new.words.now row_count_at 0 ≡ get_or room.old.words.now row_count_at 0 + 1 }
    ensures same { Same room.old room.new }
{
    let w = enter_basis(false, room, p, row);
    joined(before, w)
}
