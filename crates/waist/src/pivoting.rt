// The rest of Add's step 5, and a pivot.
ghost use Rattle.std.specs.Prelude.{◌≡◌, ◌&&◌, ◌+◌, ◌≤◌, ◌<◌, get_or};
ghost use Rattle.std.specs.Float.Ieee.{ne};
ghost use Rattle.steps.specs.Number.{zero64};
ghost use Rattle.rows.specs.Marks.{mark_of};
ghost use Rattle.sparse.specs.Places.{most_rows, symbol_count_at, row_count_at};
ghost use Rattle.waist.specs.substituting.Loose.{SettledRow};
ghost use Rattle.waist.specs.Kinds.{kind_byte};
ghost use Rattle.waist.specs.substituting.Notes.{is_external_kind};
ghost use Rattle.waist.specs.Working.{Sound};
ghost use Rattle.waist.specs.Dropping.{Free};
ghost use Rattle.waist.specs.Entering.{Enters};
ghost use Rattle.waist.specs.Pivoting.{Pivots};
ghost use Rattle.sparse.specs.Tables.{held, Same};

use crate::basis::{drop_row, keep_row};
use crate::kinds::Kind;
use crate::substituting::notes::{kind_at, var_changed_if};
use crate::substitution::substitute;
use layout::cells::ROW_ROOM;
use layout::cells::row::load_row;
use rows::number::{Wrote, joined};
use rows::row::solve_for_symbols;
use sparse::tables::TablesMut;
use sparse::{CELL_COUNT, CONSTANTS, CUTOFF, ROW_PLACES, SYMBOL_COUNT};

fn enters_noted(kind: Kind, y: f64) -> bool
    ensures { result ≡ (is_external_kind (kind_byte kind) && ne y zero64) }
{
    kind.is_external() & (y != 0.0)
}

// The row, dense, is solved for the symbol at place `at`.
pub fn enter_basis(art: bool, room: &mut TablesMut, at: u8, row: &[f64; ROW_ROOM]) -> Wrote
    requires sound { Sound art (held room.old) }
    requires le_at { 1 ≤ at }
    requires at_bound { at ≤ get_or room.old.words.now symbol_count_at 0 }
    requires free { Free at (held room.old) }
    requires row_count_at_bound { get_or room.old.words.now row_count_at 0 + 1 < most_rows }
    requires settled_row { SettledRow (get_or room.old.words.now symbol_count_at 0) row.now }
    ensures does { Enters art at row.now (held room.old) (held room.new) (mark_of result) }
    ensures same { Same room.old room.new }
{
    let w = substitute(art, room, at, row);
    let on = enters_noted(Kind::from(kind_at(room.bytes, at)), row[0]);
    var_changed_if(on, room.words, room.bytes, at);
    keep_row(art, room, at, row);
    w
}

// Row i leaves, and the symbol at place `entering` enters; with room for the row that is solved.
fn pivot_with(
    art: bool,
    room: &mut TablesMut,
    i: u8,
    entering: u8,
    row: &mut [f64; ROW_ROOM],
) -> Wrote
    requires sound { Sound art (held room.old) }
    requires le_i { 1 ≤ i }
    requires i_bound { i ≤ get_or room.old.words.now row_count_at 0 }
    requires le_entering { 1 ≤ entering }
    requires entering_bound { entering ≤ get_or room.old.words.now symbol_count_at 0 }
    requires free { Free entering (held room.old) }
    ensures does { Pivots art i entering (held room.old) (held room.new) (mark_of result) }
    ensures same { Same room.old room.new }
{
    let cutoff = room.reals[CUTOFF];
    let width = room.words[SYMBOL_COUNT] as usize;
    let n = room.words[CELL_COUNT] as usize;
    let leaving = room.bytes[ROW_PLACES + i as usize] as usize;
    load_row(room.keys, room.values, n, i, width, row);
    row[0] = room.reals[CONSTANTS + i as usize];
    let u = solve_for_symbols(cutoff, row, leaving, entering as usize, width);
    drop_row(art, room, i);
    let v = enter_basis(art, room, entering, row);
    joined(u, v)
}

// Row i leaves, and the symbol at place `entering` enters.
pub fn pivot(art: bool, room: &mut TablesMut, i: u8, entering: u8) -> Wrote
    requires sound { Sound art (held room.old) }
    requires le_i { 1 ≤ i }
    requires i_bound { i ≤ get_or room.old.words.now row_count_at 0 }
    requires le_entering { 1 ≤ entering }
    requires entering_bound { entering ≤ get_or room.old.words.now symbol_count_at 0 }
    requires free { Free entering (held room.old) }
    ensures does { Pivots art i entering (held room.old) (held room.new) (mark_of result) }
    ensures same { Same room.old room.new }
{
    let mut row: [f64; ROW_ROOM] = [0.0; ROW_ROOM];
    pivot_with(art, room, i, entering, &mut row)
}
