// Substitution for one symbol, by the row that it is solved for: dense, its constant at place 0.
ghost use Rattle.std.specs.Prelude.{◌≡◌, cond, ◌+◌, ◌≤◌, ◌<◌, get_or, replicate};
ghost use Rattle.rows.specs.Marks.{mark_of};
ghost use Rattle.sparse.specs.Places.{most_rows, symbol_count_at};
ghost use Rattle.layout.specs.cells.Names.{lines_room, cell_room};
ghost use Rattle.waist.specs.substituting.Loose.{SettledRow};
ghost use Rattle.waist.specs.Working.{Sound};
ghost use Rattle.waist.specs.Substitutes.{Substitutes};
ghost use Rattle.sparse.specs.Tables.{held, Same};

use crate::merging::run::Run;
use crate::substituting::loose::loose_run;
use crate::substituting::notes::note_rows;
use crate::substituting::objective::substitute_objective;
use crate::substituting::onepass::substitute_lines;
use layout::cells::spots::{fill_spots, no_spots};
use layout::cells::{LINES_ROOM, ROW_ROOM};
use rows::number::{Wrote, joined};
use sparse::tables::TablesMut;
use sparse::{CELL_COUNT, CUTOFF, ROW_COUNT, SYMBOL_COUNT};

// The artificial objective, where one stands, is the line after the rows.
pub fn lines_of(art: bool, rows: u8) -> u8
    requires { rows < most_rows }
    ensures { result ≡ cond art (rows + 1) rows }
{
    if art {
        return rows + 1;
    }
    rows
}

// In the rows, the objective and the artificial objective where one stands, with room for the runs that are merged.
fn substitute_with(
    art: bool,
    room: &mut TablesMut,
    at: u8,
    row: &[f64; ROW_ROOM],
    loose: &mut Run,
    fresh: &mut Run,
    spots: &mut [u16; LINES_ROOM],
) -> Wrote
    requires sound { Sound art (held room.old) }
    requires le_at { 1 ≤ at }
    requires at_bound { at ≤ get_or room.old.words.now symbol_count_at 0 }
    requires settled_row { SettledRow (get_or room.old.words.now symbol_count_at 0) row.now }
    requires spots_value { spots.old ≡ replicate lines_room cell_room }
    ensures does { Substitutes art at row.now (held room.old) (held room.new) (mark_of result) }
    ensures same { Same room.old room.new }
{
    let cutoff = room.reals[CUTOFF];
    let width = room.words[SYMBOL_COUNT] as usize;
    let count = room.words[ROW_COUNT] as u8;
    let n = room.words[CELL_COUNT] as usize;
    let lines = lines_of(art, count);
    let y = row[0];
    fill_spots(room.keys, n, at, spots);
    note_rows(
        room.words,
        room.bytes,
        room.keys,
        room.values,
        n,
        lines,
        count,
        at,
        spots,
        y,
    );
    loose_run(row, width, loose);
    let r = substitute_lines(
        cutoff,
        room.keys,
        room.values,
        n,
        room.reals,
        lines,
        at,
        spots,
        loose,
        y,
        fresh,
    );
    let w = r.wrote;
    room.words[CELL_COUNT] = r.size as u64;
    let v = substitute_objective(cutoff, room.reals, at as usize, row, width);
    joined(w, v)
}

// In the rows, the objective and the artificial objective where one stands.
pub fn substitute(art: bool, room: &mut TablesMut, at: u8, row: &[f64; ROW_ROOM]) -> Wrote
    requires sound { Sound art (held room.old) }
    requires le_at { 1 ≤ at }
    requires at_bound { at ≤ get_or room.old.words.now symbol_count_at 0 }
    requires settled_row { SettledRow (get_or room.old.words.now symbol_count_at 0) row.now }
    ensures does { Substitutes art at row.now (held room.old) (held room.new) (mark_of result) }
    ensures same { Same room.old room.new }
{
    let mut loose = Run::new();
    let mut fresh = Run::new();
    let mut spots = no_spots();
    substitute_with(art, room, at, row, &mut loose, &mut fresh, &mut spots)
}
