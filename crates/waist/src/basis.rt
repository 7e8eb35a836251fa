// Rows that come and go in the sparse tables. The artificial objective, the line after the rows, moves with them.
ghost use Rattle.std.specs.Prelude.{◌≡◌, ◌+◌, ◌≤◌, ◌<◌, get_or};
ghost use Rattle.sparse.specs.Places.{most_rows, symbol_count_at, row_count_at};
ghost use Rattle.waist.specs.substituting.Loose.{SettledRow};
ghost use Rattle.waist.specs.Working.{Sound};
ghost use Rattle.waist.specs.Dropping.{Free, Drops};
ghost use Rattle.waist.specs.Spots.{spot_of, Keeps};
ghost use Rattle.sparse.specs.Tables.{held, Same};

use crate::moves::{close, open};
use crate::substitution::lines_of;
use layout::cells::ROW_ROOM;
use layout::cells::row::replace_row;
use layout::cells::shift::open_row;
use sparse::tables::TablesMut;
use sparse::{Bytes, CELL_COUNT, CONSTANTS, ROW_COUNT, ROW_PLACES, SYMBOL_COUNT};

// Row i goes.
pub fn drop_row(art: bool, room: &mut TablesMut, i: u8)
    requires sound { Sound art (held room.old) }
    requires le_i { 1 ≤ i }
    requires i_bound { i ≤ get_or room.old.words.now row_count_at 0 }
    ensures does { Drops art i (held room.old) (held room.new) }
    ensures same { Same room.old room.new }
{
    let r = room.words[ROW_COUNT];
    let n = room.words[CELL_COUNT] as usize;
    let lines = lines_of(art, r as u8);
    let left = layout::cells::shift::drop_row(room.keys, room.values, n, i);
    close(room.bytes, ROW_PLACES + i as usize, ROW_PLACES + r as usize);
    close(
        room.reals,
        CONSTANTS + i as usize,
        CONSTANTS + lines as usize,
    );
    room.words[ROW_COUNT] = r - 1;
    room.words[CELL_COUNT] = left as u64;
}

// The first row whose symbol's place is past p: where a row of the symbol at p stands by ascending id.
fn row_spot(bytes: &Bytes, r: u8, p: u8) -> u8
    requires { r < most_rows }
    ensures value { result ≡ spot_of p r bytes.now }
    ensures lower_bound { 1 ≤ result }
    ensures upper_bound { result ≤ 1 + r }
{
    for i in 1..r + 1 {
        if p < bytes[ROW_PLACES + i as usize] {
            return i;
        }
    }
    1 + r
}

// The row, dense, is kept for the symbol at place p, which is not basic.
pub fn keep_row(art: bool, room: &mut TablesMut, p: u8, row: &[f64; ROW_ROOM])
    requires sound { Sound art (held room.old) }
    requires le_p { 1 ≤ p }
    requires p_bound { p ≤ get_or room.old.words.now symbol_count_at 0 }
    requires free { Free p (held room.old) }
    requires row_count_at_bound { get_or room.old.words.now row_count_at 0 + 1 < most_rows }
    requires settled_row { SettledRow (get_or room.old.words.now symbol_count_at 0) row.now }
    ensures does { Keeps art p row.now (held room.old) (held room.new) }
    ensures same { Same room.old room.new }
{
    let r = room.words[ROW_COUNT];
    let n = room.words[CELL_COUNT] as usize;
    let width = room.words[SYMBOL_COUNT] as usize;
    let lines = lines_of(art, r as u8);
    let z = row_spot(room.bytes, r as u8, p);
    open_row(room.keys, n, z);
    let size = replace_row(room.keys, room.values, n, z, row, width);
    open(
        room.bytes,
        ROW_PLACES + z as usize,
        ROW_PLACES + (r as usize + 1),
        p,
    );
    open(
        room.reals,
        CONSTANTS + z as usize,
        CONSTANTS + (lines as usize + 1),
        row[0],
    );
    room.words[ROW_COUNT] = r + 1;
    room.words[CELL_COUNT] = size as u64;
}
