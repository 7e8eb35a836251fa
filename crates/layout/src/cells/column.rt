// The walk along a column: which rows hold a place. No crate calls it today: public, with promises of its own.
ghost use Rattle.std.specs.Prelude.{◌≡◌, ◌≤◌};
ghost use Rattle.layout.specs.cells.Names.{cell_room};
ghost use Rattle.layout.specs.cells.Cells.{next_in, last_before};

use crate::cells::{CELL_ROOM, ROW_SPAN};

// The first cell from j on that names place p, or n: by ascending row.
pub fn next_in_column(keys: &[u16; CELL_ROOM], n: usize, j: usize, p: u8) -> usize
    requires n_le_cell_room { n ≤ cell_room }
    requires j_le_n { j ≤ n }
    ensures value { result ≡ next_in keys.now p j n }
    ensures upper_bound { result ≤ n }
{
    for r in j..n {
        if keys[r] % ROW_SPAN == p as u16 {
            return r;
        }
    }
    n
}

// One past the last cell before j that names place p, or 0: a row that grows or shrinks moves only cells that this walk has left behind.
pub fn last_in_column(keys: &[u16; CELL_ROOM], j: usize, p: u8) -> usize
    requires { j ≤ cell_room }
    ensures value { result ≡ last_before keys.now p j }
    ensures upper_bound { result ≤ j }
{
    for r in (0..j).rev() {
        if keys[r] % ROW_SPAN == p as u16 {
            return r + 1;
        }
    }
    0
}
