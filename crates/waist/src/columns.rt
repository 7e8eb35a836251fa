// A place that goes out of the sparse tables: the cells and the names of the places past it come one place down.
ghost use Rattle.std.specs.Prelude.{◌≡◌, ◌+◌, ◌≤◌, ◌<◌};
ghost use Rattle.laws.specs.Loops.{map_in};
ghost use Rattle.layout.specs.cells.Names.{cell_room};
ghost use Rattle.layout.specs.cells.Cells.{nearer_of, cells};
ghost use Rattle.sparse.specs.Places.{bytes_size};
ghost use Rattle.waist.specs.PurgingCells.{purge_turn, purged_cells};
ghost use Rattle.waist.specs.Lowering.{near_place};

use layout::cells::ROW_SPAN;
use sparse::{Bytes, Keys, Values};

// A cell's key once place p is gone.
fn nearer_key(key: u16, p: u8) -> u16
    ensures { result ≡ nearer_of p key }
{
    if (p as u16) < key % ROW_SPAN {
        return key - 1;
    }
    key
}

// Cell j comes to place `at`, unless it is of place p; where the next one comes.
fn keep_cell(keys: &mut Keys, values: &mut Values, j: usize, at: usize, p: u8) -> usize
    requires at_le_j { at ≤ j }
    requires j_lt_cell_room { j < cell_room }
    ensures result_after { cells keys.new values.new result ≡ purge_turn p j (cells keys.old values.old at) }
    ensures upper_bound { result ≤ at + 1 }
{
    let key = keys[j];
    if p as u16 == key % ROW_SPAN {
        return at;
    }
    keys[at] = nearer_key(key, p);
    values[at] = values[j];
    at + 1
}

// Of n cells those of place p go, and the places past it come one place down; how many there are then.
pub fn drop_place(keys: &mut Keys, values: &mut Values, n: usize, p: u8) -> usize
    requires { n ≤ cell_room }
    ensures { cells keys.new values.new result ≡ purged_cells n p keys.old values.old }
{
    let mut at = 0;
    for j in 0..n {
        at = keep_cell(keys, values, j, at, p);
    }
    at
}

// A place's name once place p is gone.
fn near_place(x: u8, p: u8) -> u8
    ensures { result ≡ near_place p x }
{
    if p < x {
        return x - 1;
    }
    x
}

// The bytes from a up to e name places.
pub fn lower_places(bytes: &mut Bytes, a: usize, e: usize, p: u8)
    requires { e ≤ bytes_size }
    ensures { bytes.new ≡ map_in (near_place p) a e bytes.old }
{
    for j in a..e {
        bytes[j] = near_place(bytes[j], p);
    }
}
