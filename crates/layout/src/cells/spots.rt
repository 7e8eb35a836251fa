// A column at one walk: for each row, which cell names a place. A loop over the rows then looks for nothing.
ghost use Rattle.std.specs.Prelude.{◌≡◌, false, ◌≤◌, ◌<◌, ◌+◌, ◌*◌, replicate};
ghost use Rattle.layout.specs.cells.Names.{cell_room, lines_room, row_span};
ghost use Rattle.layout.specs.cells.Cells.{Ascending, cell_at};
ghost use Rattle.layout.specs.cells.Spots.{block_size, Unnamed, Lined, SpotsTo, Spots};

use crate::cells::{CELL_ROOM, LINES_ROOM, ROW_SPAN};

// What no cell's place is stands for none.
pub fn no_spots() -> [u16; LINES_ROOM]
    ensures { result ≡ replicate lines_room cell_room }
{
    [CELL_ROOM as u16; LINES_ROOM]
}

// Most cells name another place, so that this many are looked at together, which the compiler does at once.
const BLOCK: usize = 16;

// Whether one of the block's cells from a on names place p.
fn any_names(keys: &[u16; CELL_ROOM], a: usize, p: u8) -> bool
    requires { a + block_size ≤ cell_room }
    ensures { result ≡ false → Unnamed keys.now p a (a + block_size) }
{
    let mut on = false;
    for j in 0..BLOCK {
        on |= keys[a + j] % ROW_SPAN == p as u16;
    }
    on
}

// Those from place a on, before e.
fn fill_part(
    keys: &[u16; CELL_ROOM],
    n: usize,
    p: u8,
    a: usize,
    e: usize,
    spots: &mut [u16; LINES_ROOM],
)
    requires a_le_e { a ≤ e }
    requires e_le_n { e ≤ n }
    requires n_le_cell_room { n ≤ cell_room }
    requires lined { Lined keys.now n }
    requires spots_to { SpotsTo keys.now n p a spots.old }
    ensures { SpotsTo keys.now n p e spots.new }
{
    for j in a..e {
        let x = keys[j];
        if x % ROW_SPAN == p as u16 {
            spots[(x / ROW_SPAN) as usize] = j as u16;
        }
    }
}

// Which of the first n cells names place p, for each row.
pub fn fill_spots(keys: &[u16; CELL_ROOM], n: usize, p: u8, spots: &mut [u16; LINES_ROOM])
    requires n_le_cell_room { n ≤ cell_room }
    requires lined { Lined keys.now n }
    requires spots_value { spots.old ≡ replicate lines_room cell_room }
    ensures { Spots keys.now n p spots.new }
{
    let blocks = n / BLOCK;
    for b in 0..blocks {
        let j = b * BLOCK;
        if any_names(keys, j, p) {
            fill_part(keys, n, p, j, j + BLOCK, spots);
        }
    }
    fill_part(keys, n, p, blocks * BLOCK, n, spots);
}

// The value of row i at place p, or 0.0.
pub fn spot_cell(
    keys: &[u16; CELL_ROOM],
    vals: &[f64; CELL_ROOM],
    n: usize,
    p: u8,
    spots: &[u16; LINES_ROOM],
    i: usize,
) -> f64
    requires n_le_cell_room { n ≤ cell_room }
    requires i_lt_lines_room { i < lines_room }
    requires ascending { Ascending keys.now n }
    requires spots { Spots keys.now n p spots.now }
    ensures { result ≡ cell_at keys.now vals.now n (i * row_span + p) }
{
    let j = usize::from(spots[i]);
    if j < n {
        return vals[j];
    }
    0.0
}
