// One row: its run of cells as a dense row, and a dense row as its run.
ghost use Rattle.std.specs.Prelude.{◌≡◌, ◌+◌, ◌<◌, ◌≤◌};
ghost use Rattle.laws.specs.Loops.{map_in};
ghost use Rattle.steps.specs.Number.{zero64};
ghost use Rattle.layout.specs.cells.Names.{cell_room, row_room, top_row};
ghost use Rattle.layout.specs.cells.Cells.{loaded, counted, replaced, Ascending, Narrow, expanded, cells, put_if, packed};

use crate::cells::search::find;
use crate::cells::slide::slide;
use crate::cells::{CELL_ROOM, ROW_ROOM, ROW_SPAN};

// The cells from place a up to e, each to its place in a dense row.
pub fn expand(
    keys: &[u16; CELL_ROOM],
    vals: &[f64; CELL_ROOM],
    a: usize,
    e: usize,
    row: &mut [f64; ROW_ROOM],
)
    requires a_le_e { a ≤ e }
    requires e_le_cell_room { e ≤ cell_room }
    requires narrow { Narrow keys.now row_room a e }
    ensures { row.new ≡ expanded keys.now vals.now a e row.old }
{
    for j in a..e {
        let p = keys[j] % ROW_SPAN;
        row[p as usize] = vals[j];
    }
}

// The places 1 to k of a row become zero.
pub fn zero_cells(row: &mut [f64; ROW_ROOM], k: usize)
    requires { k < row_room }
    ensures { row.new ≡ map_in (λ _. zero64) 1 (k + 1) row.old }
{
    row[1..k + 1].fill(0.0);
}

// Row i as a dense row.
pub fn load_row(
    keys: &[u16; CELL_ROOM],
    vals: &[f64; CELL_ROOM],
    n: usize,
    i: u8,
    k: usize,
    row: &mut [f64; ROW_ROOM],
)
    requires n_le_cell_room { n ≤ cell_room }
    requires k_lt_row_room { k < row_room }
    requires i_lt_top_row { i < top_row }
    requires ascending { Ascending keys.now n }
    requires narrow { Narrow keys.now row_room 0 n }
    ensures { row.new ≡ loaded n i k keys.now vals.now row.old }
{
    let base = i as u16 * ROW_SPAN;
    let a = find(keys, n, base);
    let e = find(keys, n, base + ROW_SPAN);
    zero_cells(row, k);
    expand(keys, vals, a, e, row);
}

// A cell that is not zero goes to place `at`; where the next one goes.
pub fn put_if<const N: usize>(
    keys: &mut [u16; N],
    vals: &mut [f64; N],
    at: usize,
    key: u16,
    x: f64,
) -> usize
    requires { at < N }
    ensures result_after { cells keys.new vals.new result ≡ put_if key x (cells keys.old vals.old at) }
    ensures upper_bound { result ≤ at + 1 }
{
    if x != 0.0 {
        keys[at] = key;
        vals[at] = x;
        return at + 1;
    }
    at
}

// The present cells of a dense row as row i, from place `at` on; where they end.
pub fn compress(
    row: &[f64; ROW_ROOM],
    k: usize,
    i: u8,
    keys: &mut [u16; CELL_ROOM],
    vals: &mut [f64; CELL_ROOM],
    at: usize,
) -> usize
    requires k_lt_row_room { k < row_room }
    requires k_bound { at + k ≤ cell_room }
    ensures result_after { cells keys.new vals.new result ≡ packed k i row.now (cells keys.old vals.old at) }
    ensures upper_bound { result ≤ at + k }
{
    let base = i as u16 * ROW_SPAN;
    let mut n = at;
    for p in 1..k + 1 {
        n = put_if(keys, vals, n, base + p as u16, row[p]);
    }
    n
}

// How many cells of a dense row are present. (`row[1..k + 1].iter().filter(..).count()` took 1.6 times as long at 60 and at 129 cells.)
pub fn count(row: &[f64; ROW_ROOM], k: usize) -> usize
    requires { k < row_room }
    ensures value { result ≡ counted k row.now }
    ensures upper_bound { result ≤ k }
{
    let mut c = 0;
    for p in 1..k + 1 {
        if row[p] != 0.0 {
            c += 1;
        }
    }
    c
}

// Row i becomes this dense row; how many cells there are then.
pub fn replace_row(
    keys: &mut [u16; CELL_ROOM],
    vals: &mut [f64; CELL_ROOM],
    n: usize,
    i: u8,
    row: &[f64; ROW_ROOM],
    k: usize,
) -> usize
    requires k_bound { n + k ≤ cell_room }
    requires k_lt_row_room { k < row_room }
    requires i_lt_top_row { i < top_row }
    requires ascending { Ascending keys.old n }
    ensures { cells keys.new vals.new result ≡ replaced n i k row.now keys.old vals.old }
{
    let base = i as u16 * ROW_SPAN;
    let a = find(keys, n, base);
    let e = find(keys, n, base + ROW_SPAN);
    let m = count(row, k);
    slide(keys, vals, e, n, a + m);
    compress(row, k, i, keys, vals, a);
    n - e + (a + m)
}
