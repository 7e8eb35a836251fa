// Rows and places that go, or come.
ghost use Rattle.std.specs.Prelude.{ℕ, ◌≡◌, ◌-◌, ◌<◌, ◌≤◌};
ghost use Rattle.laws.specs.Loops.{map_in};
ghost use Rattle.layout.specs.cells.Names.{cell_room, row_span, top_row};
ghost use Rattle.layout.specs.cells.Cells.{nearer_of, row_after, opened, dropped, Ascending, cells};

use crate::cells::search::find;
use crate::cells::slide::slide;
use crate::cells::{CELL_ROOM, KEYS_END, ROW_SPAN};

// The keys from place a up to n become what f gives of them.
fn each_key<F: Fn(u16) -> u16>(keys: &mut [u16; CELL_ROOM], a: usize, n: usize, f: F)
    requires n_le_cell_room { n ≤ cell_room }
    requires callable { F.IsAlwaysCallable f }
    ensures { (g : ℕ → ℕ) → ((x y : ℕ) → F.post f x y → y ≡ g x) → keys.new ≡ map_in g a n keys.old }
{
    for j in a..n {
        keys[j] = f(keys[j]);
    }
}

fn row_before(key: u16) -> u16
    ensures { result ≡ key - row_span }
{
    if key < ROW_SPAN {
        return 0;
    }
    key - ROW_SPAN
}

// Row i goes, and the rows after it come one row down; how many cells there are then.
pub fn drop_row(keys: &mut [u16; CELL_ROOM], vals: &mut [f64; CELL_ROOM], n: usize, i: u8) -> usize
    requires n_le_cell_room { n ≤ cell_room }
    requires i_lt_top_row { i < top_row }
    requires ascending { Ascending keys.old n }
    ensures { cells keys.new vals.new result ≡ dropped n i keys.old vals.old }
{
    let base = i as u16 * ROW_SPAN;
    let a = find(keys, n, base);
    let e = find(keys, n, base + ROW_SPAN);
    slide(keys, vals, e, n, a);
    let left = n - e + a;
    each_key(keys, a, left, row_before);
    left
}

fn row_after(key: u16) -> u16
    ensures { result ≡ row_after key }
{
    if key < KEYS_END {
        return key + ROW_SPAN;
    }
    key
}

// Row i comes, without a cell: the rows from i on go one row up, and no cell moves.
pub fn open_row(keys: &mut [u16; CELL_ROOM], n: usize, i: u8)
    requires n_le_cell_room { n ≤ cell_room }
    requires ascending { Ascending keys.old n }
    ensures { keys.new ≡ opened n i keys.old }
{
    let a = find(keys, n, i as u16 * ROW_SPAN);
    each_key(keys, a, n, row_after);
}

fn nearer(key: u16, p: u8) -> u16
    ensures { result ≡ nearer_of p key }
{
    if (p as u16) < key % ROW_SPAN {
        return key - 1;
    }
    key
}

// Place p goes out of every row, which has no cell there: the places after it come one place down.
pub fn close_place(keys: &mut [u16; CELL_ROOM], n: usize, p: u8)
    requires { n ≤ cell_room }
    ensures { keys.new ≡ map_in (nearer_of p) 0 n keys.old }
{
    each_key(keys, 0, n, |key| nearer(key, p));
}
