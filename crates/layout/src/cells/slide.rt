// Cells that move to other places of the tables. A loop each way and not `copy_within`: the library's compares addresses as numbers of 64 bits,
// which processors of 32 have none of.
ghost use Rattle.std.specs.Prelude.{◌≡◌, ◌+◌, ◌-◌, ◌≤◌};
ghost use Rattle.layout.specs.cells.Names.{cell_room};
ghost use Rattle.layout.specs.cells.Cells.{moved};

use crate::cells::CELL_ROOM;

// The cells from place a up to n move up by d places: from the last to the first.
pub fn slide_up(
    keys: &mut [u16; CELL_ROOM],
    vals: &mut [f64; CELL_ROOM],
    a: usize,
    n: usize,
    d: usize,
)
    requires a_le_n { a ≤ n }
    requires n_le_cell_room { n ≤ cell_room }
    requires d_bound { d ≤ cell_room - n }
    ensures keys_after { keys.new ≡ moved a (a + d) (n - a) keys.old }
    ensures vals_after { vals.new ≡ moved a (a + d) (n - a) vals.old }
{
    for j in (a..n).rev() {
        keys[j + d] = keys[j];
        vals[j + d] = vals[j];
    }
}

// The cells from place a up to n move down by d places: from the first to the last.
pub fn slide_down(
    keys: &mut [u16; CELL_ROOM],
    vals: &mut [f64; CELL_ROOM],
    a: usize,
    n: usize,
    d: usize,
)
    requires a_le_n { a ≤ n }
    requires n_le_cell_room { n ≤ cell_room }
    requires d_le_a { d ≤ a }
    ensures keys_after { keys.new ≡ moved a (a - d) (n - a) keys.old }
    ensures vals_after { vals.new ≡ moved a (a - d) (n - a) vals.old }
{
    for j in a..n {
        keys[j - d] = keys[j];
        vals[j - d] = vals[j];
    }
}

// The cells from place a up to n, moved to place b on.
pub fn slide(keys: &mut [u16; CELL_ROOM], vals: &mut [f64; CELL_ROOM], a: usize, n: usize, b: usize)
    requires a_le_n { a ≤ n }
    requires n_le_cell_room { n ≤ cell_room }
    requires a_bound { b + (n - a) ≤ cell_room }
    ensures keys_after { keys.new ≡ moved a b (n - a) keys.old }
    ensures vals_after { vals.new ≡ moved a b (n - a) vals.old }
{
    if a <= b {
        slide_up(keys, vals, a, n, b - a);
    } else {
        slide_down(keys, vals, a, n, a - b);
    }
}
