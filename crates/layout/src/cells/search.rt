// Where a key stands among the keys, by halving; the value beside it; the test that keys ascend.
ghost use Rattle.std.specs.Prelude.{◌≡◌, ◌≤◌};
ghost use Rattle.layout.specs.cells.Names.{cell_room};
ghost use Rattle.layout.specs.cells.Cells.{ascends_of, present_of, cell_at, Ascending, lower_in};

use crate::cells::CELL_ROOM;

// The first of n places whose key is not below x: by halving.
pub fn find(keys: &[u16; CELL_ROOM], n: usize, x: u16) -> usize
    requires n_le_cell_room { n ≤ cell_room }
    requires ascending { Ascending keys.now n }
    ensures value { result ≡ lower_in keys.now x 0 n }
    ensures upper_bound { result ≤ n }
{
    keys[..n].partition_point(|key| *key < x)
}

// The value beside this key, or 0.0.
pub fn cell(keys: &[u16; CELL_ROOM], vals: &[f64; CELL_ROOM], n: usize, key: u16) -> f64
    requires n_le_cell_room { n ≤ cell_room }
    requires ascending { Ascending keys.now n }
    ensures { result ≡ cell_at keys.now vals.now n key }
{
    let a = find(keys, n, key);
    if a < n {
        if keys[a] == key {
            return vals[a];
        }
    }
    0.0
}

// Whether the keys of the first n places ascend.
pub fn ascends(keys: &[u16; CELL_ROOM], n: usize) -> bool
    requires { n ≤ cell_room }
    ensures { result ≡ ascends_of keys.now n }
{
    let mut ok = true;
    for j in 1..n {
        ok &= keys[j - 1] < keys[j];
    }
    ok
}

// Whether none of the first n values is 0.0.
pub fn present(vals: &[f64; CELL_ROOM], n: usize) -> bool
    requires { n ≤ cell_room }
    ensures { result ≡ present_of vals.now n }
{
    let mut ok = true;
    for j in 0..n {
        ok &= vals[j] != 0.0;
    }
    ok
}
