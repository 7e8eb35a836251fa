// The tableau's part of the test: no basic symbol is a cell; keys of rows and of symbols that are not basic; values present and finite.
ghost use Rattle.std.specs.Prelude.{◌≡◌, ◌+◌, ◌≤◌, true};
ghost use Rattle.layout.specs.cells.Names.{cell_room};
ghost use Rattle.layout.specs.cells.Cells.{ascends_of};
ghost use Rattle.sparse.specs.Places.{most_rows};
ghost use Rattle.sparse_test.specs.Tested.{costs_fit, rows_in, keys_fit, values_fit};
ghost use Rattle.sparse_test.specs.Open.{Opened, open_by};

use crate::stretch::every;
use layout::cells::PLACE_ROOM;
use rows::places::is_finite;
use sparse::{Bytes, Keys, Reals, Values};

// Basic symbols' places are shut, since "no basic symbol is a cell of any row", the objective among them.
pub fn shut_basics(
    table: &mut [u8; PLACE_ROOM],
    reals: &Reals,
    bytes: &Bytes,
    k: usize,
    r: usize,
) -> bool
    requires r_le_most_rows { r ≤ most_rows }
    requires opened { Opened table.old bytes.now k 0 }
    ensures opened_2 { Opened table.new bytes.now k r }
    ensures value { result ≡ costs_fit reals.now bytes.now r }
{
    let mut ok = true;
    for i in 0..r {
        let p = usize::from(bytes[sparse::ROW_PLACES + 1 + i]);
        table[p] = 9;
        ok &= reals[sparse::OBJECTIVE + p] == 0.0;
    }
    ok
}

// The codes at the cells' places come to 0 exactly if each is open.
fn open_in(keys: &Keys, table: &[u8; PLACE_ROOM], n: usize) -> bool
    requires { n ≤ cell_room }
    ensures { result ≡ open_by keys.now table.now n }
{
    let mut sum = 0;
    for j in 0..n {
        let p = keys[j] % layout::cells::ROW_SPAN;
        sum += usize::from(table[p as usize]);
    }
    sum == 0
}

// The first and the last of keys that ascend tell the rows of all.
fn rows_in(keys: &Keys, n: usize, r: u16) -> bool
    requires n_le_cell_room { n ≤ cell_room }
    requires n_value { ascends_of keys.now n ≡ true }
    ensures { result ≡ rows_in keys.now n r }
{
    if n == 0 {
        return true;
    }
    (1 <= keys[0] / layout::cells::ROW_SPAN) & (keys[n - 1] / layout::cells::ROW_SPAN <= r)
}

pub fn keys_fit(
    keys: &Keys,
    table: &[u8; PLACE_ROOM],
    bytes: &Bytes,
    n: usize,
    k: usize,
    r: usize,
) -> bool
    requires n_le_cell_room { n ≤ cell_room }
    requires r_le_most_rows { r ≤ most_rows }
    requires opened { Opened table.now bytes.now k r }
    ensures { result ≡ keys_fit keys.now bytes.now n k r }
{
    if !layout::cells::search::ascends(keys, n) {
        return false;
    }
    rows_in(keys, n, r as u16) & open_in(keys, table, n)
}

pub fn values_fit(values: &Values, n: usize) -> bool
    requires { n ≤ cell_room }
    ensures { result ≡ values_fit values.now n }
{
    every(0, n, |i| (values[i] != 0.0) & is_finite(values[i]))
}
