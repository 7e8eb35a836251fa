// Looks along a dense row, by the kind of each symbol and its cell.
ghost use Rattle.std.specs.Prelude.{◌≡◌, ◌&&◌, ◌≤◌, get_or};
ghost use Rattle.rows.specs.choose.Choose.{Within, wants};
ghost use Rattle.sparse.specs.Places.{most_rows, symbol_count_at};
ghost use Rattle.sparse.specs.Sparse.{Sparse};
ghost use Rattle.layout.specs.cells.Names.{last_place};
ghost use Rattle.waist.specs.Kinds.{kind_byte};
ghost use Rattle.waist.specs.Looks.{of_kind, seen, look_of, Loadable, Loads};
ghost use Rattle.sparse.specs.Tables.{lent};

use crate::kinds::Kind;
use layout::cells::ROW_ROOM;
use layout::cells::row::load_row;
use rows::choose::Want;
use sparse::tables::Tables;
use sparse::{Bytes, CELL_COUNT, KINDS, SYMBOL_COUNT, Words};

fn wanted(want: Want, kind: Kind) -> bool
    ensures { result ≡ wants want (of_kind (kind_byte kind)) }
{
    match want {
        Want::External => kind.is_external(),
        Want::Pivotable => kind.is_pivotable(),
        Want::NonDummy => !kind.is_dummy(),
        Want::Any => true,
    }
}

fn is_seen(below: bool, x: f64) -> bool
    ensures { result ≡ seen below x }
{
    if below {
        return x < 0.0;
    }
    x != 0.0
}

fn passes(want: Want, below: bool, kind: Kind, x: f64) -> bool
    ensures { result ≡ (wants want (of_kind (kind_byte kind)) && seen below x) }
{
    wanted(want, kind) & is_seen(below, x)
}

// The first symbol of a kind whose cell is below 0, or, with `below` false, is there.
pub fn first_along(
    want: Want,
    below: bool,
    words: &Words,
    bytes: &Bytes,
    row: &[f64; ROW_ROOM],
) -> Option<usize>
    requires { get_or words.now symbol_count_at 0 ≤ last_place }
    ensures value { result ≡ look_of want below words.now bytes.now row.now }
    ensures within { Within (get_or words.now symbol_count_at 0) result }
{
    let n = words[SYMBOL_COUNT] as usize;
    for p in 1..n + 1 {
        if passes(want, below, Kind::from(bytes[KINDS + p]), row[p]) {
            return Some(p);
        }
    }
    None
}

// Line i as a dense row.
pub fn load_line(tables: &Tables, i: u8, row: &mut [f64; ROW_ROOM])
    requires loadable { Loadable (lent tables.now) }
    requires i_le_most_rows { i ≤ most_rows }
    ensures { Loads i (lent tables.now) row.new }
{
    let words = tables.words;
    let n = words[CELL_COUNT] as usize;
    let k = words[SYMBOL_COUNT] as usize;
    load_row(tables.keys, tables.values, n, i, k, row);
}
