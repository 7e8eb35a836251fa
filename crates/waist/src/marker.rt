// Rows that hold a marker: removal's first and last rank.
ghost use Rattle.std.specs.Prelude.{◌≡◌, false, ◌&&◌, ◌≤◌, get_or};
ghost use Rattle.steps.specs.Symbol.{holds};
ghost use Rattle.rows.specs.choose.Choose.{Within};
ghost use Rattle.sparse.specs.Places.{most_rows, row_count_at, cell_count_at};
ghost use Rattle.layout.specs.cells.Names.{last_place};
ghost use Rattle.layout.specs.cells.Spots.{Spots};
ghost use Rattle.waist.specs.Kinds.{kind_byte};
ghost use Rattle.waist.specs.substituting.Notes.{is_external_kind};
ghost use Rattle.waist.specs.Working.{Sound};
ghost use Rattle.waist.specs.Choosing.{is_dummy_kind};
ghost use Rattle.waist.specs.Ratios.{column_at};
ghost use Rattle.waist.specs.MarkerRow.{dummy_row_of, external_row_of};
ghost use Rattle.sparse.specs.Tables.{lent};

use crate::kinds::Kind;
use crate::spots::spots_of;
use crate::substituting::notes::kind_at;
use layout::cells::LINES_ROOM;
use layout::cells::spots::spot_cell;
use sparse::tables::Tables;
use sparse::{CELL_COUNT, ROW_COUNT, ROW_PLACES};

// Row i's cell at place p.
fn column_at(tables: &Tables, p: u8, spots: &[u16; LINES_ROOM], i: usize) -> f64
    requires sound { Sound false (lent tables.now) }
    requires p_le_last_place { p ≤ last_place }
    requires i_le_most_rows { i ≤ most_rows }
    requires spots { Spots tables.now.keys.now (get_or tables.now.words.now cell_count_at 0) p spots.now }
    ensures { result ≡ column_at (lent tables.now) p i }
{
    let words = tables.words;
    let m = words[CELL_COUNT] as usize;
    spot_cell(tables.keys, tables.values, m, p, spots, i)
}

fn holds_as_dummy(kind: Kind, x: f64) -> bool
    ensures { result ≡ (is_dummy_kind (kind_byte kind) && holds x) }
{
    kind.is_dummy() & (x != 0.0)
}

// "the first Dummy row holding the marker"
pub fn first_dummy_row(tables: &Tables, p: u8) -> Option<usize>
    requires sound { Sound false (lent tables.now) }
    requires p_le_last_place { p ≤ last_place }
    ensures value { result ≡ dummy_row_of p (lent tables.now) }
    ensures within { Within (get_or tables.now.words.now row_count_at 0) result }
{
    let words = tables.words;
    let bytes = tables.bytes;
    let n = words[ROW_COUNT] as usize;
    let spots = spots_of(false, tables, p);
    for i in 1..n + 1 {
        let kind = Kind::from(kind_at(bytes, bytes[ROW_PLACES + i]));
        let x = column_at(tables, p, &spots, i);
        if holds_as_dummy(kind, x) {
            return Some(i);
        }
    }
    None
}

fn holds_as_external(kind: Kind, x: f64) -> bool
    ensures { result ≡ (is_external_kind (kind_byte kind) && holds x) }
{
    kind.is_external() & (x != 0.0)
}

// "the last External row holding it"
pub fn last_external_row(tables: &Tables, p: u8) -> Option<usize>
    requires sound { Sound false (lent tables.now) }
    requires p_le_last_place { p ≤ last_place }
    ensures value { result ≡ external_row_of p (lent tables.now) }
    ensures within { Within (get_or tables.now.words.now row_count_at 0) result }
{
    let words = tables.words;
    let bytes = tables.bytes;
    let spots = spots_of(false, tables, p);
    let n = words[ROW_COUNT] as usize;
    for i in (1..n + 1).rev() {
        let kind = Kind::from(kind_at(bytes, bytes[ROW_PLACES + i]));
        let x = column_at(tables, p, &spots, i);
        if holds_as_external(kind, x) {
            return Some(i);
        }
    }
    None
}
