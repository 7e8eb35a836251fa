// A column of the tables at one walk: which cell of each line names a place.
ghost use Rattle.std.specs.Prelude.{get_or};
ghost use Rattle.sparse.specs.Places.{cell_count_at};
ghost use Rattle.layout.specs.cells.Spots.{Spots};
ghost use Rattle.waist.specs.Working.{Sound};
ghost use Rattle.sparse.specs.Tables.{lent};

use layout::cells::LINES_ROOM;
use layout::cells::spots::{fill_spots, no_spots};
use sparse::CELL_COUNT;
use sparse::tables::Tables;

pub fn spots_of(art: bool, tables: &Tables, p: u8) -> [u16; LINES_ROOM]
    requires { Sound art (lent tables.now) }
    ensures { Spots tables.now.keys.now (get_or tables.now.words.now cell_count_at 0) p result }
{
    let words = tables.words;
    let mut spots = no_spots();
    fill_spots(tables.keys, words[CELL_COUNT] as usize, p, &mut spots);
    spots
}
