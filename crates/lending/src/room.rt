// The working room, cleared.
ghost use Rattle.std.specs.Prelude.{◌≡◌, replicate};
ghost use Rattle.lending.specs.Entered.{zero_room};
ghost use Rattle.sparse.specs.Tables.{held, Same};

use layout::cells::CELL_ROOM;
use sparse::tables::TablesMut;

// By hand: `fill` asks what a clone of a number is, which `Copy` does not say.
pub fn blank<T: Copy, const N: usize>(room: &mut [T; N], zero: T)
    ensures { room.new ≡ replicate N zero }
{
    for x in room.iter_mut() {
        *x = zero;
    }
}

pub fn clear(tables: &mut TablesMut)
    ensures does { held tables.new ≡ zero_room }
    ensures same { Same tables.old tables.new }
{
    *tables.words = [0; sparse::WORDS_SIZE];
    *tables.keys = [0; CELL_ROOM];
    *tables.bytes = [0; sparse::BYTES_SIZE];
    *tables.reals = [0.0; sparse::REALS_SIZE];
    *tables.values = [0.0; CELL_ROOM];
}
