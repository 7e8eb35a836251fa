// What a merge leaves, put into the tables.
ghost use Rattle.std.specs.Prelude.{◌≡◌, ◌+◌, ◌≤◌};
ghost use Rattle.std.specs.Float.{nan};
ghost use Rattle.layout.specs.cells.Names.{cell_room, row_room};
ghost use Rattle.waist.specs.merging.Merge.{pasted};

use crate::merging::run::Run;
use layout::cells::CELL_ROOM;

// A loose run, put from place a on.
pub fn paste(run: &Run, keys: &mut [u16; CELL_ROOM], vals: &mut [f64; CELL_ROOM], a: usize)
    requires size_le_row_room { run.now.size ≤ row_room }
    requires size_bound { a + run.now.size ≤ cell_room }
    ensures keys_after { keys.new ≡ pasted 0 a run.now.size run.now.keys keys.old }
    ensures vals_after { vals.new ≡ pasted nan a run.now.size run.now.vals vals.old }
{
    let m = run.size;
    for j in 0..m {
        keys[a + j] = run.keys[j];
        vals[a + j] = run.vals[j];
    }
}
