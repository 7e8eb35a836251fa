// Where a row's run begins and ends, by walking from one of its cells: a run is short.
ghost use Rattle.std.specs.Prelude.{◌≤◌};
ghost use Rattle.layout.specs.cells.Names.{cell_room};
ghost use Rattle.layout.specs.cells.Edges.{Begins, Ends};

use crate::cells::CELL_ROOM;

// From cell c back to a: the keys from there on are not below `low`.
pub fn run_start(keys: &[u16; CELL_ROOM], a: usize, c: usize, low: u16) -> usize
    requires a_le_c { a ≤ c }
    requires c_le_cell_room { c ≤ cell_room }
    ensures { Begins keys.now low a c result }
{
    for r in (a..c).rev() {
        if keys[r] < low {
            return r + 1;
        }
    }
    a
}

// From cell c on to e: the keys up to there are below `high`.
pub fn run_end(keys: &[u16; CELL_ROOM], c: usize, e: usize, high: u16) -> usize
    requires c_le_e { c ≤ e }
    requires e_le_cell_room { e ≤ cell_room }
    ensures { Ends keys.now high c e result }
{
    for r in c..e {
        if high <= keys[r] {
            return r;
        }
    }
    e
}
