// A dense row, its constant at place 0, as the loose run of its present cells: what is merged into the lines.
ghost use Rattle.std.specs.Prelude.{◌≡◌, ◌≤◌, ◌<◌};
ghost use Rattle.layout.specs.cells.Names.{row_room};
ghost use Rattle.layout.specs.cells.Cells.{cells, packed};

use crate::merging::run::Run;
use layout::cells::ROW_ROOM;

// The present cells of the places 1 to k, as row 0.
pub fn loose_run(row: &[f64; ROW_ROOM], k: usize, run: &mut Run)
    requires { k < row_room }
    ensures run_after { cells run.new.keys run.new.vals run.new.size ≡ packed k 0 row.now (cells run.old.keys run.old.vals 0) }
    ensures upper_bound { run.new.size ≤ k }
{
    let mut n = 0;
    for p in 1..k + 1 {
        let x = row[p];
        if x == 0.0 {
            continue;
        }
        run.keys[n] = p as u16;
        run.vals[n] = x;
        n += 1;
    }
    run.size = n;
}
