// All lines in one pass: the cells from the first line that holds the symbol on move to the far end of the tables, and come down again, those of a line that holds it merged. No cell moves more than twice.
ghost use Rattle.std.specs.Prelude.{◌≡◌, ◌+◌, ◌≤◌, ◌<◌};
ghost use Rattle.steps.specs.Number.{all_whole};
ghost use Rattle.rows.specs.Marks.{mark_of};
ghost use Rattle.sparse.specs.Places.{most_rows};
ghost use Rattle.layout.specs.cells.Names.{cell_room, row_room, lines_room, last_place};
ghost use Rattle.layout.specs.cells.Spots.{Spots};
ghost use Rattle.waist.specs.merging.Merge.{RunOf};
ghost use Rattle.waist.specs.substituting.Held.{Held};
ghost use Rattle.waist.specs.substituting.Lines.{lines, lines_in};
ghost use Rattle.waist.specs.substituting.Apart.{Ready};
ghost use Rattle.waist.specs.substituting.Carried.{Carries};
ghost use Rattle.waist.specs.substituting.Passed.{FirstSpot, Alike};

use crate::merging::merge::{Merged, merge_run};
use crate::merging::row::paste;
use crate::merging::run::Run;
use layout::cells::edges::{run_end, run_start};
use layout::cells::slide::slide;
use layout::cells::{CELL_ROOM, LINES_ROOM, ROW_SPAN};
use rows::number::{CELL_BOUND, CONSTANT_BOUND, Wrote, joined, mark_write, nothing};
use sparse::{CONSTANTS, Keys, Reals, Values};

// How many cells have come down, where those still at the far end begin, and what was written.
#[derive(Clone, Copy)]
pub struct Passed {
    pub front: usize,
    pub back: usize,
    pub wrote: Wrote,
}

// Line i holds the symbol at cell c of the far end: what stands before its run comes down, and behind that its run, merged.
fn merge_line(
    cutoff: f64,
    keys: &mut Keys,
    values: &mut Values,
    reals: &mut Reals,
    i: u8,
    at: u8,
    c: usize,
    other: &Run,
    y: f64,
    fresh: &mut Run,
    before: Passed,
) -> Passed
    requires i_le_most_rows { i ≤ most_rows }
    requires ready { Ready i at before.front before.back c keys.old }
    requires size_le_row_room { other.now.size ≤ row_room }
    requires run_of { RunOf other.now.keys 0 0 other.now.size }
    ensures { Carries cutoff at other.now.size y other.now.keys other.now.vals i before.back (lines keys.old values.old before.front reals.old (mark_of before.wrote)) result.back (lines keys.new values.new result.front reals.new (mark_of result.wrote)) }
{
    let low = i as u16 * ROW_SPAN;
    let a = run_start(keys, before.back, c, low);
    let e = run_end(keys, c, CELL_ROOM, low + ROW_SPAN);
    let k = values[c];
    let place = CONSTANTS + i as usize;
    let total = reals[place] + y * k;
    reals[place] = total;
    let w = merge_run(
        cutoff, keys, values, a, e, i, at, other, k, CELL_BOUND, fresh,
    );
    let next = before.front + (a - before.back);
    slide(keys, values, before.back, a, before.front);
    paste(fresh, keys, values, next);
    let t = mark_write(CONSTANT_BOUND, total);
    Passed {
        front: next + fresh.size,
        back: e,
        wrote: joined(before.wrote, joined(t, w)),
    }
}

// The first line that holds the symbol, or one past the last.
fn first_line(spots: &[u16; LINES_ROOM], n: usize, count: u8) -> u8
    requires { count ≤ most_rows }
    ensures { FirstSpot spots.now n count result }
{
    for i in 1..count + 1 {
        if (spots[i as usize] as usize) < n {
            return i;
        }
    }
    1 + count
}

// In the lines 1 to `count`; `spots` says where they hold the symbol.
pub fn substitute_lines(
    cutoff: f64,
    keys: &mut Keys,
    values: &mut Values,
    n: usize,
    reals: &mut Reals,
    count: u8,
    at: u8,
    spots: &[u16; LINES_ROOM],
    other: &Run,
    y: f64,
    fresh: &mut Run,
) -> Merged
    requires count_le_most_rows { count ≤ most_rows }
    requires at_le_last_place { at ≤ last_place }
    requires size_le_row_room { other.now.size ≤ row_room }
    requires held { Held count n keys.old values.old }
    requires spots { Spots keys.old n at spots.now }
    requires run_of { RunOf other.now.keys 0 0 other.now.size }
    ensures { Alike (lines keys.new values.new result.size reals.new (mark_of result.wrote)) (lines_in cutoff at other.now.size y other.now.keys other.now.vals count (lines keys.old values.old n reals.old all_whole)) }
{
    let w = nothing();
    let first = first_line(spots, n, count);
    if count < first {
        return Merged { size: n, wrote: w };
    }
    let d = CELL_ROOM - n;
    let low = first as u16 * ROW_SPAN;
    let b = run_start(keys, 0, spots[first as usize] as usize, low);
    let s = b + d;
    slide(keys, values, b, n, s);
    let mut p = Passed {
        front: b,
        back: s,
        wrote: w,
    };
    for i in first..count + 1 {
        let c = spots[i as usize] as usize;
        if c >= n {
            continue;
        }
        p = merge_line(
            cutoff,
            keys,
            values,
            reals,
            i,
            at,
            c + d,
            other,
            y,
            fresh,
            p,
        );
    }
    slide(keys, values, p.back, CELL_ROOM, p.front);
    Merged {
        size: p.front + (CELL_ROOM - p.back),
        wrote: p.wrote,
    }
}
