// Ratio tests: "an infinite ratio never counts and the lowest id wins a tie".
ghost use Rattle.std.specs.Prelude.{◌≡◌, true, not, ◌&&◌, ◌≤◌, ◌<◌, get_or};
ghost use Rattle.std.specs.Float.Ieee.{lt};
ghost use Rattle.steps.specs.Number.{zero64, ◌/₆₄◌};
ghost use Rattle.rows.specs.choose.Choose.{Within, ratio_of, better_of, found_of};
ghost use Rattle.sparse.specs.Places.{symbol_count_at, row_count_at};
ghost use Rattle.layout.specs.cells.Names.{last_place};
ghost use Rattle.waist.specs.Kinds.{kind_byte};
ghost use Rattle.waist.specs.substituting.Notes.{is_external_kind};
ghost use Rattle.waist.specs.Working.{Sound};
ghost use Rattle.waist.specs.Choosing.{is_dummy_kind};
ghost use Rattle.waist.specs.Ratios.{signed, over, ratio_row_of, dual_entering_of};
ghost use Rattle.sparse.specs.Tables.{lent};

use crate::kinds::Kind;
use crate::spots::spots_of;
use crate::substituting::notes::kind_at;
use layout::cells::ROW_ROOM;
use layout::cells::spots::spot_cell;
use rows::choose::Best;
use sparse::tables::Tables;
use sparse::{
    Bytes, CELL_COUNT, CONSTANTS, KINDS, OBJECTIVE, ROW_COUNT, ROW_PLACES, Reals, SYMBOL_COUNT,
    Words,
};

// What a ratio has to be below: where there is none so far, every finite one is.
fn ratio_of(b: Option<Best>) -> f64
    ensures { result ≡ ratio_of b }
{
    match b {
        Some(best) => best.ratio,
        None => 1.0 / 0.0,
    }
}

fn better(i: usize, ratio: f64, b: Option<Best>) -> Option<Best>
    ensures { result ≡ better_of i true ratio b }
{
    let top = 1.0 / 0.0;
    let least = ratio_of(b);
    if (-top < ratio) & (ratio < least) {
        Some(Best { at: i, ratio })
    } else {
        b
    }
}

fn found_of(b: Option<Best>, n: usize) -> Option<usize>
    ensures value { result ≡ found_of n b }
    ensures within { Within n result }
{
    let Some(best) = b else {
        return None;
    };
    ((1 <= best.at) & (best.at <= n)).then_some(best.at)
}

// ---- down a column

fn is_signed(down: bool, x: f64) -> bool
    ensures { result ≡ signed down x }
{
    if down {
        return x < 0.0;
    }
    0.0 < x
}

fn numerator(down: bool, x: f64) -> f64
    ensures { result ≡ over down x }
{
    if down {
        return -x;
    }
    x
}

fn row_better(
    down: bool,
    i: usize,
    kind: Kind,
    cell: f64,
    constant: f64,
    b: Option<Best>,
) -> Option<Best>
    ensures { result ≡ better_of i (not (is_external_kind (kind_byte kind)) && signed down cell) (over down constant /₆₄ cell) b }
{
    if !kind.is_external() & is_signed(down, cell) {
        better(i, numerator(down, constant) / cell, b)
    } else {
        b
    }
}

// With `down`: "the restricted row with a negative cell there and the smallest -constant/cell"; else "restricted with positive cell, smallest constant/cell".
pub fn ratio_row(down: bool, art: bool, tables: &Tables, p: u8) -> Option<usize>
    requires sound { Sound art (lent tables.now) }
    requires p_le_last_place { p ≤ last_place }
    ensures value { result ≡ ratio_row_of down p (lent tables.now) }
    ensures within { Within (get_or tables.now.words.now row_count_at 0) result }
{
    let words = tables.words;
    let bytes = tables.bytes;
    let reals = tables.reals;
    let n = words[ROW_COUNT] as usize;
    let m = words[CELL_COUNT] as usize;
    let spots = spots_of(art, tables, p);
    let mut b: Option<Best> = None;
    for i in 1..n + 1 {
        let kind = Kind::from(kind_at(bytes, bytes[ROW_PLACES + i]));
        let x = spot_cell(tables.keys, tables.values, m, p, &spots, i);
        b = row_better(down, i, kind, x, reals[CONSTANTS + i], b);
    }
    found_of(b, n)
}

// ---- along a dense row

fn dual_better(p: usize, kind: Kind, cell: f64, objective: f64, b: Option<Best>) -> Option<Best>
    ensures { result ≡ better_of p (not (is_dummy_kind (kind_byte kind)) && lt zero64 cell) (objective /₆₄ cell) b }
{
    if !kind.is_dummy() & (0.0 < cell) {
        better(p, objective / cell, b)
    } else {
        b
    }
}

// "the non-dummy positive cell with strictly smallest objective cell / cell, the lowest id on a tie"
pub fn dual_along(
    words: &Words,
    bytes: &Bytes,
    reals: &Reals,
    row: &[f64; ROW_ROOM],
) -> Option<usize>
    requires { get_or words.now symbol_count_at 0 ≤ last_place }
    ensures value { result ≡ dual_entering_of words.now bytes.now reals.now row.now }
    ensures within { Within (get_or words.now symbol_count_at 0) result }
{
    let n = words[SYMBOL_COUNT] as usize;
    let mut b: Option<Best> = None;
    for p in 1..n + 1 {
        b = dual_better(
            p,
            Kind::from(bytes[KINDS + p]),
            row[p],
            reals[OBJECTIVE + p],
            b,
        );
    }
    found_of(b, n)
}
