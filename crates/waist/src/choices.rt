// Which row leaves, which symbol enters.
ghost use Rattle.std.specs.Prelude.{◌≡◌, false, not, ◌&&◌, ℕ, ◌≤◌, ◌<◌, get_or};
ghost use Rattle.steps.specs.Number.{Mark, below_zero};
ghost use Rattle.steps.specs.Optimise.{get_entering_symbol, get_leaving_row, get_dual_entering_symbol};
ghost use Rattle.steps.specs.Artificial.{any_pivotable_symbol, is_empty_row};
ghost use Rattle.steps.specs.Remove.{get_marker_leaving_row};
ghost use Rattle.rows.specs.choose.Choose.{Within};
ghost use Rattle.sparse.specs.Places.{most_rows, symbol_count_at, row_count_at};
ghost use Rattle.sparse.specs.Sparse.{symbol_count, row_count, symbol_at, basic_of};
ghost use Rattle.layout.specs.cells.Names.{last_place};
ghost use Rattle.waist.specs.Kinds.{kind_byte};
ghost use Rattle.waist.specs.substituting.Notes.{is_external_kind};
ghost use Rattle.waist.specs.Working.{work_of, Sound};
ghost use Rattle.waist.specs.Standing.{row_symbol, Chooses};
ghost use Rattle.waist.specs.Choosing.{goal_of, is_dummy_kind, dual_leaving_of, entering_of};
ghost use Rattle.waist.specs.Rows.{row_for};
ghost use Rattle.sparse.specs.Tables.{lent};

use crate::kinds::Kind;
use crate::looks::{first_along, load_line};
use crate::marker::{first_dummy_row, last_external_row};
use crate::ratios::{dual_along, ratio_row};
use crate::substituting::notes::kind_at;
use layout::cells::ROW_ROOM;
use rows::choose::Want;
use sparse::tables::Tables;
use sparse::{
    Bytes, CONSTANTS, KINDS, OBJECTIVE, ROW_COUNT, ROW_PLACES, Reals, SYMBOL_COUNT, Words,
};

fn is_below(kind: Kind, constant: f64) -> bool
    ensures { result ≡ (not (is_external_kind (kind_byte kind)) && below_zero constant) }
{
    !kind.is_external() & (constant < 0.0)
}

// "the restricted row below 0 with the lowest id": rows stand by ascending id.
pub fn get_dual_leaving_row(words: &Words, bytes: &Bytes, reals: &Reals) -> Option<usize>
    requires { get_or words.now row_count_at 0 < most_rows }
    ensures value { result ≡ dual_leaving_of words.now bytes.now reals.now }
    ensures within { Within (get_or words.now row_count_at 0) result }
{
    let n = words[ROW_COUNT] as usize;
    for i in 1..n + 1 {
        let p = bytes[ROW_PLACES + i];
        if is_below(Kind::from(kind_at(bytes, p)), reals[CONSTANTS + i]) {
            return Some(i);
        }
    }
    None
}

fn can_enter(kind: Kind, cell: f64) -> bool
    ensures { result ≡ (not (is_dummy_kind (kind_byte kind)) && below_zero cell) }
{
    !kind.is_dummy() & (cell < 0.0)
}

// "entering is the first non-dummy with a cell below 0", in the objective.
pub fn get_entering_symbol(words: &Words, bytes: &Bytes, reals: &Reals) -> Option<usize>
    requires { get_or words.now symbol_count_at 0 ≤ last_place }
    ensures value { result ≡ entering_of words.now bytes.now reals.now }
    ensures within { Within (get_or words.now symbol_count_at 0) result }
{
    let n = words[SYMBOL_COUNT] as usize;
    for p in 1..n + 1 {
        if can_enter(Kind::from(bytes[KINDS + p]), reals[OBJECTIVE + p]) {
            return Some(p);
        }
    }
    None
}

// In the objective, or in the artificial objective: the line after the rows.
pub fn get_goal_entering_symbol(art: bool, tables: &Tables) -> Option<usize>
    requires { Sound art (lent tables.now) }
    ensures { Chooses art (get_entering_symbol (goal_of art)) (symbol_at (lent tables.now)) (get_or tables.now.words.now symbol_count_at 0) (lent tables.now) result }
{
    let words = tables.words;
    if art {
        let mut row: [f64; ROW_ROOM] = [0.0; ROW_ROOM];
        let i = 1 + words[ROW_COUNT] as u8;
        load_line(tables, i, &mut row);
        return first_along(Want::NonDummy, true, words, tables.bytes, &row);
    }
    get_entering_symbol(words, tables.bytes, tables.reals)
}

// "Leaving is the restricted row with a negative cell there and the smallest -constant/cell".
pub fn get_leaving_row(art: bool, tables: &Tables, p: u8) -> Option<usize>
    requires sound { Sound art (lent tables.now) }
    requires le_p { 1 ≤ p }
    requires p_bound { p ≤ get_or tables.now.words.now symbol_count_at 0 }
    ensures { Chooses art (get_leaving_row (symbol_at (lent tables.now) p)) (row_symbol (lent tables.now)) (get_or tables.now.words.now row_count_at 0) (lent tables.now) result }
{
    ratio_row(true, art, tables, p)
}

// "Entering is the non-dummy positive cell with strictly smallest objective cell / cell, the lowest id on a tie", of row i.
pub fn get_dual_entering_symbol(tables: &Tables, i: u8) -> Option<usize>
    requires sound { Sound false (lent tables.now) }
    requires i_bound { i ≤ get_or tables.now.words.now row_count_at 0 }
    ensures { Chooses false (get_dual_entering_symbol (basic_of (lent tables.now) i).row) (symbol_at (lent tables.now)) (get_or tables.now.words.now symbol_count_at 0) (lent tables.now) result }
{
    let mut row: [f64; ROW_ROOM] = [0.0; ROW_ROOM];
    load_line(tables, i, &mut row);
    dual_along(tables.words, tables.bytes, tables.reals, &row)
}

// The row that is for the symbol at place p.
pub fn row_of(words: &Words, bytes: &Bytes, p: u8) -> Option<usize>
    requires { get_or words.now row_count_at 0 < most_rows }
    ensures value { result ≡ row_for p words.now bytes.now }
    ensures within { Within (get_or words.now row_count_at 0) result }
{
    let n = words[ROW_COUNT] as usize;
    (1..n + 1).find(|i| p == bytes[ROW_PLACES + *i])
}

// "the row's first slack or Error", of row i.
pub fn any_pivotable_symbol(tables: &Tables, i: u8) -> Option<usize>
    requires sound { Sound false (lent tables.now) }
    requires i_bound { i ≤ get_or tables.now.words.now row_count_at 0 }
    ensures { Chooses false (any_pivotable_symbol (basic_of (lent tables.now) i).row) (symbol_at (lent tables.now)) (get_or tables.now.words.now symbol_count_at 0) (lent tables.now) result }
{
    let mut row: [f64; ROW_ROOM] = [0.0; ROW_ROOM];
    load_line(tables, i, &mut row);
    first_along(Want::Pivotable, false, tables.words, tables.bytes, &row)
}

// "an empty row": row i.
pub fn is_empty_row(tables: &Tables, i: u8) -> bool
    requires sound { Sound false (lent tables.now) }
    requires i_bound { i ≤ get_or tables.now.words.now row_count_at 0 }
    ensures { (a : Mark) (v : ℕ) → result ≡ is_empty_row (basic_of (lent tables.now) i).row (work_of false a v (lent tables.now)) }
{
    let mut row: [f64; ROW_ROOM] = [0.0; ROW_ROOM];
    load_line(tables, i, &mut row);
    first_along(Want::Any, false, tables.words, tables.bytes, &row).is_none()
}

// "the leaving row is, in rank: .."
pub fn get_marker_leaving_row(tables: &Tables, p: u8) -> Option<usize>
    requires sound { Sound false (lent tables.now) }
    requires le_p { 1 ≤ p }
    requires p_bound { p ≤ get_or tables.now.words.now symbol_count_at 0 }
    ensures { Chooses false (get_marker_leaving_row (symbol_at (lent tables.now) p).id) (row_symbol (lent tables.now)) (get_or tables.now.words.now row_count_at 0) (lent tables.now) result }
{
    // `or_else` tells the proof nothing of what its closure gave, unless each of the three has clauses of its own.
    let f = first_dummy_row(tables, p);
    let None = f else {
        return f;
    };
    let g = ratio_row(true, false, tables, p);
    let None = g else {
        return g;
    };
    let h = ratio_row(false, false, tables, p);
    let None = h else {
        return h;
    };
    last_external_row(tables, p)
}
