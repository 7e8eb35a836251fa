// The shift of the constants that a suggestion moves, with the notes that it leaves.
// The five tables are parameters of their own here: which of them are read alone their types say, and a `TablesMut` would need a clause for each.
ghost use Rattle.std.specs.Prelude.{◌≡◌, false, ◌&&◌, ◌+◌, ◌≤◌, ◌<◌, get_or};
ghost use Rattle.steps.specs.Number.{worse};
ghost use Rattle.steps.specs.Edit as steps;
ghost use Rattle.rows.specs.Marks.{mark_of};
ghost use Rattle.sparse.specs.Places.{most_rows, symbol_count_at, row_count_at, cell_count_at, variable_count_at, most_variables};
ghost use Rattle.layout.specs.cells.Names.{cell_room, last_place};
ghost use Rattle.layout.specs.cells.Cells.{Ascending};
ghost use Rattle.layout.specs.cells.Spots.{Lined, Spots};
ghost use Rattle.waist.specs.Kinds.{kind_byte};
ghost use Rattle.waist.specs.substituting.Notes.{noted, is_external_kind};
ghost use Rattle.waist.specs.Working.{sparse};
ghost use Rattle.waist.specs.Rows.{row_for};
ghost use Rattle.waist.specs.Tags.{tag_at};
ghost use Rattle.waist.specs.Standing.{Standing, Makes};
ghost use Rattle.optimising.specs.suggestion.Drags.{is_found, other_found, drag_of};
ghost use Rattle.optimising.specs.suggestion.Shifting.{optional, shift_by, changes_by, shift_reals, shift_mark, shifted, shift_rows_in};

use layout::cells::LINES_ROOM;
use layout::cells::spots::{fill_spots, no_spots, spot_cell};
use rows::number::{CONSTANT_BOUND, Wrote, joined, mark_write};
use sparse::{Bytes, CELL_COUNT, CONSTANTS, Keys, ROW_COUNT, ROW_PLACES, Reals, Values, Words};
use waist::choices::row_of;
use waist::kinds::Kind;
use waist::substituting::notes::{kind_at, var_changed_if};

// The row of the symbol at place `own` gets `by`; or else, where that is 0, each row gets `by` times its cell at place `at`.
#[derive(Clone, Copy)]
pub struct Drag {
    pub own: u8,
    pub at: u8,
    pub by: f64,
}

fn is_found(f: Option<usize>) -> bool
    ensures { result ≡ is_found f }
{
    match f {
        Some(_) => true,
        None => false,
    }
}

fn is_basic(words: &Words, bytes: &Bytes, p: u8) -> bool
    requires { get_or words.now row_count_at 0 < most_rows }
    ensures { result ≡ is_found (row_for p words.now bytes.now) }
{
    is_found(row_of(words, bytes, p))
}

// 0 is no other.
fn is_basic_other(words: &Words, bytes: &Bytes, p: u8) -> bool
    requires { get_or words.now row_count_at 0 < most_rows }
    ensures { result ≡ other_found p words.now bytes.now }
{
    (p != 0) & is_basic(words, bytes, p)
}

// "Marker basic: add -delta; else other basic: add delta; else every row holding the marker gets delta times that cell."
fn drag_of(words: &Words, bytes: &Bytes, marker: u8, other: u8, delta: f64) -> Drag
    requires { get_or words.now row_count_at 0 < most_rows }
    ensures { result ≡ drag_of marker other delta words.now bytes.now }
{
    if is_basic(words, bytes, marker) {
        return Drag {
            own: marker,
            at: 0,
            by: -delta,
        };
    }
    if is_basic_other(words, bytes, other) {
        return Drag {
            own: other,
            at: 0,
            by: delta,
        };
    }
    Drag {
        own: 0,
        at: marker,
        by: delta,
    }
}

// Which cell of each row names the place that the rows are shifted by, where they are.
fn spots_for(d: Drag, keys: &Keys, n: usize) -> [u16; LINES_ROOM]
    requires n_le_cell_room { n ≤ cell_room }
    requires lined { Lined keys.now n }
    ensures { d.own ≡ 0 → Spots keys.now n d.at result }
{
    let mut spots = no_spots();
    if d.own == 0 {
        fill_spots(keys, n, d.at, &mut spots);
        return spots;
    }
    spots
}

// What row i gets, if it gets anything: its symbol stands at place p.
fn shift_of(
    d: Drag,
    keys: &Keys,
    values: &Values,
    n: usize,
    spots: &[u16; LINES_ROOM],
    p: u8,
    i: u8,
) -> Option<f64>
    requires n_le_cell_room { n ≤ cell_room }
    requires i_lt_most_rows { i < most_rows }
    requires ascending { Ascending keys.now n }
    requires spots { d.own ≡ 0 → Spots keys.now n d.at spots.now }
    ensures { optional result ≡ shift_by d n keys.now values.now p i }
{
    if d.own == 0 {
        let c = spot_cell(keys, values, n, d.at, spots, i as usize);
        return (c != 0.0).then_some(d.by * c);
    }
    (d.own == p).then_some(d.by)
}

// "A product that isn't zero notes an External."
fn is_noted(kind: Kind, s: Option<f64>) -> bool
    ensures { result ≡ (is_external_kind (kind_byte kind) && changes_by (optional s)) }
{
    match s {
        Some(by) => kind.is_external() & (by != 0.0),
        None => false,
    }
}

fn shift_row(reals: &mut Reals, i: u8, s: Option<f64>, before: Wrote) -> Wrote
    requires { i < most_rows }
    ensures result_value { mark_of result ≡ worse (mark_of before) (shift_mark (optional s) i reals.old) }
    ensures reals_after { reals.new ≡ shift_reals (optional s) i reals.old }
{
    let Some(by) = s else {
        return before;
    };
    let at = CONSTANTS + i as usize;
    let total = reals[at] + by;
    reals[at] = total;
    joined(before, mark_write(CONSTANT_BOUND, total))
}

// In all rows.
fn shift_rows(
    words: &mut Words,
    keys: &Keys,
    bytes: &mut Bytes,
    reals: &mut Reals,
    values: &Values,
    d: Drag,
    before: Wrote,
) -> Wrote
    requires row_count_at_bound { get_or words.old row_count_at 0 < most_rows }
    requires cell_count_at_bound { get_or words.old cell_count_at 0 ≤ cell_room }
    requires variable_count_at_bound { get_or words.old variable_count_at 0 ≤ most_variables }
    requires ascending { Ascending keys.now (get_or words.old cell_count_at 0) }
    requires lined { Lined keys.now (get_or words.old cell_count_at 0) }
    ensures { shifted (noted words.new bytes.new) reals.new (mark_of result) ≡ shift_rows_in d (get_or words.old cell_count_at 0) keys.now values.now (get_or words.old row_count_at 0) (shifted (noted words.old bytes.old) reals.old (mark_of before)) }
{
    let count = words[ROW_COUNT] as u8;
    let n = words[CELL_COUNT] as usize;
    let spots = spots_for(d, keys, n);
    let mut w = before;
    for i in 1..count + 1 {
        let p = bytes[ROW_PLACES + i as usize];
        let s = shift_of(d, keys, values, n, &spots, p, i);
        let on = is_noted(Kind::from(kind_at(bytes, p)), s);
        var_changed_if(on, words, bytes, p);
        w = shift_row(reals, i, s, w);
    }
    w
}

// By the tag's two places; 0 is no other.
pub fn shift_constants(
    words: &mut Words,
    keys: &Keys,
    bytes: &mut Bytes,
    reals: &mut Reals,
    values: &Values,
    marker: u8,
    other: u8,
    delta: f64,
    before: Wrote,
) -> Wrote
    requires standing { Standing false (mark_of before) (sparse words.old keys.now bytes.old reals.old values.now) }
    requires le_marker { 1 ≤ marker }
    requires marker_bound { marker ≤ get_or words.old symbol_count_at 0 }
    requires other_bound { other ≤ get_or words.old symbol_count_at 0 }
    ensures { Makes false false (mark_of before) (mark_of result) (steps.shift_constants (tag_at (sparse words.old keys.now bytes.old reals.old values.now) marker other) delta) (sparse words.old keys.now bytes.old reals.old values.now) (sparse words.new keys.now bytes.new reals.new values.now) }
{
    let d = drag_of(words, bytes, marker, other, delta);
    shift_rows(words, keys, bytes, reals, values, d, before)
}
