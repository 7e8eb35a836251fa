// "A basic marker's row is dropped. Otherwise the leaving row is, in rank: .. Pivot, drop"
ghost use Rattle.std.specs.Prelude.{◌≡◌, false, ◌&&◌, ◌≤◌, get_or};
ghost use Rattle.std.specs.Float.Ieee.{ne};
ghost use Rattle.steps.specs.Number.{zero64, Mark};
ghost use Rattle.steps.specs.Work.{check_finite};
ghost use Rattle.steps.specs.Substitute.{pivot};
ghost use Rattle.steps.specs.Remove.{note_leaving, drop_marker};
ghost use Rattle.std.specs.Prelude.{None};
ghost use Rattle.rows.specs.Marks.{mark_of};
ghost use Rattle.sparse.specs.Places.{symbol_count_at, row_count_at};
ghost use Rattle.sparse.specs.Sparse.{symbol_at};
ghost use Rattle.waist.specs.Kinds.{kind_byte};
ghost use Rattle.waist.specs.substituting.Notes.{is_external_kind};
ghost use Rattle.waist.specs.Working.{work_of, Sound, sparse};
ghost use Rattle.waist.specs.Dropping.{Free};
ghost use Rattle.waist.specs.Standing.{Standing, Makes, row_symbol};
ghost use Rattle.waist.specs.Ending.{outcome_of, Goes, ended_of};
ghost use Rattle.waist.specs.Rows.{row_for};
ghost use Rattle.removal.specs.Marker.{without};
ghost use Rattle.sparse.specs.Tables.{held, Same};

use rows::number::Wrote;
use sparse::refusal::Refusal;
use sparse::tables::TablesMut;
use sparse::{Bytes, CONSTANTS, Keys, ROW_PLACES, Reals, Values, Words};
use waist::choices::{get_marker_leaving_row, row_of};
use waist::ending::{Refused, Went, check_finite};
use waist::holding::{drop_on, note_on, pivot_on};
use waist::kinds::Kind;
use waist::substituting::notes::kind_at;

fn leaves_noted(kind: Kind, constant: f64) -> bool
    ensures { result ≡ (is_external_kind (kind_byte kind) && ne constant zero64) }
{
    kind.is_external() & (constant != 0.0)
}

// "the last External row holding it, noted if its constant isn't zero": of the leaving row i.
fn note_leaving(
    words: &mut Words,
    keys: &Keys,
    bytes: &mut Bytes,
    reals: &Reals,
    values: &Values,
    i: u8,
)
    requires sound { Sound false (sparse words.old keys.now bytes.old reals.now values.now) }
    requires le_i { 1 ≤ i }
    requires i_bound { i ≤ get_or words.old row_count_at 0 }
    ensures { (a : Mark) → Standing false a (sparse words.old keys.now bytes.old reals.now values.now) → Makes false false a a (note_leaving (row_symbol (sparse words.old keys.now bytes.old reals.now values.now) i)) (sparse words.old keys.now bytes.old reals.now values.now) (sparse words.new keys.now bytes.new reals.now values.now) }
{
    let p = bytes[ROW_PLACES + i as usize];
    let kind = Kind::from(kind_at(bytes, p));
    let on = leaves_noted(kind, reals[CONSTANTS + i as usize]);
    note_on(on, words, bytes, p);
}

// The leaving row i is noted; then it leaves, and the marker at place p enters.
fn pivot_marker(
    room: &mut TablesMut,
    i: u8,
    p: u8,
    pivots: u32,
    before: Wrote,
) -> Result<Went, Refused>
    requires standing { Standing false (mark_of before) (held room.old) }
    requires le_i { 1 ≤ i }
    requires i_bound { i ≤ get_or room.old.words.now row_count_at 0 }
    requires le_p { 1 ≤ p }
    requires p_bound { p ≤ get_or room.old.words.now symbol_count_at 0 }
    requires free { Free p (held room.old) }
    ensures values_value { outcome_of false (ended_of result) (held room.new) ≡ check_finite (pivot (row_symbol (held room.old) i).id (symbol_at (held room.old) p) (note_leaving (row_symbol (held room.old) i) (work_of false (mark_of before) pivots (held room.old)))) }
    ensures goes { Goes false (ended_of result) (held room.new) }
    ensures same { Same room.old room.new }
{
    note_leaving(
        room.words,
        room.keys,
        room.bytes,
        room.reals,
        room.values,
        i,
    );
    let w = pivot_on(false, room, i, p, before);
    check_finite(pivots, w)
}

// The row of the symbol at place p, if it is basic, goes.
fn drop_row_of(room: &mut TablesMut, p: u8)
    requires sound { Sound false (held room.old) }
    requires le_p { 1 ≤ p }
    requires p_bound { p ≤ get_or room.old.words.now symbol_count_at 0 }
    ensures does { (a : Mark) → Standing false a (held room.old) → Makes false false a a (without (symbol_at (held room.old) p).id) (held room.old) (held room.new) }
    ensures same { Same room.old room.new }
{
    let f = row_of(room.words, room.bytes, p);
    let Some(i) = f else {
        return;
    };
    drop_on(false, room, i as u8);
}

// The marker, at place p, is not basic. 17: "a removal finds no leaving row"
fn enter_and_drop(room: &mut TablesMut, p: u8, pivots: u32, before: Wrote) -> Result<Went, Refused>
    requires standing { Standing false (mark_of before) (held room.old) }
    requires le_p { 1 ≤ p }
    requires p_bound { p ≤ get_or room.old.words.now symbol_count_at 0 }
    requires bytes_value { row_for p room.old.words.now room.old.bytes.now ≡ None }
    ensures values_value { outcome_of false (ended_of result) (held room.new) ≡ drop_marker (symbol_at (held room.old) p) (work_of false (mark_of before) pivots (held room.old)) }
    ensures goes { Goes false (ended_of result) (held room.new) }
    ensures same { Same room.old room.new }
{
    let f = get_marker_leaving_row(&room.lend(), p);
    let Some(i) = f else {
        return Err(Refused {
            why: Refusal::NoRemovalRow,
            pivots,
            wrote: before,
        });
    };
    let went = pivot_marker(room, i as u8, p, pivots, before)?;
    drop_row_of(room, p);
    Ok(went)
}

// The marker, at place p.
pub fn drop_marker(room: &mut TablesMut, p: u8, pivots: u32, before: Wrote) -> Result<Went, Refused>
    requires standing { Standing false (mark_of before) (held room.old) }
    requires le_p { 1 ≤ p }
    requires p_bound { p ≤ get_or room.old.words.now symbol_count_at 0 }
    ensures values_value { outcome_of false (ended_of result) (held room.new) ≡ drop_marker (symbol_at (held room.old) p) (work_of false (mark_of before) pivots (held room.old)) }
    ensures goes { Goes false (ended_of result) (held room.new) }
    ensures same { Same room.old room.new }
{
    let f = row_of(room.words, room.bytes, p);
    let Some(i) = f else {
        return enter_and_drop(room, p, pivots, before);
    };
    drop_on(false, room, i as u8);
    Ok(Went {
        pivots,
        wrote: before,
    })
}
