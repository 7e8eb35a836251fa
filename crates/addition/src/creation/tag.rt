// Add's step 2, the tag of a new row: its slack, error and dummy symbols come, into the tableau, the row and the objective.
// The five tables are parameters of their own here: which of them are read alone their types say, and a `TablesMut` would need a clause for each.
ghost use Rattle.std.specs.Prelude.{◌≡◌, false, ◌+◌, ◌≤◌, ◌<◌};
ghost use Rattle.steps.specs.Work.{new_symbol};
ghost use Rattle.steps.specs.State.{equal};
ghost use Rattle.steps.specs.CreateRow.{add_symbol, add_error, inequality, soft_equality, required_equality, add_tag};
ghost use Rattle.layout.specs.Layout.{kind_of};
ghost use Rattle.rows.specs.Marks.{mark_of};
ghost use Rattle.layout.specs.cells.Names.{last_place};
ghost use Rattle.sparse.specs.Sparse.{symbol_count};
ghost use Rattle.changes.specs.tags.Tags.{relation_of};
ghost use Rattle.waist.specs.Kinds.{kind_byte};
ghost use Rattle.waist.specs.Working.{sparse};
ghost use Rattle.waist.specs.Standing.{Standing};
ghost use Rattle.waist.specs.Growing.{next_id};
ghost use Rattle.addition.specs.creation.Building.{Builds};
ghost use Rattle.addition.specs.creation.Growth.{Grows};
ghost use Rattle.addition.specs.creation.Tags.{Tags};

use changes::tags::Relation;
use layout::cells::ROW_ROOM;
use rows::number::{CELL_BOUND, Wrote, joined};
use rows::row::insert_symbol;
use rows::strength::REQUIRED;
use sparse::{Bytes, CUTOFF, Keys, Reals, SYMBOL_COUNT, Values, Words};
use waist::kinds::Kind;
use waist::objective::insert_in_objective;
use waist::symbols::append_symbol;

// The places of a constraint's symbols, other 0 if there is none, and what was written so far.
#[derive(Clone, Copy)]
pub struct Tagged {
    pub marker: u8,
    pub other: u8,
    pub wrote: Wrote,
}

// A new symbol of this kind, in the row with k.
fn add_symbol(
    words: &mut Words,
    keys: &Keys,
    bytes: &mut Bytes,
    reals: &mut Reals,
    values: &Values,
    row: &mut [f64; ROW_ROOM],
    kind: Kind,
    k: f64,
    past: Wrote,
) -> Wrote
    requires standing { Standing false (mark_of past) (sparse words.old keys.now bytes.old reals.old values.now) }
    requires values_bound { symbol_count (sparse words.old keys.now bytes.old reals.old values.now) < last_place }
    requires values_bound_2 { next_id (sparse words.old keys.now bytes.old reals.old values.now) < 9223372036854775808 }
    ensures grows { Grows (kind_byte kind) (sparse words.old keys.now bytes.old reals.old values.now) (sparse words.new keys.now bytes.new reals.new values.now) }
    ensures builds { Builds (mark_of past) (mark_of result) (λ b. add_symbol (new_symbol (kind_of (kind_byte kind)) b.work) k b) (sparse words.old keys.now bytes.old reals.old values.now) (sparse words.new keys.now bytes.new reals.new values.now) row.old row.new }
{
    let p = usize::from(append_symbol(words, keys, bytes, reals, values, kind));
    row[p] = 0.0;
    let w = insert_symbol(reals[CUTOFF], row, p, k, CELL_BOUND);
    joined(past, w)
}

// A new error, in the row with k and in the objective with the strength.
fn add_error(
    words: &mut Words,
    keys: &Keys,
    bytes: &mut Bytes,
    reals: &mut Reals,
    values: &Values,
    row: &mut [f64; ROW_ROOM],
    k: f64,
    strength: f64,
    past: Wrote,
) -> Wrote
    requires standing { Standing false (mark_of past) (sparse words.old keys.now bytes.old reals.old values.now) }
    requires values_bound { symbol_count (sparse words.old keys.now bytes.old reals.old values.now) < last_place }
    requires values_bound_2 { next_id (sparse words.old keys.now bytes.old reals.old values.now) < 9223372036854775808 }
    ensures grows { Grows 2 (sparse words.old keys.now bytes.old reals.old values.now) (sparse words.new keys.now bytes.new reals.new values.now) }
    ensures builds { Builds (mark_of past) (mark_of result) (λ b. add_error (new_symbol (kind_of 2) b.work) k strength b) (sparse words.old keys.now bytes.old reals.old values.now) (sparse words.new keys.now bytes.new reals.new values.now) row.old row.new }
{
    let p = 1 + words[SYMBOL_COUNT] as u8;
    let v = add_symbol(words, keys, bytes, reals, values, row, Kind::Error, k, past);
    insert_in_objective(words, keys, bytes, reals, values, p, strength, v)
}

// Slack, and if the strength is below required an error of opposite sign.
fn inequality(
    words: &mut Words,
    keys: &Keys,
    bytes: &mut Bytes,
    reals: &mut Reals,
    values: &Values,
    row: &mut [f64; ROW_ROOM],
    sign: f64,
    strength: f64,
    past: Wrote,
) -> Tagged
    requires standing { Standing false (mark_of past) (sparse words.old keys.now bytes.old reals.old values.now) }
    requires values_bound { symbol_count (sparse words.old keys.now bytes.old reals.old values.now) + 1 < last_place }
    requires values_bound_2 { next_id (sparse words.old keys.now bytes.old reals.old values.now) < 9223372036854775807 }
    ensures { Tags (inequality sign strength) (mark_of past) (sparse words.old keys.now bytes.old reals.old values.now) (sparse words.new keys.now bytes.new reals.new values.now) row.old row.new result }
{
    let p = 1 + words[SYMBOL_COUNT] as u8;
    let v = add_symbol(
        words,
        keys,
        bytes,
        reals,
        values,
        row,
        Kind::Slack,
        sign,
        past,
    );
    if strength < REQUIRED {
        let w = add_error(words, keys, bytes, reals, values, row, -sign, strength, v);
        return Tagged {
            marker: p,
            other: p + 1,
            wrote: w,
        };
    }
    Tagged {
        marker: p,
        other: 0,
        wrote: v,
    }
}

// Error plus with -1, error minus with +1.
fn soft_equality(
    words: &mut Words,
    keys: &Keys,
    bytes: &mut Bytes,
    reals: &mut Reals,
    values: &Values,
    row: &mut [f64; ROW_ROOM],
    strength: f64,
    past: Wrote,
) -> Tagged
    requires standing { Standing false (mark_of past) (sparse words.old keys.now bytes.old reals.old values.now) }
    requires values_bound { symbol_count (sparse words.old keys.now bytes.old reals.old values.now) + 1 < last_place }
    requires values_bound_2 { next_id (sparse words.old keys.now bytes.old reals.old values.now) < 9223372036854775807 }
    ensures { Tags (soft_equality strength) (mark_of past) (sparse words.old keys.now bytes.old reals.old values.now) (sparse words.new keys.now bytes.new reals.new values.now) row.old row.new result }
{
    let p = 1 + words[SYMBOL_COUNT] as u8;
    let v = add_error(words, keys, bytes, reals, values, row, -1.0, strength, past);
    let w = add_error(words, keys, bytes, reals, values, row, 1.0, strength, v);
    Tagged {
        marker: p,
        other: p + 1,
        wrote: w,
    }
}

// Dummy with +1.
fn required_equality(
    words: &mut Words,
    keys: &Keys,
    bytes: &mut Bytes,
    reals: &mut Reals,
    values: &Values,
    row: &mut [f64; ROW_ROOM],
    past: Wrote,
) -> Tagged
    requires standing { Standing false (mark_of past) (sparse words.old keys.now bytes.old reals.old values.now) }
    requires values_bound { symbol_count (sparse words.old keys.now bytes.old reals.old values.now) < last_place }
    requires values_bound_2 { next_id (sparse words.old keys.now bytes.old reals.old values.now) < 9223372036854775808 }
    ensures { Tags required_equality (mark_of past) (sparse words.old keys.now bytes.old reals.old values.now) (sparse words.new keys.now bytes.new reals.new values.now) row.old row.new result }
{
    let p = 1 + words[SYMBOL_COUNT] as u8;
    let w = add_symbol(
        words,
        keys,
        bytes,
        reals,
        values,
        row,
        Kind::Dummy,
        1.0,
        past,
    );
    Tagged {
        marker: p,
        other: 0,
        wrote: w,
    }
}

fn equality(
    words: &mut Words,
    keys: &Keys,
    bytes: &mut Bytes,
    reals: &mut Reals,
    values: &Values,
    row: &mut [f64; ROW_ROOM],
    strength: f64,
    past: Wrote,
) -> Tagged
    requires standing { Standing false (mark_of past) (sparse words.old keys.now bytes.old reals.old values.now) }
    requires values_bound { symbol_count (sparse words.old keys.now bytes.old reals.old values.now) + 1 < last_place }
    requires values_bound_2 { next_id (sparse words.old keys.now bytes.old reals.old values.now) < 9223372036854775807 }
    ensures { Tags (add_tag (equal strength)) (mark_of past) (sparse words.old keys.now bytes.old reals.old values.now) (sparse words.new keys.now bytes.new reals.new values.now) row.old row.new result }
{
    if strength < REQUIRED {
        return soft_equality(words, keys, bytes, reals, values, row, strength, past);
    }
    required_equality(words, keys, bytes, reals, values, row, past)
}

pub fn add_tag(
    words: &mut Words,
    keys: &Keys,
    bytes: &mut Bytes,
    reals: &mut Reals,
    values: &Values,
    row: &mut [f64; ROW_ROOM],
    relation: Relation,
    past: Wrote,
) -> Tagged
    requires standing { Standing false (mark_of past) (sparse words.old keys.now bytes.old reals.old values.now) }
    requires values_bound { symbol_count (sparse words.old keys.now bytes.old reals.old values.now) + 1 < last_place }
    requires values_bound_2 { next_id (sparse words.old keys.now bytes.old reals.old values.now) < 9223372036854775807 }
    ensures { Tags (add_tag (relation_of relation)) (mark_of past) (sparse words.old keys.now bytes.old reals.old values.now) (sparse words.new keys.now bytes.new reals.new values.now) row.old row.new result }
{
    match relation {
        Relation::AtMost(s) => inequality(words, keys, bytes, reals, values, row, 1.0, s, past),
        Relation::Equal(s) => equality(words, keys, bytes, reals, values, row, s, past),
        Relation::AtLeast(s) => inequality(words, keys, bytes, reals, values, row, -1.0, s, past),
    }
}
