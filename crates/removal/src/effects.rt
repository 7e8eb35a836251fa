// "Remove: take each error symbol's strength out of the objective, marker's first (by its row if basic)."
// The five tables are parameters of their own here: which of them are read alone their types say, and a `TablesMut` would need a clause for each.
ghost use Rattle.std.specs.Prelude.{false, ◌≤◌, get_or};
ghost use Rattle.steps.specs.Remove.{remove_marker_effects, remove_constraint_effects};
ghost use Rattle.rows.specs.Marks.{mark_of};
ghost use Rattle.sparse.specs.Places.{symbol_count_at};
ghost use Rattle.sparse.specs.Sparse.{symbol_at};
ghost use Rattle.waist.specs.Working.{sparse};
ghost use Rattle.waist.specs.Standing.{Standing, Makes};
ghost use Rattle.waist.specs.Tags.{tag_at};

use rows::number::Wrote;
use sparse::{Bytes, Keys, Reals, Values, Words};
use waist::choices::row_of;
use waist::kinds::Kind;
use waist::objective::{insert_in_objective, insert_row_in_objective};
use waist::substituting::notes::kind_at;

// One symbol's strength out of the objective, by its row if it is basic; a symbol that is no Error has none there.
fn remove_marker_effects(
    words: &Words,
    keys: &Keys,
    bytes: &Bytes,
    reals: &mut Reals,
    values: &Values,
    p: u8,
    strength: f64,
    before: Wrote,
) -> Wrote
    requires standing { Standing false (mark_of before) (sparse words.now keys.now bytes.now reals.old values.now) }
    requires le_p { 1 ≤ p }
    requires p_bound { p ≤ get_or words.now symbol_count_at 0 }
    ensures { Makes false false (mark_of before) (mark_of result) (remove_marker_effects (symbol_at (sparse words.now keys.now bytes.now reals.old values.now) p) strength) (sparse words.now keys.now bytes.now reals.old values.now) (sparse words.now keys.now bytes.now reals.new values.now) }
{
    if !Kind::from(kind_at(bytes, p)).is_error() {
        return before;
    }
    let f = row_of(words, bytes, p);
    let Some(i) = f else {
        return insert_in_objective(words, keys, bytes, reals, values, p, -strength, before);
    };
    insert_row_in_objective(
        words, keys, bytes, reals, values, i as u8, -strength, before,
    )
}

// 0 is no other symbol.
pub fn remove_constraint_effects(
    words: &Words,
    keys: &Keys,
    bytes: &Bytes,
    reals: &mut Reals,
    values: &Values,
    marker: u8,
    other: u8,
    strength: f64,
    before: Wrote,
) -> Wrote
    requires standing { Standing false (mark_of before) (sparse words.now keys.now bytes.now reals.old values.now) }
    requires le_marker { 1 ≤ marker }
    requires marker_bound { marker ≤ get_or words.now symbol_count_at 0 }
    requires other_bound { other ≤ get_or words.now symbol_count_at 0 }
    ensures { Makes false false (mark_of before) (mark_of result) (remove_constraint_effects (tag_at (sparse words.now keys.now bytes.now reals.old values.now) marker other) strength) (sparse words.now keys.now bytes.now reals.old values.now) (sparse words.now keys.now bytes.now reals.new values.now) }
{
    let w = remove_marker_effects(words, keys, bytes, reals, values, marker, strength, before);
    if other == 0 {
        return w;
    }
    remove_marker_effects(words, keys, bytes, reals, values, other, strength, w)
}
