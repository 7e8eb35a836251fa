// Steps 1 to 3: the row of a constraint with its tag, as it is added.
// The five tables are parameters of their own here: which of them are read alone their types say, and a `TablesMut` would need a clause for each.
ghost use Rattle.std.specs.Prelude.{◌≡◌, false, ◌+◌, ◌<◌};
ghost use Rattle.steps.specs.CreateRow.{add_tag};
ghost use Rattle.rows.specs.Marks.{mark_of};
ghost use Rattle.layout.specs.cells.Names.{row_room, last_place};
ghost use Rattle.sparse.specs.Sparse.{symbol_count};
ghost use Rattle.changes.specs.tags.Tags.{relation_of};
ghost use Rattle.changes.specs.terms.Terms.{terms_of};
ghost use Rattle.waist.specs.Working.{sparse};
ghost use Rattle.waist.specs.Standing.{Standing};
ghost use Rattle.waist.specs.Growing.{next_id};
ghost use Rattle.addition.specs.creation.Tags.{Tags};
ghost use Rattle.addition.specs.creation.Created.{Opening, Spare, started_row, reversed_if, reversed_by, Creates};

use crate::creation::tag::{Tagged, add_tag};
use crate::creation::term::insert_terms;
use changes::tags::Relation;
use changes::terms::Pack;
use layout::cells::ROW_ROOM;
use layout::cells::row::zero_cells;
use rows::number::Wrote;
use rows::row::reverse_sign;
use sparse::{Bytes, Keys, Reals, SYMBOL_COUNT, Values, Words};

// The row constant is the constraint's, and no cell is present yet.
fn start_row(row: &mut [f64; ROW_ROOM], constant: f64, k: usize)
    requires { k < row_room }
    ensures { row.new ≡ started_row constant k row.old }
{
    zero_cells(row, k);
    row[0] = constant;
}

// If the constant is below 0, all signs are reversed.
fn reverse_below(row: &mut [f64; ROW_ROOM], k: usize)
    requires { k < row_room }
    ensures { row.new ≡ reversed_if k row.old }
{
    if row[0] < 0.0 {
        reverse_sign(row, k);
    }
}

// The tag, and then the signs.
fn close_row(
    words: &mut Words,
    keys: &Keys,
    bytes: &mut Bytes,
    reals: &mut Reals,
    values: &Values,
    row: &mut [f64; ROW_ROOM],
    relation: Relation,
    past: Wrote,
) -> Tagged
    requires standing { Standing false (mark_of past) (sparse words.old keys.now bytes.old reals.old values.now) }
    requires values_bound { symbol_count (sparse words.old keys.now bytes.old reals.old values.now) + 1 < last_place }
    requires values_bound_2 { next_id (sparse words.old keys.now bytes.old reals.old values.now) < 9223372036854775807 }
    ensures { Tags (λ b. reversed_by (add_tag (relation_of relation) b)) (mark_of past) (sparse words.old keys.now bytes.old reals.old values.now) (sparse words.new keys.now bytes.new reals.new values.now) row.old row.new result }
{
    let t = add_tag(words, keys, bytes, reals, values, row, relation, past);
    reverse_below(row, words[SYMBOL_COUNT] as usize);
    t
}

// Steps 1 to 3: the row is as the steps' create_row says, and the tables stand.
pub fn create_row(
    words: &mut Words,
    keys: &Keys,
    bytes: &mut Bytes,
    reals: &mut Reals,
    values: &Values,
    row: &mut [f64; ROW_ROOM],
    p: Pack,
    constant: f64,
    relation: Relation,
    before: Wrote,
) -> Tagged
    requires opening { Opening (mark_of before) (terms_of p) constant (sparse words.old keys.now bytes.old reals.old values.now) }
    requires spare { Spare (sparse words.old keys.now bytes.old reals.old values.now) }
    ensures { Creates (terms_of p) constant (relation_of relation) (mark_of before) (sparse words.old keys.now bytes.old reals.old values.now) (sparse words.new keys.now bytes.new reals.new values.now) row.new result }
{
    start_row(row, constant, words[SYMBOL_COUNT] as usize);
    let w = insert_terms(words, keys, bytes, reals, values, row, p, before);
    close_row(words, keys, bytes, reals, values, row, relation, w)
}
