// How a call's records end: all kept, or all but one; "a refusal changes no table", so that they come over only where the call is accepted.
ghost use Rattle.std.specs.Prelude.{◌≡◌, ◌+◌, ◌<◌, get_or, set};
ghost use Rattle.sparse.specs.Places.{most_constraints, constraint_count_at, edit_count_at, suggestions_at};
ghost use Rattle.stored.specs.Parts.{all_of, without};
ghost use Rattle.stored.specs.Maps.{Stores};
ghost use Rattle.stored.specs.Moved.{Moved};

use crate::moving::move_records;
use crate::parts::Plan;
use sparse::{Bytes, Reals, Words};

// The result is how many terms there are, here and below.
pub fn keep_records(
    words: &mut Words,
    bytes: &mut Bytes,
    reals: &mut Reals,
    fwords: &Words,
    fbytes: &Bytes,
    freals: &Reals,
) -> usize
    requires stores { Stores fwords.now fbytes.now }
    requires stores_2 { Stores words.old bytes.old }
    ensures { Moved (all_of (get_or fwords.now constraint_count_at 0)) (all_of (get_or fwords.now edit_count_at 0)) 0 fwords.now fbytes.now freals.now words.old bytes.old reals.old words.new bytes.new reals.new result }
{
    let c = Plan::all_of(fwords[sparse::CONSTRAINT_COUNT] as usize);
    let e = Plan::all_of(fwords[sparse::EDIT_COUNT] as usize);
    move_records(words, bytes, reals, fwords, fbytes, freals, c, e, 0)
}

// Without the j-th constraint. This and the next differ in which of the two plans leaves a place out, and are three lines each: one function of both would take that choice as a parameter, with a clause for each.
pub fn drop_constraint(
    words: &mut Words,
    bytes: &mut Bytes,
    reals: &mut Reals,
    fwords: &Words,
    fbytes: &Bytes,
    freals: &Reals,
    j: usize,
) -> usize
    requires stores { Stores fwords.now fbytes.now }
    requires stores_2 { Stores words.old bytes.old }
    requires j_bound { j < get_or fwords.now constraint_count_at 0 }
    ensures { Moved (without j (get_or fwords.now constraint_count_at 0)) (all_of (get_or fwords.now edit_count_at 0)) 0 fwords.now fbytes.now freals.now words.old bytes.old reals.old words.new bytes.new reals.new result }
{
    let c = Plan::without_one(j, fwords[sparse::CONSTRAINT_COUNT] as usize);
    let e = Plan::all_of(fwords[sparse::EDIT_COUNT] as usize);
    move_records(words, bytes, reals, fwords, fbytes, freals, c, e, 0)
}

// Without the j-th edit.
pub fn drop_edit(
    words: &mut Words,
    bytes: &mut Bytes,
    reals: &mut Reals,
    fwords: &Words,
    fbytes: &Bytes,
    freals: &Reals,
    j: usize,
) -> usize
    requires stores { Stores fwords.now fbytes.now }
    requires stores_2 { Stores words.old bytes.old }
    requires j_bound { j < get_or fwords.now edit_count_at 0 }
    ensures { Moved (all_of (get_or fwords.now constraint_count_at 0)) (without j (get_or fwords.now edit_count_at 0)) 0 fwords.now fbytes.now freals.now words.old bytes.old reals.old words.new bytes.new reals.new result }
{
    let c = Plan::all_of(fwords[sparse::CONSTRAINT_COUNT] as usize);
    let e = Plan::without_one(j, fwords[sparse::EDIT_COUNT] as usize);
    move_records(words, bytes, reals, fwords, fbytes, freals, c, e, 0)
}

// Where the call is accepted: "an edit aims at its last suggestion".
pub fn set_suggestion(reals: &mut Reals, j: usize, x: f64)
    requires { j < most_constraints }
    ensures { reals.new ≡ set reals.old (suggestions_at + j) x }
{
    reals[sparse::SUGGESTIONS + j] = x;
}
