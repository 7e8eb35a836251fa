// Remove's steps over the sparse tables: a constraint's effects go, its marker is dropped, its symbols are purged, the objective is optimised and the use counts fall.
#![tactic(auto)]

pub mod effects;
pub mod marker;
pub mod uses;

ghost use Rattle.std.specs.Prelude.{◌≡◌, false, ◌≤◌};
ghost use Rattle.steps.specs.Number.{Mark};
ghost use Rattle.steps.specs.Work.{check_finite};
ghost use Rattle.steps.specs.Remove.{remove_constraint_effects, purge_tag, remove_steps};
ghost use Rattle.layout.specs.Layout.{term_room};
ghost use Rattle.rows.specs.Marks.{mark_of};
ghost use Rattle.sparse.specs.Sparse.{read};
ghost use Rattle.changes.specs.terms.Terms.{terms_of};
ghost use Rattle.waist.specs.Working.{work_of, sparse};
ghost use Rattle.waist.specs.Standing.{Standing, Makes};
ghost use Rattle.waist.specs.Ending.{outcome_of, Goes, ended_of};
ghost use Rattle.waist.specs.Tags.{tag_at};
ghost use Rattle.waist.specs.Lowering.{near_place};
ghost use Rattle.removal.specs.Tag.{Stands, TagLives};
ghost use Rattle.removal.specs.Room.{Room};
ghost use Rattle.removal.specs.Uses.{uses_from};
ghost use Rattle.removal.specs.Steps.{Removes};
ghost use Rattle.sparse.specs.Tables.{held, Same};

use crate::effects::remove_constraint_effects;
use crate::marker::drop_marker;
use crate::uses::drop_uses;
use changes::terms::{Pack, shown};
use layout::TERM_ROOM;
use optimising::optimise;
use rows::number::Wrote;
use sparse::tables::TablesMut;
use sparse::{Bytes, Keys, Reals, Values, Words};
use waist::ending::{Refused, Went, check_finite};
use waist::symbols::purge;

// "take each error symbol's strength out of the objective"
fn take_effects(
    words: &Words,
    keys: &Keys,
    bytes: &Bytes,
    reals: &mut Reals,
    values: &Values,
    marker: u8,
    other: u8,
    strength: f64,
    before: Wrote,
) -> Result<Went, Refused>
    requires standing { Standing false (mark_of before) (sparse words.now keys.now bytes.now reals.old values.now) }
    requires tag_lives { TagLives marker other (sparse words.now keys.now bytes.now reals.old values.now) }
    ensures values_value { outcome_of false (ended_of result) (sparse words.now keys.now bytes.now reals.new values.now) ≡ check_finite (remove_constraint_effects (tag_at (sparse words.now keys.now bytes.now reals.old values.now) marker other) strength (work_of false (mark_of before) 0 (sparse words.now keys.now bytes.now reals.old values.now))) }
    ensures goes { Goes false (ended_of result) (sparse words.now keys.now bytes.now reals.new values.now) }
{
    let w = remove_constraint_effects(
        words, keys, bytes, reals, values, marker, other, strength, before,
    );
    check_finite(0, w)
}

// The place of a symbol once the one at p went.
fn near_place(p: u8, q: u8) -> u8
    ensures { result ≡ near_place p q }
{
    if p < q { q - 1 } else { q }
}

// "drop the other's row if it's basic, then remove cells of both tag symbols"
fn purge_tag(room: &mut TablesMut, marker: u8, other: u8)
    requires stands { Stands (held room.old) }
    requires tag_lives { TagLives marker other (held room.old) }
    ensures does { (a : Mark) → Standing false a (held room.old) → Makes false false a a (purge_tag (tag_at (held room.old) marker other)) (held room.old) (held room.new) }
    ensures same { Same room.old room.new }
{
    if other == 0 {
        purge(room, marker);
        return;
    }
    purge(room, other);
    let p = near_place(other, marker);
    purge(room, p);
}

// By the numbers of its terms' variables, of which there are `count`.
fn remove_by(
    room: &mut TablesMut,
    marker: u8,
    other: u8,
    strength: f64,
    numbers: &[u32; TERM_ROOM],
    count: usize,
    budget: u32,
    before: Wrote,
) -> Result<Went, Refused>
    requires standing { Standing false (mark_of before) (held room.old) }
    requires tag_lives { TagLives marker other (held room.old) }
    requires count_le_term_room { count ≤ term_room }
    requires room { Room (uses_from numbers.now count 0) (read (held room.old)).changes }
    ensures does { Removes budget (tag_at (held room.old) marker other) strength numbers.now count (work_of false (mark_of before) 0 (held room.old)) (ended_of result) (held room.new) }
    ensures same { Same room.old room.new }
{
    let taken = take_effects(
        room.words,
        room.keys,
        room.bytes,
        room.reals,
        room.values,
        marker,
        other,
        strength,
        before,
    )?;
    let dropped = drop_marker(room, marker, taken.pivots, taken.wrote)?;
    purge_tag(room, marker, other);
    let passed = optimise(false, room, budget, dropped.pivots, dropped.wrote)?;
    drop_uses(room, numbers, count);
    Ok(passed)
}

// Remove's steps on a stored constraint, or on an edit as one of one term, by the places of its tag; 0 is no other symbol. 25 "stands before the steps of removal": there is room for the entries that they make.
pub fn remove_steps(
    room: &mut TablesMut,
    marker: u8,
    other: u8,
    strength: f64,
    p: Pack,
    budget: u32,
    before: Wrote,
) -> Result<Went, Refused>
    requires standing { Standing false (mark_of before) (held room.old) }
    requires tag_lives { TagLives marker other (held room.old) }
    requires room { Room (terms_of p) (read (held room.old)).changes }
    ensures values_value { outcome_of false (ended_of result) (held room.new) ≡ remove_steps budget (tag_at (held room.old) marker other) strength (terms_of p) (work_of false (mark_of before) 0 (held room.old)) }
    ensures goes { Goes false (ended_of result) (held room.new) }
    ensures same { Same room.old room.new }
{
    let count = shown(p);
    let vars = p.vars;
    remove_by(room, marker, other, strength, &vars, count, budget, before)
}
