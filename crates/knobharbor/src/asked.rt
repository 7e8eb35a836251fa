// Reset, the queries, fetch, and strengths.
// The tables are parameters of their own in each `knobharbor_*`: those are C names, and so the C interface has them.
ghost use Rattle.std.specs.Prelude.{◌≡◌, false};
ghost use Rattle.steps.specs.Number.{zero64};
ghost use Rattle.steps.specs.Strength.{create, clip};
ghost use Rattle.steps.specs.Changes.{value};
ghost use Rattle.steps.specs.Tests.{has_constraint, has_edit};
ghost use Rattle.waist.specs.Working.{sparse};
ghost use Rattle.sparse_test.specs.Asked.{asked};
ghost use Rattle.lending.specs.Reset.{reset_of};
ghost use Rattle.fetches.specs.Fetch.{fetch_of};
ghost use Rattle.knobharbor.specs.Places.{placed, placed_by, placed_list, placed_fetch};

use crate::places::{put, put_fetched};
use crate::together::{to_read, to_write};
use fetches::{Flags, Moved, Numbers};
use sparse::{Bytes, Keys, Reals, Values, Words};

pub fn knobharbor_reset(
    words: &mut Words,
    keys: &mut Keys,
    bytes: &mut Bytes,
    reals: &mut Reals,
    values: &mut Values,
    cutoff: f64,
    answer: &mut [u32; 3],
)
    ensures { placed answer.new (sparse words.new keys.new bytes.new reals.new values.new) ≡ placed_by (reset_of cutoff (sparse words.old keys.old bytes.old reals.old values.old)) }
{
    let tables = &mut to_write(words, keys, bytes, reals, values);
    let a = lending::reset(tables, cutoff);
    put(answer, a);
}

pub fn knobharbor_has_constraint(
    words: &Words,
    keys: &Keys,
    bytes: &Bytes,
    reals: &Reals,
    values: &Values,
    number: u32,
) -> bool
    ensures { result ≡ asked (has_constraint number) false (sparse words.now keys.now bytes.now reals.now values.now) }
{
    let tables = &to_read(words, keys, bytes, reals, values);
    sparse_test::asking::has_constraint(tables, number)
}

pub fn knobharbor_has_edit(
    words: &Words,
    keys: &Keys,
    bytes: &Bytes,
    reals: &Reals,
    values: &Values,
    variable: u32,
) -> bool
    ensures { result ≡ asked (has_edit variable) false (sparse words.now keys.now bytes.now reals.now values.now) }
{
    let tables = &to_read(words, keys, bytes, reals, values);
    sparse_test::asking::has_edit(tables, variable)
}

pub fn knobharbor_value(
    words: &Words,
    keys: &Keys,
    bytes: &Bytes,
    reals: &Reals,
    values: &Values,
    variable: u32,
) -> f64
    ensures { result ≡ asked (value variable) zero64 (sparse words.now keys.now bytes.now reals.now values.now) }
{
    let tables = &to_read(words, keys, bytes, reals, values);
    sparse_test::asking::get_value(tables, variable)
}

pub fn knobharbor_fetch(
    words: &mut Words,
    keys: &Keys,
    bytes: &mut Bytes,
    reals: &mut Reals,
    values: &Values,
    answer: &mut [u32; 2],
    numbers: &mut Numbers,
    moved: &mut Moved,
    gone: &mut Flags,
)
    ensures { placed_list answer.new numbers.new moved.new gone.new (sparse words.new keys.now bytes.new reals.new values.now) ≡ placed_fetch (fetch_of (sparse words.old keys.now bytes.old reals.old values.now)) }
{
    let f = fetches::fetch_changes(words, keys, bytes, reals, values, numbers, moved, gone);
    put_fetched(answer, f);
}

pub fn knobharbor_strength_create(a: f64, b: f64, c: f64, w: f64) -> f64
    ensures { result ≡ create a b c w }
{
    rows::strength::create(a, b, c, w)
}

pub fn knobharbor_strength_clip(s: f64) -> f64
    ensures { result ≡ clip s }
{
    rows::strength::clip(s)
}
