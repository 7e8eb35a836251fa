// Behind the test: fetch and the queries, on tables that read as a state. What a fetch leaves reads as one again.
// The tables are parameters of their own in each `knobharbor_*`: those are C names, and so the C interface has them.
ghost use Rattle.std.specs.Prelude.{◌≡◌, true};
ghost use Rattle.steps.specs.Changes.{value};
ghost use Rattle.steps.specs.Tests.{has_constraint, has_edit};
ghost use Rattle.sparse.specs.Sparse.{read};
ghost use Rattle.sparse_test.specs.Reads.{reads};
ghost use Rattle.waist.specs.Working.{sparse};
ghost use Rattle.fetches.specs.Fetch.{fetch_in};
ghost use Rattle.knobharbor.specs.Places.{placed_list, placed_fetch};

use crate::places::put_fetched;
use crate::together::to_read;
use fetches::{Fetched, Flags, Moved, Numbers};
use sparse::{Bytes, Keys, Reals, Values, Words};

pub fn knobharbor_held_fetch(
    words: &mut Words,
    keys: &Keys,
    bytes: &mut Bytes,
    reals: &mut Reals,
    values: &Values,
    answer: &mut [u32; 2],
    numbers: &mut Numbers,
    moved: &mut Moved,
    gone: &mut Flags,
)
    requires { reads (sparse words.old keys.now bytes.old reals.old values.now) ≡ true }
    ensures { placed_list answer.new numbers.new moved.new gone.new (sparse words.new keys.now bytes.new reals.new values.now) ≡ placed_fetch (fetch_in (sparse words.old keys.now bytes.old reals.old values.now)) }
{
    let count = fetches::fetch_held(words, keys, bytes, reals, values, numbers, moved, gone);
    let f = Fetched { number: 0, count };
    put_fetched(answer, f);
}

pub fn knobharbor_held_has_constraint(
    words: &Words,
    keys: &Keys,
    bytes: &Bytes,
    reals: &Reals,
    values: &Values,
    number: u32,
) -> bool
    requires { reads (sparse words.now keys.now bytes.now reals.now values.now) ≡ true }
    ensures { result ≡ has_constraint number (read (sparse words.now keys.now bytes.now reals.now values.now)) }
{
    let tables = &to_read(words, keys, bytes, reals, values);
    sparse_test::asking::has_constraint_held(tables, number)
}

pub fn knobharbor_held_has_edit(
    words: &Words,
    keys: &Keys,
    bytes: &Bytes,
    reals: &Reals,
    values: &Values,
    variable: u32,
) -> bool
    requires { reads (sparse words.now keys.now bytes.now reals.now values.now) ≡ true }
    ensures { result ≡ has_edit variable (read (sparse words.now keys.now bytes.now reals.now values.now)) }
{
    let tables = &to_read(words, keys, bytes, reals, values);
    sparse_test::asking::has_edit_held(tables, variable)
}

pub fn knobharbor_held_value(
    words: &Words,
    keys: &Keys,
    bytes: &Bytes,
    reals: &Reals,
    values: &Values,
    variable: u32,
) -> f64
    requires { reads (sparse words.now keys.now bytes.now reals.now values.now) ≡ true }
    ensures { result ≡ value variable (read (sparse words.now keys.now bytes.now reals.now values.now)) }
{
    let tables = &to_read(words, keys, bytes, reals, values);
    sparse_test::asking::get_value_held(tables, variable)
}
