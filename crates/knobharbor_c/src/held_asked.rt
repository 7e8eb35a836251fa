// C names of the library's calls, written by tools/exports: each is the library's function of that name, its clauses again.
ghost use Rattle.std.specs.Prelude.{◌≡◌, true};
ghost use Rattle.steps.specs.Changes.{value};
ghost use Rattle.steps.specs.Tests.{has_constraint, has_edit};
ghost use Rattle.sparse.specs.Sparse.{read};
ghost use Rattle.sparse_test.specs.Reads.{reads};
ghost use Rattle.waist.specs.Working.{sparse};
ghost use Rattle.fetches.specs.Fetch.{fetch_in};
ghost use Rattle.knobharbor.specs.Places.{placed_list, placed_fetch};

use fetches::{Flags, Moved, Numbers};
use sparse::{Bytes, Keys, Reals, Values, Words};

#[unsafe(no_mangle)]
pub extern "C" fn knobharbor_held_fetch(
    words: &mut Words,
    keys: &Keys,
    bytes: &mut Bytes,
    reals: &mut Reals,
    values: &Values,
    answer: &mut [u32; 2],
    numbers: &mut Numbers,
    moved: &mut Moved,
    gone: &mut Flags,
)
    requires { reads (sparse words.old keys.now bytes.old reals.old values.now) ≡ true }
    ensures { placed_list answer.new numbers.new moved.new gone.new (sparse words.new keys.now bytes.new reals.new values.now) ≡ placed_fetch (fetch_in (sparse words.old keys.now bytes.old reals.old values.now)) }
{
    knobharbor::held_asked::knobharbor_held_fetch(
        words, keys, bytes, reals, values, answer, numbers, moved, gone,
    )
}

#[unsafe(no_mangle)]
pub extern "C" fn knobharbor_held_has_constraint(
    words: &Words,
    keys: &Keys,
    bytes: &Bytes,
    reals: &Reals,
    values: &Values,
    number: u32,
) -> bool
    requires { reads (sparse words.now keys.now bytes.now reals.now values.now) ≡ true }
    ensures { result ≡ has_constraint number (read (sparse words.now keys.now bytes.now reals.now values.now)) }
{
    knobharbor::held_asked::knobharbor_held_has_constraint(
        words, keys, bytes, reals, values, number,
    )
}

#[unsafe(no_mangle)]
pub extern "C" fn knobharbor_held_has_edit(
    words: &Words,
    keys: &Keys,
    bytes: &Bytes,
    reals: &Reals,
    values: &Values,
    variable: u32,
) -> bool
    requires { reads (sparse words.now keys.now bytes.now reals.now values.now) ≡ true }
    ensures { result ≡ has_edit variable (read (sparse words.now keys.now bytes.now reals.now values.now)) }
{
    knobharbor::held_asked::knobharbor_held_has_edit(words, keys, bytes, reals, values, variable)
}

#[unsafe(no_mangle)]
pub extern "C" fn knobharbor_held_value(
    words: &Words,
    keys: &Keys,
    bytes: &Bytes,
    reals: &Reals,
    values: &Values,
    variable: u32,
) -> f64
    requires { reads (sparse words.now keys.now bytes.now reals.now values.now) ≡ true }
    ensures { result ≡ value variable (read (sparse words.now keys.now bytes.now reals.now values.now)) }
{
    knobharbor::held_asked::knobharbor_held_value(words, keys, bytes, reals, values, variable)
}
