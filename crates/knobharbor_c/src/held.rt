// C names of the library's calls, written by tools/exports: each is the library's function of that name, its clauses again.
ghost use Rattle.std.specs.Prelude.{◌≡◌, true};
ghost use Rattle.steps.specs.Calls.{remove, drop_group, add_edit, remove_edit, suggest};
ghost use Rattle.sparse_test.specs.Reads.{reads};
ghost use Rattle.waist.specs.Working.{sparse};
ghost use Rattle.lending.specs.Lending.{call_in};
ghost use Rattle.knobharbor.specs.Held.{HeldBy};
ghost use Rattle.knobharbor.specs.Places.{in_places};

use sparse::{Bytes, Keys, Reals, Values, Words};

#[unsafe(no_mangle)]
pub extern "C" fn knobharbor_held_remove(
    words: &Words,
    keys: &Keys,
    bytes: &Bytes,
    reals: &Reals,
    values: &Values,
    wwords: &mut Words,
    wkeys: &mut Keys,
    wbytes: &mut Bytes,
    wreals: &mut Reals,
    wvalues: &mut Values,
    answer: &mut [u32; 3],
    number: u32,
    budget: u16,
)
    requires { reads (sparse words.now keys.now bytes.now reals.now values.now) ≡ true }
    ensures { HeldBy (remove number budget) answer.new (sparse words.now keys.now bytes.now reals.now values.now) (sparse wwords.new wkeys.new wbytes.new wreals.new wvalues.new) }
{
    knobharbor::held::knobharbor_held_remove(
        words, keys, bytes, reals, values, wwords, wkeys, wbytes, wreals, wvalues, answer, number,
        budget,
    )
}

#[unsafe(no_mangle)]
pub extern "C" fn knobharbor_held_drop(
    words: &Words,
    keys: &Keys,
    bytes: &Bytes,
    reals: &Reals,
    values: &Values,
    wwords: &mut Words,
    wkeys: &mut Keys,
    wbytes: &mut Bytes,
    wreals: &mut Reals,
    wvalues: &mut Values,
    answer: &mut [u32; 3],
    group: u16,
    budget: u16,
)
    requires { reads (sparse words.now keys.now bytes.now reals.now values.now) ≡ true }
    ensures { HeldBy (drop_group group budget) answer.new (sparse words.now keys.now bytes.now reals.now values.now) (sparse wwords.new wkeys.new wbytes.new wreals.new wvalues.new) }
{
    knobharbor::held::knobharbor_held_drop(
        words, keys, bytes, reals, values, wwords, wkeys, wbytes, wreals, wvalues, answer, group,
        budget,
    )
}

#[unsafe(no_mangle)]
pub extern "C" fn knobharbor_held_add_edit(
    words: &Words,
    keys: &Keys,
    bytes: &Bytes,
    reals: &Reals,
    values: &Values,
    wwords: &mut Words,
    wkeys: &mut Keys,
    wbytes: &mut Bytes,
    wreals: &mut Reals,
    wvalues: &mut Values,
    answer: &mut [u32; 3],
    variable: u32,
    strength: f64,
    budget: u16,
)
    requires { reads (sparse words.now keys.now bytes.now reals.now values.now) ≡ true }
    ensures { HeldBy (add_edit variable strength budget) answer.new (sparse words.now keys.now bytes.now reals.now values.now) (sparse wwords.new wkeys.new wbytes.new wreals.new wvalues.new) }
{
    knobharbor::held::knobharbor_held_add_edit(
        words, keys, bytes, reals, values, wwords, wkeys, wbytes, wreals, wvalues, answer,
        variable, strength, budget,
    )
}

#[unsafe(no_mangle)]
pub extern "C" fn knobharbor_held_remove_edit(
    words: &Words,
    keys: &Keys,
    bytes: &Bytes,
    reals: &Reals,
    values: &Values,
    wwords: &mut Words,
    wkeys: &mut Keys,
    wbytes: &mut Bytes,
    wreals: &mut Reals,
    wvalues: &mut Values,
    answer: &mut [u32; 3],
    variable: u32,
    budget: u16,
)
    requires { reads (sparse words.now keys.now bytes.now reals.now values.now) ≡ true }
    ensures { HeldBy (remove_edit variable budget) answer.new (sparse words.now keys.now bytes.now reals.now values.now) (sparse wwords.new wkeys.new wbytes.new wreals.new wvalues.new) }
{
    knobharbor::held::knobharbor_held_remove_edit(
        words, keys, bytes, reals, values, wwords, wkeys, wbytes, wreals, wvalues, answer,
        variable, budget,
    )
}

#[unsafe(no_mangle)]
pub extern "C" fn knobharbor_held_suggest(
    words: &mut Words,
    keys: &mut Keys,
    bytes: &mut Bytes,
    reals: &mut Reals,
    values: &mut Values,
    wwords: &mut Words,
    wkeys: &mut Keys,
    wbytes: &mut Bytes,
    wreals: &mut Reals,
    wvalues: &mut Values,
    answer: &mut [u32; 3],
    variable: u32,
    suggestion: f64,
    budget: u16,
)
    requires { reads (sparse words.old keys.old bytes.old reals.old values.old) ≡ true }
    ensures answer_after { answer.new ≡ in_places (call_in (suggest variable suggestion budget) (sparse words.old keys.old bytes.old reals.old values.old)).answer }
    ensures values_value { sparse words.new keys.new bytes.new reals.new values.new ≡ (call_in (suggest variable suggestion budget) (sparse words.old keys.old bytes.old reals.old values.old)).tables }
    ensures values_value_2 { reads (sparse words.new keys.new bytes.new reals.new values.new) ≡ true }
{
    knobharbor::held::knobharbor_held_suggest(
        words, keys, bytes, reals, values, wwords, wkeys, wbytes, wreals, wvalues, answer,
        variable, suggestion, budget,
    )
}
