// C names of the library's calls, written by tools/exports: each is the library's function of that name, its clauses again.
ghost use Rattle.std.specs.Prelude.{◌≡◌};
ghost use Rattle.steps.specs.Calls.{remove, drop_group, add_edit, remove_edit, suggest};
ghost use Rattle.waist.specs.Working.{sparse};
ghost use Rattle.lending.specs.sparse_copy.Over.{cleared};
ghost use Rattle.lending.specs.Lending.{call_of};
ghost use Rattle.knobharbor.specs.Places.{placed, placed_by};

use sparse::{Bytes, Keys, Reals, Values, Words};

#[unsafe(no_mangle)]
pub extern "C" fn knobharbor_remove(
    words: &mut Words,
    keys: &mut Keys,
    bytes: &mut Bytes,
    reals: &mut Reals,
    values: &mut Values,
    wwords: &mut Words,
    wkeys: &mut Keys,
    wbytes: &mut Bytes,
    wreals: &mut Reals,
    wvalues: &mut Values,
    answer: &mut [u32; 3],
    number: u32,
    budget: u16,
)
    ensures values_after { placed answer.new (sparse words.new keys.new bytes.new reals.new values.new) ≡ placed_by (call_of (remove number budget) (sparse wwords.old wkeys.old wbytes.old wreals.old wvalues.old) (sparse words.old keys.old bytes.old reals.old values.old)) }
    ensures wvalues_value { sparse wwords.new wkeys.new wbytes.new wreals.new wvalues.new ≡ cleared (sparse wwords.old wkeys.old wbytes.old wreals.old wvalues.old) }
{
    knobharbor::changed::knobharbor_remove(
        words, keys, bytes, reals, values, wwords, wkeys, wbytes, wreals, wvalues, answer, number,
        budget,
    )
}

#[unsafe(no_mangle)]
pub extern "C" fn knobharbor_drop(
    words: &mut Words,
    keys: &mut Keys,
    bytes: &mut Bytes,
    reals: &mut Reals,
    values: &mut Values,
    wwords: &mut Words,
    wkeys: &mut Keys,
    wbytes: &mut Bytes,
    wreals: &mut Reals,
    wvalues: &mut Values,
    answer: &mut [u32; 3],
    group: u16,
    budget: u16,
)
    ensures values_after { placed answer.new (sparse words.new keys.new bytes.new reals.new values.new) ≡ placed_by (call_of (drop_group group budget) (sparse wwords.old wkeys.old wbytes.old wreals.old wvalues.old) (sparse words.old keys.old bytes.old reals.old values.old)) }
    ensures wvalues_value { sparse wwords.new wkeys.new wbytes.new wreals.new wvalues.new ≡ cleared (sparse wwords.old wkeys.old wbytes.old wreals.old wvalues.old) }
{
    knobharbor::changed::knobharbor_drop(
        words, keys, bytes, reals, values, wwords, wkeys, wbytes, wreals, wvalues, answer, group,
        budget,
    )
}

#[unsafe(no_mangle)]
pub extern "C" fn knobharbor_add_edit(
    words: &mut Words,
    keys: &mut Keys,
    bytes: &mut Bytes,
    reals: &mut Reals,
    values: &mut Values,
    wwords: &mut Words,
    wkeys: &mut Keys,
    wbytes: &mut Bytes,
    wreals: &mut Reals,
    wvalues: &mut Values,
    answer: &mut [u32; 3],
    variable: u32,
    strength: f64,
    budget: u16,
)
    ensures values_after { placed answer.new (sparse words.new keys.new bytes.new reals.new values.new) ≡ placed_by (call_of (add_edit variable strength budget) (sparse wwords.old wkeys.old wbytes.old wreals.old wvalues.old) (sparse words.old keys.old bytes.old reals.old values.old)) }
    ensures wvalues_value { sparse wwords.new wkeys.new wbytes.new wreals.new wvalues.new ≡ cleared (sparse wwords.old wkeys.old wbytes.old wreals.old wvalues.old) }
{
    knobharbor::changed::knobharbor_add_edit(
        words, keys, bytes, reals, values, wwords, wkeys, wbytes, wreals, wvalues, answer,
        variable, strength, budget,
    )
}

#[unsafe(no_mangle)]
pub extern "C" fn knobharbor_remove_edit(
    words: &mut Words,
    keys: &mut Keys,
    bytes: &mut Bytes,
    reals: &mut Reals,
    values: &mut Values,
    wwords: &mut Words,
    wkeys: &mut Keys,
    wbytes: &mut Bytes,
    wreals: &mut Reals,
    wvalues: &mut Values,
    answer: &mut [u32; 3],
    variable: u32,
    budget: u16,
)
    ensures values_after { placed answer.new (sparse words.new keys.new bytes.new reals.new values.new) ≡ placed_by (call_of (remove_edit variable budget) (sparse wwords.old wkeys.old wbytes.old wreals.old wvalues.old) (sparse words.old keys.old bytes.old reals.old values.old)) }
    ensures wvalues_value { sparse wwords.new wkeys.new wbytes.new wreals.new wvalues.new ≡ cleared (sparse wwords.old wkeys.old wbytes.old wreals.old wvalues.old) }
{
    knobharbor::changed::knobharbor_remove_edit(
        words, keys, bytes, reals, values, wwords, wkeys, wbytes, wreals, wvalues, answer,
        variable, budget,
    )
}

#[unsafe(no_mangle)]
pub extern "C" fn knobharbor_suggest(
    words: &mut Words,
    keys: &mut Keys,
    bytes: &mut Bytes,
    reals: &mut Reals,
    values: &mut Values,
    wwords: &mut Words,
    wkeys: &mut Keys,
    wbytes: &mut Bytes,
    wreals: &mut Reals,
    wvalues: &mut Values,
    answer: &mut [u32; 3],
    variable: u32,
    suggestion: f64,
    budget: u16,
)
    ensures values_after { placed answer.new (sparse words.new keys.new bytes.new reals.new values.new) ≡ placed_by (call_of (suggest variable suggestion budget) (sparse wwords.old wkeys.old wbytes.old wreals.old wvalues.old) (sparse words.old keys.old bytes.old reals.old values.old)) }
    ensures wvalues_value { sparse wwords.new wkeys.new wbytes.new wreals.new wvalues.new ≡ cleared (sparse wwords.old wkeys.old wbytes.old wreals.old wvalues.old) }
{
    knobharbor::changed::knobharbor_suggest(
        words, keys, bytes, reals, values, wwords, wkeys, wbytes, wreals, wvalues, answer,
        variable, suggestion, budget,
    )
}
