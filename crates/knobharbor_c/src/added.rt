// C names of the library's calls, written by tools/exports: each is the library's function of that name, its clauses again.
ghost use Rattle.std.specs.Prelude.{◌≡◌};
ghost use Rattle.waist.specs.Working.{sparse};
ghost use Rattle.lending.specs.sparse_copy.Over.{cleared};
ghost use Rattle.knobharbor.specs.Adding.{add_of, add_lists_of};
ghost use Rattle.knobharbor.specs.Places.{placed, placed_by};

use changes::terms::Term;
use sparse::{Bytes, Keys, Reals, Values, Words};

#[unsafe(no_mangle)]
pub extern "C" fn knobharbor_add(
    words: &mut Words,
    keys: &mut Keys,
    bytes: &mut Bytes,
    reals: &mut Reals,
    values: &mut Values,
    wwords: &mut Words,
    wkeys: &mut Keys,
    wbytes: &mut Bytes,
    wreals: &mut Reals,
    wvalues: &mut Values,
    answer: &mut [u32; 3],
    group: u16,
    number: u32,
    terms: &[Term],
    constant: f64,
    kind: u32,
    strength: f64,
    budget: u16,
)
    ensures values_after { placed answer.new (sparse words.new keys.new bytes.new reals.new values.new) ≡ placed_by (add_of group number terms.now constant kind strength budget (sparse wwords.old wkeys.old wbytes.old wreals.old wvalues.old) (sparse words.old keys.old bytes.old reals.old values.old)) }
    ensures wvalues_value { sparse wwords.new wkeys.new wbytes.new wreals.new wvalues.new ≡ cleared (sparse wwords.old wkeys.old wbytes.old wreals.old wvalues.old) }
{
    knobharbor::added::knobharbor_add(
        words, keys, bytes, reals, values, wwords, wkeys, wbytes, wreals, wvalues, answer, group,
        number, terms, constant, kind, strength, budget,
    )
}

#[unsafe(no_mangle)]
pub extern "C" fn knobharbor_add_lists(
    words: &mut Words,
    keys: &mut Keys,
    bytes: &mut Bytes,
    reals: &mut Reals,
    values: &mut Values,
    wwords: &mut Words,
    wkeys: &mut Keys,
    wbytes: &mut Bytes,
    wreals: &mut Reals,
    wvalues: &mut Values,
    answer: &mut [u32; 3],
    group: u16,
    number: u32,
    vars: &[u32],
    coefs: &[f64],
    constant: f64,
    kind: u32,
    strength: f64,
    budget: u16,
)
    ensures values_after { placed answer.new (sparse words.new keys.new bytes.new reals.new values.new) ≡ placed_by (add_lists_of group number vars.now coefs.now constant kind strength budget (sparse wwords.old wkeys.old wbytes.old wreals.old wvalues.old) (sparse words.old keys.old bytes.old reals.old values.old)) }
    ensures wvalues_value { sparse wwords.new wkeys.new wbytes.new wreals.new wvalues.new ≡ cleared (sparse wwords.old wkeys.old wbytes.old wreals.old wvalues.old) }
{
    knobharbor::added::knobharbor_add_lists(
        words, keys, bytes, reals, values, wwords, wkeys, wbytes, wreals, wvalues, answer, group,
        number, vars, coefs, constant, kind, strength, budget,
    )
}
