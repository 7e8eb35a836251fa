// C names of the library's calls, written by tools/exports: each is the library's function of that name, its clauses again.
ghost use Rattle.std.specs.Prelude.{◌≡◌, true};
ghost use Rattle.sparse_test.specs.Reads.{reads};
ghost use Rattle.waist.specs.Working.{sparse};
ghost use Rattle.knobharbor.specs.Held.{HeldBy, held_add};

use changes::terms::Term;
use sparse::{Bytes, Keys, Reals, Values, Words};

#[unsafe(no_mangle)]
pub extern "C" fn knobharbor_held_add(
    words: &Words,
    keys: &Keys,
    bytes: &Bytes,
    reals: &Reals,
    values: &Values,
    wwords: &mut Words,
    wkeys: &mut Keys,
    wbytes: &mut Bytes,
    wreals: &mut Reals,
    wvalues: &mut Values,
    answer: &mut [u32; 3],
    group: u16,
    number: u32,
    terms: &[Term],
    constant: f64,
    kind: u32,
    strength: f64,
    budget: u16,
)
    requires { reads (sparse words.now keys.now bytes.now reals.now values.now) ≡ true }
    ensures { HeldBy (held_add group number terms.now constant kind strength budget) answer.new (sparse words.now keys.now bytes.now reals.now values.now) (sparse wwords.new wkeys.new wbytes.new wreals.new wvalues.new) }
{
    knobharbor::held_added::knobharbor_held_add(
        words, keys, bytes, reals, values, wwords, wkeys, wbytes, wreals, wvalues, answer, group,
        number, terms, constant, kind, strength, budget,
    )
}
