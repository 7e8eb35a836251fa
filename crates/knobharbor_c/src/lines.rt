// C names of the library's calls, written by tools/exports: each is the library's function of that name, its clauses again.
ghost use Rattle.std.specs.Prelude.{◌≡◌};
ghost use Rattle.waist.specs.Working.{sparse};
ghost use Rattle.lending.specs.sparse_copy.Over.{cleared};
ghost use Rattle.entry.specs.typed.Adding.{text_of};
ghost use Rattle.knobharbor.specs.Places.{placed, placed_text, placed_line};

use sparse::{Bytes, Keys, Reals, Values, Words};

#[unsafe(no_mangle)]
pub extern "C" fn knobharbor_add_text(
    words: &mut Words,
    keys: &mut Keys,
    bytes: &mut Bytes,
    reals: &mut Reals,
    values: &mut Values,
    wwords: &mut Words,
    wkeys: &mut Keys,
    wbytes: &mut Bytes,
    wreals: &mut Reals,
    wvalues: &mut Values,
    answer: &mut [u32; 3],
    offset: &mut u64,
    number: u32,
    line: &[u8],
    budget: u16,
)
    ensures values_after { placed_text offset.new (placed answer.new (sparse words.new keys.new bytes.new reals.new values.new)) ≡ placed_line (text_of number line.now budget (sparse wwords.old wkeys.old wbytes.old wreals.old wvalues.old) (sparse words.old keys.old bytes.old reals.old values.old)) }
    ensures wvalues_value { sparse wwords.new wkeys.new wbytes.new wreals.new wvalues.new ≡ cleared (sparse wwords.old wkeys.old wbytes.old wreals.old wvalues.old) }
{
    knobharbor::lines::knobharbor_add_text(
        words, keys, bytes, reals, values, wwords, wkeys, wbytes, wreals, wvalues, answer, offset,
        number, line, budget,
    )
}
