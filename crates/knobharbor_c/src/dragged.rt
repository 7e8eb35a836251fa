// C names of the library's calls, written by tools/exports: each is the library's function of that name, its clauses again.
ghost use Rattle.std.specs.Prelude.{◌≡◌};
ghost use Rattle.steps.specs.Calls.{suggest};
ghost use Rattle.lending.specs.sparse_copy.Over.{cleared};
ghost use Rattle.waist.specs.Working.{sparse};
ghost use Rattle.lending.specs.Lending.{call_of};
ghost use Rattle.fetches.specs.Fetch.{fetch_of};
ghost use Rattle.knobharbor.specs.Places.{in_places, placed_list, placed_fetch};

use fetches::{Flags, Moved, Numbers};
use sparse::{Bytes, Keys, Reals, Values, Words};

#[unsafe(no_mangle)]
pub extern "C" fn knobharbor_drag(
    words: &mut Words,
    keys: &mut Keys,
    bytes: &mut Bytes,
    reals: &mut Reals,
    values: &mut Values,
    wwords: &mut Words,
    wkeys: &mut Keys,
    wbytes: &mut Bytes,
    wreals: &mut Reals,
    wvalues: &mut Values,
    answer: &mut [u32; 3],
    fetched: &mut [u32; 2],
    numbers: &mut Numbers,
    moved: &mut Moved,
    gone: &mut Flags,
    variable: u32,
    suggestion: f64,
    budget: u16,
)
    ensures answer_after { answer.new ≡ in_places (call_of (suggest variable suggestion budget) (sparse wwords.old wkeys.old wbytes.old wreals.old wvalues.old) (sparse words.old keys.old bytes.old reals.old values.old)).answer }
    ensures values_after { placed_list fetched.new numbers.new moved.new gone.new (sparse words.new keys.new bytes.new reals.new values.new) ≡ placed_fetch (fetch_of (call_of (suggest variable suggestion budget) (sparse wwords.old wkeys.old wbytes.old wreals.old wvalues.old) (sparse words.old keys.old bytes.old reals.old values.old)).tables) }
    ensures wvalues_value { sparse wwords.new wkeys.new wbytes.new wreals.new wvalues.new ≡ cleared (sparse wwords.old wkeys.old wbytes.old wreals.old wvalues.old) }
{
    knobharbor::dragged::knobharbor_drag(
        words, keys, bytes, reals, values, wwords, wkeys, wbytes, wreals, wvalues, answer, fetched,
        numbers, moved, gone, variable, suggestion, budget,
    )
}
