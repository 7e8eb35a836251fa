// Add a line of text, under its C name. The offset goes into a place of its own.
// The tables and the room are parameters of their own in each `knobharbor_*`: those are C names, and so the C interface has them.
ghost use Rattle.std.specs.Prelude.{◌≡◌};
ghost use Rattle.waist.specs.Working.{sparse};
ghost use Rattle.lending.specs.sparse_copy.Over.{cleared};
ghost use Rattle.entry.specs.typed.Adding.{text_of};
ghost use Rattle.knobharbor.specs.Places.{placed, placed_text, placed_line};

use crate::places::put;
use crate::together::to_write;
use lending::Answer;
use sparse::{Bytes, Keys, Reals, Values, Words};

pub fn knobharbor_add_text(
    words: &mut Words,
    keys: &mut Keys,
    bytes: &mut Bytes,
    reals: &mut Reals,
    values: &mut Values,
    wwords: &mut Words,
    wkeys: &mut Keys,
    wbytes: &mut Bytes,
    wreals: &mut Reals,
    wvalues: &mut Values,
    answer: &mut [u32; 3],
    offset: &mut u64,
    number: u32,
    line: &[u8],
    budget: u16,
)
    ensures values_after { placed_text offset.new (placed answer.new (sparse words.new keys.new bytes.new reals.new values.new)) ≡ placed_line (text_of number line.now budget (sparse wwords.old wkeys.old wbytes.old wreals.old wvalues.old) (sparse words.old keys.old bytes.old reals.old values.old)) }
    ensures wvalues_value { sparse wwords.new wkeys.new wbytes.new wreals.new wvalues.new ≡ cleared (sparse wwords.old wkeys.old wbytes.old wreals.old wvalues.old) }
{
    let tables = &mut to_write(words, keys, bytes, reals, values);
    let room = &mut to_write(wwords, wkeys, wbytes, wreals, wvalues);
    let r = entry::typed::add::add_text(tables, room, number, line, budget);
    put(
        answer,
        Answer {
            number: r.number,
            pivots: r.pivots,
            whole: r.whole,
        },
    );
    *offset = r.offset as u64;
}
