// The changing call and reset over slices of arrays: "18 | a lent table has the wrong length" where one is lent other than once.
#![tactic(auto)]

ghost use Rattle.std.specs.Prelude.{◌≡◌, not, ◌&&◌};
ghost use Rattle.laws.specs.Given.{Then};
ghost use Rattle.steps.specs.Number.{zero64};
ghost use Rattle.steps.specs.Changing.{made};
ghost use Rattle.layout.specs.cells.Names.{cell_room};
ghost use Rattle.sparse.specs.Places.{words_size, bytes_size, reals_size};
ghost use Rattle.waist.specs.Working.{sparse};
ghost use Rattle.lending.specs.Lending.{answer_of, called, call_of};
ghost use Rattle.lending.specs.Entered.{zero_room};
ghost use Rattle.changes.specs.Change.{changing_of};
ghost use Rattle.sparse.specs.lengths.Lengths.{lists, once_each};
ghost use Rattle.entry.specs.Entry.{lent_once, zeroes, each, zeroed, call_on, reset_on};

pub mod typed;

use changes::Change;
use changes::terms::Pack;
use lending::Answer;
use sparse::lengths::once;
use sparse::tables::TablesMut;
use sparse::{Bytes, Keys, Reals, Values, Words};

fn clear_all<T: Copy, const N: usize>(work: &mut [[T; N]], zero: T)
    ensures { work.new ≡ each (zeroes N zero) work.old }
{
    for room in work.iter_mut() {
        lending::room::blank(room, zero);
    }
}

fn clear(
    wwords: &mut [Words],
    wkeys: &mut [Keys],
    wbytes: &mut [Bytes],
    wreals: &mut [Reals],
    wvalues: &mut [Values],
)
    ensures { lists wwords.new wkeys.new wbytes.new wreals.new wvalues.new ≡ zeroed (lists wwords.old wkeys.old wbytes.old wreals.old wvalues.old) }
{
    clear_all(wwords, 0);
    clear_all(wkeys, 0);
    clear_all(wbytes, 0);
    clear_all(wreals, 0.0);
    clear_all(wvalues, 0.0);
}

// Each lent once: the call over arrays. The room is told its lengths, so that what is cleared is all of it.
fn change_once(
    words: &mut Words,
    keys: &mut Keys,
    bytes: &mut Bytes,
    reals: &mut Reals,
    values: &mut Values,
    wwords: &mut Words,
    wkeys: &mut Keys,
    wbytes: &mut Bytes,
    wreals: &mut Reals,
    wvalues: &mut Values,
    c: Change,
    p: Pack,
    budget: u16,
) -> Answer
    ensures values_value { called (answer_of result) (sparse words.new keys.new bytes.new reals.new values.new) ≡ call_of (made (changing_of c p budget)) (sparse wwords.old wkeys.old wbytes.old wreals.old wvalues.old) (sparse words.old keys.old bytes.old reals.old values.old) }
    ensures wvalues_value { sparse wwords.new wkeys.new wbytes.new wreals.new wvalues.new ≡ zero_room }
{
    let mut tables = TablesMut {
        words,
        keys,
        bytes,
        reals,
        values,
    };
    let mut room = TablesMut {
        words: wwords,
        keys: wkeys,
        bytes: wbytes,
        reals: wreals,
        values: wvalues,
    };
    room.long();
    solver::change(&mut tables, &mut room, c, p, budget)
}

pub fn change(
    words: &mut [Words],
    keys: &mut [Keys],
    bytes: &mut [Bytes],
    reals: &mut [Reals],
    values: &mut [Values],
    wwords: &mut [Words],
    wkeys: &mut [Keys],
    wbytes: &mut [Bytes],
    wreals: &mut [Reals],
    wvalues: &mut [Values],
    c: Change,
    p: Pack,
    budget: u16,
) -> Answer
    ensures values_after { called (answer_of result) (lent_once (lists words.new keys.new bytes.new reals.new values.new)) ≡ call_on (made (changing_of c p budget)) (lists wwords.old wkeys.old wbytes.old wreals.old wvalues.old) (lists words.old keys.old bytes.old reals.old values.old) }
    ensures then { Then (not (once_each (lists words.old keys.old bytes.old reals.old values.old) && once_each (lists wwords.old wkeys.old wbytes.old wreals.old wvalues.old))) (lists words.new keys.new bytes.new reals.new values.new ≡ lists words.old keys.old bytes.old reals.old values.old) }
    ensures wvalues_after { lists wwords.new wkeys.new wbytes.new wreals.new wvalues.new ≡ zeroed (lists wwords.old wkeys.old wbytes.old wreals.old wvalues.old) }
{
    let ok = once(words, keys, bytes, reals, values) & once(wwords, wkeys, wbytes, wreals, wvalues);
    if !ok {
        clear(wwords, wkeys, wbytes, wreals, wvalues);
        return lending::refuse18();
    }
    change_once(
        &mut words[0],
        &mut keys[0],
        &mut bytes[0],
        &mut reals[0],
        &mut values[0],
        &mut wwords[0],
        &mut wkeys[0],
        &mut wbytes[0],
        &mut wreals[0],
        &mut wvalues[0],
        c,
        p,
        budget,
    )
}

// "Reset refuses wrong lengths (18) and a cutoff outside the range (24), in that order; nothing else."
pub fn reset(
    words: &mut [Words],
    keys: &mut [Keys],
    bytes: &mut [Bytes],
    reals: &mut [Reals],
    values: &mut [Values],
    cutoff: f64,
) -> Answer
    ensures values_after { called (answer_of result) (lent_once (lists words.new keys.new bytes.new reals.new values.new)) ≡ reset_on cutoff (lists words.old keys.old bytes.old reals.old values.old) }
    ensures then { Then (not (once_each (lists words.old keys.old bytes.old reals.old values.old))) (lists words.new keys.new bytes.new reals.new values.new ≡ lists words.old keys.old bytes.old reals.old values.old) }
{
    let ok = once(words, keys, bytes, reals, values);
    if !ok {
        return lending::refuse18();
    }
    let mut tables = TablesMut {
        words: &mut words[0],
        keys: &mut keys[0],
        bytes: &mut bytes[0],
        reals: &mut reals[0],
        values: &mut values[0],
    };
    lending::reset(&mut tables, cutoff)
}
