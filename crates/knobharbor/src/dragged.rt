// "one call that drags (suggest, then fetch; its contract is just that)": the tables are tested once. A refused suggestion is followed by the fetch as well.
// The tables and the room are parameters of their own in each `knobharbor_*`: those are C names, and so the C interface has them.
ghost use Rattle.std.specs.Prelude.{◌≡◌, true};
ghost use Rattle.laws.specs.Given.{Then};
ghost use Rattle.steps.specs.Calls.{suggest};
ghost use Rattle.sparse.specs.Tables.{held, Same};
ghost use Rattle.sparse_test.specs.Reads.{reads};
ghost use Rattle.lending.specs.sparse_copy.Over.{cleared};
ghost use Rattle.waist.specs.Working.{sparse};
ghost use Rattle.lending.specs.Lending.{call_of};
ghost use Rattle.fetches.specs.Fetch.{fetch_by, fetch_of};
ghost use Rattle.knobharbor.specs.Places.{in_places, placed_list, placed_fetch};

use crate::places::{put, put_fetched};
use crate::together::to_write;
use changes::Change;
use fetches::{Fetched, Flags, Moved, Numbers};
use sparse::tables::TablesMut;
use sparse::{Bytes, Keys, Reals, Values, Words};

// Untested where the tables are known to read as a state.
fn fetch_after(
    known: bool,
    tables: &mut TablesMut,
    numbers: &mut Numbers,
    moved: &mut Moved,
    gone: &mut Flags,
) -> Fetched
    requires { Then known (reads (held tables.old) ≡ true) }
    ensures does { fetch_by result numbers.new moved.new gone.new (held tables.new) ≡ fetch_of (held tables.old) }
    ensures same { Same tables.old tables.new }
{
    if !known {
        return fetches::fetch_changes(
            tables.words,
            tables.keys,
            tables.bytes,
            tables.reals,
            tables.values,
            numbers,
            moved,
            gone,
        );
    }
    let count = fetches::fetch_held(
        tables.words,
        tables.keys,
        tables.bytes,
        tables.reals,
        tables.values,
        numbers,
        moved,
        gone,
    );
    Fetched { number: 0, count }
}

pub fn knobharbor_drag(
    words: &mut Words,
    keys: &mut Keys,
    bytes: &mut Bytes,
    reals: &mut Reals,
    values: &mut Values,
    wwords: &mut Words,
    wkeys: &mut Keys,
    wbytes: &mut Bytes,
    wreals: &mut Reals,
    wvalues: &mut Values,
    answer: &mut [u32; 3],
    fetched: &mut [u32; 2],
    numbers: &mut Numbers,
    moved: &mut Moved,
    gone: &mut Flags,
    variable: u32,
    suggestion: f64,
    budget: u16,
)
    ensures answer_after { answer.new ≡ in_places (call_of (suggest variable suggestion budget) (sparse wwords.old wkeys.old wbytes.old wreals.old wvalues.old) (sparse words.old keys.old bytes.old reals.old values.old)).answer }
    ensures values_after { placed_list fetched.new numbers.new moved.new gone.new (sparse words.new keys.new bytes.new reals.new values.new) ≡ placed_fetch (fetch_of (call_of (suggest variable suggestion budget) (sparse wwords.old wkeys.old wbytes.old wreals.old wvalues.old) (sparse words.old keys.old bytes.old reals.old values.old)).tables) }
    ensures wvalues_value { sparse wwords.new wkeys.new wbytes.new wreals.new wvalues.new ≡ cleared (sparse wwords.old wkeys.old wbytes.old wreals.old wvalues.old) }
{
    let c = Change::Suggest(variable, suggestion);
    let p = changes::terms::none();
    let tables = &mut to_write(words, keys, bytes, reals, values);
    tables.long();
    let room = &mut to_write(wwords, wkeys, wbytes, wreals, wvalues);
    let a = solver::change(tables, room, c, p, budget);
    put(answer, a);
    let f = fetch_after(a.number != 18, tables, numbers, moved, gone);
    put_fetched(fetched, f);
}
