// Add. The terms come as a lent list of records; or as two lists, the i-th term the i-th variable times the i-th coefficient. The kind is 0 for at most, 1 for equal, 2 for at least.
// The tables and the room are parameters of their own in each `knobharbor_*`: those are C names, and so the C interface has them.
ghost use Rattle.std.specs.Prelude.{◌≡◌};
ghost use Rattle.waist.specs.Working.{sparse};
ghost use Rattle.sparse.specs.Tables.{held, Same};
ghost use Rattle.lending.specs.sparse_copy.Over.{cleared};
ghost use Rattle.lending.specs.Lending.{answer_of, called, refused18};
ghost use Rattle.knobharbor.specs.Adding.{add_of, add_lists_of, packed_of};
ghost use Rattle.knobharbor.specs.Places.{placed, placed_by};

use crate::changed::change;
use crate::given::{gather, relation};
use crate::places::put;
use crate::together::to_write;
use changes::Change;
use changes::terms::{Pack, Term};
use lending::Answer;
use sparse::tables::TablesMut;
use sparse::{Bytes, Keys, Reals, Values, Words};

// What no call can be made of: 18, and the room is cleared.
fn refuse(room: &mut TablesMut) -> Answer
    ensures result_value { answer_of result ≡ refused18 }
    ensures wvalues_value { held room.new ≡ cleared (held room.old) }
    ensures same { Same room.old room.new }
{
    lending::clearing::clear_room(room);
    lending::refuse18()
}

fn add_packed(
    tables: &mut TablesMut,
    room: &mut TablesMut,
    answer: &mut [u32; 3],
    group: u16,
    number: u32,
    p: Pack,
    constant: f64,
    kind: u32,
    strength: f64,
    budget: u16,
)
    ensures values_after { placed answer.new (held tables.new) ≡ placed_by (packed_of group number p constant kind strength budget (held room.old) (held tables.old)) }
    ensures wvalues_value { held room.new ≡ cleared (held room.old) }
    ensures same_tables { Same tables.old tables.new }
    ensures same_room { Same room.old room.new }
{
    let ok = kind < 3;
    if !ok {
        let a = refuse(room);
        put(answer, a);
        return;
    }
    let relation = relation(kind, strength);
    let c = Change::Add(group, number, constant, relation);
    change(tables, room, answer, c, p, budget)
}

// "A thin entry over a slice of term structs that hands variable and coefficient to covered functions.": `collect` gathers the terms, and `add_packed` makes the call of their list.
pub fn knobharbor_add(
    words: &mut Words,
    keys: &mut Keys,
    bytes: &mut Bytes,
    reals: &mut Reals,
    values: &mut Values,
    wwords: &mut Words,
    wkeys: &mut Keys,
    wbytes: &mut Bytes,
    wreals: &mut Reals,
    wvalues: &mut Values,
    answer: &mut [u32; 3],
    group: u16,
    number: u32,
    terms: &[Term],
    constant: f64,
    kind: u32,
    strength: f64,
    budget: u16,
)
    ensures values_after { placed answer.new (sparse words.new keys.new bytes.new reals.new values.new) ≡ placed_by (add_of group number terms.now constant kind strength budget (sparse wwords.old wkeys.old wbytes.old wreals.old wvalues.old) (sparse words.old keys.old bytes.old reals.old values.old)) }
    ensures wvalues_value { sparse wwords.new wkeys.new wbytes.new wreals.new wvalues.new ≡ cleared (sparse wwords.old wkeys.old wbytes.old wreals.old wvalues.old) }
{
    let tables = &mut to_write(words, keys, bytes, reals, values);
    let room = &mut to_write(wwords, wkeys, wbytes, wreals, wvalues);
    let p = changes::terms::collect(terms);
    add_packed(
        tables, room, answer, group, number, p, constant, kind, strength, budget,
    )
}

pub fn knobharbor_add_lists(
    words: &mut Words,
    keys: &mut Keys,
    bytes: &mut Bytes,
    reals: &mut Reals,
    values: &mut Values,
    wwords: &mut Words,
    wkeys: &mut Keys,
    wbytes: &mut Bytes,
    wreals: &mut Reals,
    wvalues: &mut Values,
    answer: &mut [u32; 3],
    group: u16,
    number: u32,
    vars: &[u32],
    coefs: &[f64],
    constant: f64,
    kind: u32,
    strength: f64,
    budget: u16,
)
    ensures values_after { placed answer.new (sparse words.new keys.new bytes.new reals.new values.new) ≡ placed_by (add_lists_of group number vars.now coefs.now constant kind strength budget (sparse wwords.old wkeys.old wbytes.old wreals.old wvalues.old) (sparse words.old keys.old bytes.old reals.old values.old)) }
    ensures wvalues_value { sparse wwords.new wkeys.new wbytes.new wreals.new wvalues.new ≡ cleared (sparse wwords.old wkeys.old wbytes.old wreals.old wvalues.old) }
{
    let tables = &mut to_write(words, keys, bytes, reals, values);
    let room = &mut to_write(wwords, wkeys, wbytes, wreals, wvalues);
    let ok = vars.len() == coefs.len();
    if !ok {
        let a = refuse(room);
        put(answer, a);
        return;
    }
    let p = gather(vars, coefs);
    add_packed(
        tables, room, answer, group, number, p, constant, kind, strength, budget,
    )
}
