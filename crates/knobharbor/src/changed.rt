// The changing calls without a list: all but add. "working room, where lent, is all zero after every call"
// The tables and the room are parameters of their own in each `knobharbor_*`: those are C names, and so the C interface has them.
ghost use Rattle.std.specs.Prelude.{◌≡◌};
ghost use Rattle.steps.specs.Calls.{remove, drop_group, add_edit, remove_edit, suggest};
ghost use Rattle.steps.specs.Changing.{made};
ghost use Rattle.waist.specs.Working.{sparse};
ghost use Rattle.sparse.specs.Tables.{held, Same};
ghost use Rattle.lending.specs.sparse_copy.Over.{cleared};
ghost use Rattle.lending.specs.Lending.{call_of};
ghost use Rattle.changes.specs.Change.{changing_of};
ghost use Rattle.knobharbor.specs.Places.{placed, placed_by};

use crate::places::put;
use crate::together::to_write;
use changes::Change;
use changes::terms::Pack;
use sparse::tables::TablesMut;
use sparse::{Bytes, Keys, Reals, Values, Words};

// The one changing call, and its answer in its place. p is read by an add alone.
pub fn change(
    tables: &mut TablesMut,
    room: &mut TablesMut,
    answer: &mut [u32; 3],
    c: Change,
    p: Pack,
    budget: u16,
)
    ensures values_after { placed answer.new (held tables.new) ≡ placed_by (call_of (made (changing_of c p budget)) (held room.old) (held tables.old)) }
    ensures wvalues_value { held room.new ≡ cleared (held room.old) }
    ensures same_tables { Same tables.old tables.new }
    ensures same_room { Same room.old room.new }
{
    let a = solver::change(tables, room, c, p, budget);
    put(answer, a);
}

pub fn knobharbor_remove(
    words: &mut Words,
    keys: &mut Keys,
    bytes: &mut Bytes,
    reals: &mut Reals,
    values: &mut Values,
    wwords: &mut Words,
    wkeys: &mut Keys,
    wbytes: &mut Bytes,
    wreals: &mut Reals,
    wvalues: &mut Values,
    answer: &mut [u32; 3],
    number: u32,
    budget: u16,
)
    ensures values_after { placed answer.new (sparse words.new keys.new bytes.new reals.new values.new) ≡ placed_by (call_of (remove number budget) (sparse wwords.old wkeys.old wbytes.old wreals.old wvalues.old) (sparse words.old keys.old bytes.old reals.old values.old)) }
    ensures wvalues_value { sparse wwords.new wkeys.new wbytes.new wreals.new wvalues.new ≡ cleared (sparse wwords.old wkeys.old wbytes.old wreals.old wvalues.old) }
{
    let tables = &mut to_write(words, keys, bytes, reals, values);
    let room = &mut to_write(wwords, wkeys, wbytes, wreals, wvalues);
    let c = Change::Remove(number);
    let p = changes::terms::none();
    change(tables, room, answer, c, p, budget)
}

// "Dropping a group removes its constraints by ascending number, all or none, under one budget."
pub fn knobharbor_drop(
    words: &mut Words,
    keys: &mut Keys,
    bytes: &mut Bytes,
    reals: &mut Reals,
    values: &mut Values,
    wwords: &mut Words,
    wkeys: &mut Keys,
    wbytes: &mut Bytes,
    wreals: &mut Reals,
    wvalues: &mut Values,
    answer: &mut [u32; 3],
    group: u16,
    budget: u16,
)
    ensures values_after { placed answer.new (sparse words.new keys.new bytes.new reals.new values.new) ≡ placed_by (call_of (drop_group group budget) (sparse wwords.old wkeys.old wbytes.old wreals.old wvalues.old) (sparse words.old keys.old bytes.old reals.old values.old)) }
    ensures wvalues_value { sparse wwords.new wkeys.new wbytes.new wreals.new wvalues.new ≡ cleared (sparse wwords.old wkeys.old wbytes.old wreals.old wvalues.old) }
{
    let tables = &mut to_write(words, keys, bytes, reals, values);
    let room = &mut to_write(wwords, wkeys, wbytes, wreals, wvalues);
    let c = Change::Drop(group);
    let p = changes::terms::none();
    change(tables, room, answer, c, p, budget)
}

pub fn knobharbor_add_edit(
    words: &mut Words,
    keys: &mut Keys,
    bytes: &mut Bytes,
    reals: &mut Reals,
    values: &mut Values,
    wwords: &mut Words,
    wkeys: &mut Keys,
    wbytes: &mut Bytes,
    wreals: &mut Reals,
    wvalues: &mut Values,
    answer: &mut [u32; 3],
    variable: u32,
    strength: f64,
    budget: u16,
)
    ensures values_after { placed answer.new (sparse words.new keys.new bytes.new reals.new values.new) ≡ placed_by (call_of (add_edit variable strength budget) (sparse wwords.old wkeys.old wbytes.old wreals.old wvalues.old) (sparse words.old keys.old bytes.old reals.old values.old)) }
    ensures wvalues_value { sparse wwords.new wkeys.new wbytes.new wreals.new wvalues.new ≡ cleared (sparse wwords.old wkeys.old wbytes.old wreals.old wvalues.old) }
{
    let tables = &mut to_write(words, keys, bytes, reals, values);
    let room = &mut to_write(wwords, wkeys, wbytes, wreals, wvalues);
    let c = Change::AddEdit(variable, strength);
    let p = changes::terms::none();
    change(tables, room, answer, c, p, budget)
}

pub fn knobharbor_remove_edit(
    words: &mut Words,
    keys: &mut Keys,
    bytes: &mut Bytes,
    reals: &mut Reals,
    values: &mut Values,
    wwords: &mut Words,
    wkeys: &mut Keys,
    wbytes: &mut Bytes,
    wreals: &mut Reals,
    wvalues: &mut Values,
    answer: &mut [u32; 3],
    variable: u32,
    budget: u16,
)
    ensures values_after { placed answer.new (sparse words.new keys.new bytes.new reals.new values.new) ≡ placed_by (call_of (remove_edit variable budget) (sparse wwords.old wkeys.old wbytes.old wreals.old wvalues.old) (sparse words.old keys.old bytes.old reals.old values.old)) }
    ensures wvalues_value { sparse wwords.new wkeys.new wbytes.new wreals.new wvalues.new ≡ cleared (sparse wwords.old wkeys.old wbytes.old wreals.old wvalues.old) }
{
    let tables = &mut to_write(words, keys, bytes, reals, values);
    let room = &mut to_write(wwords, wkeys, wbytes, wreals, wvalues);
    let c = Change::RemoveEdit(variable);
    let p = changes::terms::none();
    change(tables, room, answer, c, p, budget)
}

pub fn knobharbor_suggest(
    words: &mut Words,
    keys: &mut Keys,
    bytes: &mut Bytes,
    reals: &mut Reals,
    values: &mut Values,
    wwords: &mut Words,
    wkeys: &mut Keys,
    wbytes: &mut Bytes,
    wreals: &mut Reals,
    wvalues: &mut Values,
    answer: &mut [u32; 3],
    variable: u32,
    suggestion: f64,
    budget: u16,
)
    ensures values_after { placed answer.new (sparse words.new keys.new bytes.new reals.new values.new) ≡ placed_by (call_of (suggest variable suggestion budget) (sparse wwords.old wkeys.old wbytes.old wreals.old wvalues.old) (sparse words.old keys.old bytes.old reals.old values.old)) }
    ensures wvalues_value { sparse wwords.new wkeys.new wbytes.new wreals.new wvalues.new ≡ cleared (sparse wwords.old wkeys.old wbytes.old wreals.old wvalues.old) }
{
    let tables = &mut to_write(words, keys, bytes, reals, values);
    let room = &mut to_write(wwords, wkeys, wbytes, wreals, wvalues);
    let c = Change::Suggest(variable, suggestion);
    let p = changes::terms::none();
    change(tables, room, answer, c, p, budget)
}
