// The second door: the changing calls behind the test, for tables that safe Rust keeps private, made by reset and changed by these calls alone. They are no public calls: each takes for granted that the tables read as a state. An accepted one leaves its state in the room, which reads as one again, and the caller has both change places; but a suggestion works in place, and leaves the tables reading as a state, accepted or refused.
// The tables and the room are parameters of their own in each `knobharbor_*`: those are C names, and so the C interface has them.
ghost use Rattle.std.specs.Prelude.{◌≡◌, true};
ghost use Rattle.steps.specs.Calls.{remove, drop_group, add_edit, remove_edit, suggest};
ghost use Rattle.steps.specs.Changing.{made};
ghost use Rattle.sparse_test.specs.Reads.{reads};
ghost use Rattle.waist.specs.Working.{sparse};
ghost use Rattle.sparse.specs.Tables.{held, lent, Same};
ghost use Rattle.lending.specs.Lending.{call_in};
ghost use Rattle.changes.specs.Change.{changing_of};
ghost use Rattle.knobharbor.specs.Held.{HeldBy};
ghost use Rattle.knobharbor.specs.Places.{in_places};

use crate::places::put;
use crate::together::{to_read, to_write};
use changes::Change;
use changes::terms::Pack;
use sparse::tables::{Tables, TablesMut};
use sparse::{Bytes, Keys, Reals, Values, Words};

pub fn change(
    tables: &Tables,
    room: &mut TablesMut,
    answer: &mut [u32; 3],
    c: Change,
    p: Pack,
    budget: u16,
)
    requires { reads (lent tables.now) ≡ true }
    ensures does { HeldBy (made (changing_of c p budget)) answer.new (lent tables.now) (held room.new) }
    ensures same { Same room.old room.new }
{
    let a = solver::change_held(tables, room, c, p, budget);
    put(answer, a);
}

pub fn knobharbor_held_remove(
    words: &Words,
    keys: &Keys,
    bytes: &Bytes,
    reals: &Reals,
    values: &Values,
    wwords: &mut Words,
    wkeys: &mut Keys,
    wbytes: &mut Bytes,
    wreals: &mut Reals,
    wvalues: &mut Values,
    answer: &mut [u32; 3],
    number: u32,
    budget: u16,
)
    requires { reads (sparse words.now keys.now bytes.now reals.now values.now) ≡ true }
    ensures { HeldBy (remove number budget) answer.new (sparse words.now keys.now bytes.now reals.now values.now) (sparse wwords.new wkeys.new wbytes.new wreals.new wvalues.new) }
{
    let tables = &to_read(words, keys, bytes, reals, values);
    let room = &mut to_write(wwords, wkeys, wbytes, wreals, wvalues);
    let c = Change::Remove(number);
    let p = changes::terms::none();
    change(tables, room, answer, c, p, budget)
}

pub fn knobharbor_held_drop(
    words: &Words,
    keys: &Keys,
    bytes: &Bytes,
    reals: &Reals,
    values: &Values,
    wwords: &mut Words,
    wkeys: &mut Keys,
    wbytes: &mut Bytes,
    wreals: &mut Reals,
    wvalues: &mut Values,
    answer: &mut [u32; 3],
    group: u16,
    budget: u16,
)
    requires { reads (sparse words.now keys.now bytes.now reals.now values.now) ≡ true }
    ensures { HeldBy (drop_group group budget) answer.new (sparse words.now keys.now bytes.now reals.now values.now) (sparse wwords.new wkeys.new wbytes.new wreals.new wvalues.new) }
{
    let tables = &to_read(words, keys, bytes, reals, values);
    let room = &mut to_write(wwords, wkeys, wbytes, wreals, wvalues);
    let c = Change::Drop(group);
    let p = changes::terms::none();
    change(tables, room, answer, c, p, budget)
}

pub fn knobharbor_held_add_edit(
    words: &Words,
    keys: &Keys,
    bytes: &Bytes,
    reals: &Reals,
    values: &Values,
    wwords: &mut Words,
    wkeys: &mut Keys,
    wbytes: &mut Bytes,
    wreals: &mut Reals,
    wvalues: &mut Values,
    answer: &mut [u32; 3],
    variable: u32,
    strength: f64,
    budget: u16,
)
    requires { reads (sparse words.now keys.now bytes.now reals.now values.now) ≡ true }
    ensures { HeldBy (add_edit variable strength budget) answer.new (sparse words.now keys.now bytes.now reals.now values.now) (sparse wwords.new wkeys.new wbytes.new wreals.new wvalues.new) }
{
    let tables = &to_read(words, keys, bytes, reals, values);
    let room = &mut to_write(wwords, wkeys, wbytes, wreals, wvalues);
    let c = Change::AddEdit(variable, strength);
    let p = changes::terms::none();
    change(tables, room, answer, c, p, budget)
}

pub fn knobharbor_held_remove_edit(
    words: &Words,
    keys: &Keys,
    bytes: &Bytes,
    reals: &Reals,
    values: &Values,
    wwords: &mut Words,
    wkeys: &mut Keys,
    wbytes: &mut Bytes,
    wreals: &mut Reals,
    wvalues: &mut Values,
    answer: &mut [u32; 3],
    variable: u32,
    budget: u16,
)
    requires { reads (sparse words.now keys.now bytes.now reals.now values.now) ≡ true }
    ensures { HeldBy (remove_edit variable budget) answer.new (sparse words.now keys.now bytes.now reals.now values.now) (sparse wwords.new wkeys.new wbytes.new wreals.new wvalues.new) }
{
    let tables = &to_read(words, keys, bytes, reals, values);
    let room = &mut to_write(wwords, wkeys, wbytes, wreals, wvalues);
    let c = Change::RemoveEdit(variable);
    let p = changes::terms::none();
    change(tables, room, answer, c, p, budget)
}

pub fn knobharbor_held_suggest(
    words: &mut Words,
    keys: &mut Keys,
    bytes: &mut Bytes,
    reals: &mut Reals,
    values: &mut Values,
    wwords: &mut Words,
    wkeys: &mut Keys,
    wbytes: &mut Bytes,
    wreals: &mut Reals,
    wvalues: &mut Values,
    answer: &mut [u32; 3],
    variable: u32,
    suggestion: f64,
    budget: u16,
)
    requires { reads (sparse words.old keys.old bytes.old reals.old values.old) ≡ true }
    ensures answer_after { answer.new ≡ in_places (call_in (suggest variable suggestion budget) (sparse words.old keys.old bytes.old reals.old values.old)).answer }
    ensures values_value { sparse words.new keys.new bytes.new reals.new values.new ≡ (call_in (suggest variable suggestion budget) (sparse words.old keys.old bytes.old reals.old values.old)).tables }
    ensures values_value_2 { reads (sparse words.new keys.new bytes.new reals.new values.new) ≡ true }
{
    let tables = &mut to_write(words, keys, bytes, reals, values);
    let room = &mut to_write(wwords, wkeys, wbytes, wreals, wvalues);
    let a = solver::back::suggest_held(tables, room, variable, suggestion, budget);
    put(answer, a);
}
