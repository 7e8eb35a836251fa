// Behind the test: add. A list of terms is gathered into a pack, whose call is made.
// The tables and the room are parameters of their own in each `knobharbor_*`: those are C names, and so the C interface has them.
ghost use Rattle.std.specs.Prelude.{◌≡◌, true};
ghost use Rattle.sparse_test.specs.Reads.{reads};
ghost use Rattle.waist.specs.Working.{sparse};
ghost use Rattle.sparse.specs.Tables.{held, lent, Same};
ghost use Rattle.knobharbor.specs.Held.{HeldBy, held_add, held_packed};

use crate::given::relation;
use crate::held::change;
use crate::together::{to_read, to_write};
use changes::Change;
use changes::terms::{Pack, Term};
use sparse::tables::{Tables, TablesMut};
use sparse::{Bytes, Keys, Reals, Values, Words};

fn add_packed(
    tables: &Tables,
    room: &mut TablesMut,
    answer: &mut [u32; 3],
    group: u16,
    number: u32,
    p: Pack,
    constant: f64,
    kind: u32,
    strength: f64,
    budget: u16,
)
    requires { reads (lent tables.now) ≡ true }
    ensures does { HeldBy (held_packed group number p constant kind strength budget) answer.new (lent tables.now) (held room.new) }
    ensures same { Same room.old room.new }
{
    let r = relation(kind, strength);
    let c = Change::Add(group, number, constant, r);
    change(tables, room, answer, c, p, budget)
}

pub fn knobharbor_held_add(
    words: &Words,
    keys: &Keys,
    bytes: &Bytes,
    reals: &Reals,
    values: &Values,
    wwords: &mut Words,
    wkeys: &mut Keys,
    wbytes: &mut Bytes,
    wreals: &mut Reals,
    wvalues: &mut Values,
    answer: &mut [u32; 3],
    group: u16,
    number: u32,
    terms: &[Term],
    constant: f64,
    kind: u32,
    strength: f64,
    budget: u16,
)
    requires { reads (sparse words.now keys.now bytes.now reals.now values.now) ≡ true }
    ensures { HeldBy (held_add group number terms.now constant kind strength budget) answer.new (sparse words.now keys.now bytes.now reals.now values.now) (sparse wwords.new wkeys.new wbytes.new wreals.new wvalues.new) }
{
    let tables = &to_read(words, keys, bytes, reals, values);
    let room = &mut to_write(wwords, wkeys, wbytes, wreals, wvalues);
    let p = changes::terms::collect(terms);
    add_packed(
        tables, room, answer, group, number, p, constant, kind, strength, budget,
    )
}
