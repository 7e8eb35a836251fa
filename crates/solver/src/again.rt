// Removals one after the other in the working room, which holds a whole state between them: the lent tables stay as they are until the last is accepted.
ghost use Rattle.std.specs.Prelude.{◌≡◌, true, eqb};
ghost use Rattle.laws.specs.Given.{Then};
ghost use Rattle.steps.specs.Calls.{remove};
ghost use Rattle.sparse.specs.Sparse.{read};
ghost use Rattle.sparse_test.specs.Reads.{reads};
ghost use Rattle.refusals.specs.Refusals.{remove_refusal};
ghost use Rattle.lending.specs.Entered.{bare_words, Entered};
ghost use Rattle.solver.specs.Concluding.{Done};
ghost use Rattle.sparse.specs.Tables.{held, lent, Same};

use crate::remove::remove_known;
use lending::Answer;
use sparse::Words;
use sparse::tables::{Tables, TablesMut};
use stored::records::keep_records;

// All records come over, so that the room holds the lent state.
pub fn bring_all(tables: &Tables, room: &mut TablesMut)
    requires { Entered (lent tables.now) (held room.old) }
    ensures wvalues_value { read (held room.new) ≡ read (lent tables.now) }
    ensures wvalues_value_2 { reads (held room.new) ≡ true }
    ensures same { Same room.old room.new }
{
    keep_records(
        room.words,
        room.bytes,
        room.reals,
        tables.words,
        tables.bytes,
        tables.reals,
    );
    room.long();
}

fn bare(words: &mut Words)
    ensures { words.new ≡ bare_words words.old }
{
    words[sparse::CONSTRAINT_COUNT] = 0;
    words[sparse::EDIT_COUNT] = 0;
}

// The room's own records are copied aside and stand for the lent ones: the constraint n is live among them, and may go.
pub fn remove_again(room: &mut TablesMut, n: u32, budget: u32) -> Answer
    requires values_value { reads (held room.old) ≡ true }
    requires reals_value { remove_refusal n room.old.words.now room.old.bytes.now room.old.reals.now ≡ 0 }
    ensures done { Done (remove n budget) result (held room.old) (held room.new) }
    ensures then { Then (eqb result.number 0) (reads (held room.new) ≡ true) }
    ensures same { Same room.old room.new }
{
    room.long();
    let fwords = *room.words;
    let fbytes = *room.bytes;
    let freals = *room.reals;
    bare(room.words);
    let a = remove_known(&fwords, &fbytes, &freals, room, n, budget);
    room.long();
    a
}
