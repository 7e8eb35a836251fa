// Remove.
ghost use Rattle.std.specs.Prelude.{◌≡◌};
ghost use Rattle.steps.specs.Calls.{remove};
ghost use Rattle.refusals.specs.Refusals.{remove_refusal};
ghost use Rattle.solver.specs.Concluding.{Done, EnteredFrom, DoneFrom};
ghost use Rattle.lending.specs.Entered.{Entered};
ghost use Rattle.sparse.specs.Tables.{held, lent, Same};

use crate::begin::{accepted, close, refused, refused_by_test, stored_mark};
use lending::Answer;
use removal::remove_steps;
use sparse::lookup::look_up;
use sparse::tables::{Tables, TablesMut};
use sparse::{Bytes, Reals, Words};
use stored::records::drop_constraint;

// The tests passed: the constraint is live, and there is room for the gone entries. The lent tables' cells are not read: those of the room are theirs.
pub fn remove_known(
    words: &Words,
    bytes: &Bytes,
    reals: &Reals,
    room: &mut TablesMut,
    n: u32,
    budget: u32,
) -> Answer
    requires entered_from { EnteredFrom words.now bytes.now reals.now (held room.old) }
    requires reals_value { remove_refusal n words.now bytes.now reals.now ≡ 0 }
    ensures does { DoneFrom (remove n budget) result words.now bytes.now reals.now (held room.old) (held room.new) }
    ensures same { Same room.old room.new }
{
    let before = stored_mark(words);
    let c = words[sparse::CONSTRAINT_COUNT] as usize;
    let j = look_up(words, sparse::CONSTRAINT_NUMBERS, c, n as u64);
    let marker = bytes[sparse::CONSTRAINT_MARKERS + j];
    let other = bytes[sparse::CONSTRAINT_OTHERS + j];
    let strength = reals[sparse::CONSTRAINT_STRENGTHS + j];
    let p = crate::looks::constraint_terms(words, bytes, reals, j);
    let went = match remove_steps(room, marker, other, strength, p, budget, before) {
        Ok(went) => went,
        Err(e) => return refused(e),
    };
    close(room.words, went.wrote);
    drop_constraint(room.words, room.bytes, room.reals, words, bytes, reals, j);
    accepted(went)
}

// "Remove: 18, 5, 25."
pub fn remove(tables: &Tables, room: &mut TablesMut, n: u32, budget: u32) -> Answer
    requires { Entered (lent tables.now) (held room.old) }
    ensures does { Done (remove n budget) result (lent tables.now) (held room.new) }
    ensures same { Same room.old room.new }
{
    if let Err(why) = refusals::remove_tests(tables.words, tables.bytes, tables.reals, n) {
        return refused_by_test(tables.words, why);
    }
    remove_known(tables.words, tables.bytes, tables.reals, room, n, budget)
}
