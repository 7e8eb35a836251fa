// Remove edit.
ghost use Rattle.std.specs.Prelude.{◌≡◌};
ghost use Rattle.steps.specs.Calls.{remove_edit};
ghost use Rattle.refusals.specs.Refusals.{remove_edit_refusal};
ghost use Rattle.solver.specs.Concluding.{Done};
ghost use Rattle.lending.specs.Entered.{Entered};
ghost use Rattle.sparse.specs.Tables.{held, lent, Same};

use crate::begin::{accepted, close, refused, refused_by_test, stored_mark};
use lending::Answer;
use removal::remove_steps;
use sparse::tables::{Tables, TablesMut};

// The tests passed: the variable has an edit, and there is room for the gone entry.
fn remove_edit_known(tables: &Tables, room: &mut TablesMut, n: u32, budget: u32) -> Answer
    requires entered { Entered (lent tables.now) (held room.old) }
    requires reals_value { remove_edit_refusal n tables.now.words.now tables.now.bytes.now tables.now.reals.now ≡ 0 }
    ensures does { Done (remove_edit n budget) result (lent tables.now) (held room.new) }
    ensures same { Same room.old room.new }
{
    let before = stored_mark(tables.words);
    let j = crate::looks::edit_place(tables.words, tables.bytes, n as u64);
    let marker = tables.bytes[sparse::EDIT_MARKERS + j];
    let other = tables.bytes[sparse::EDIT_OTHERS + j];
    let strength = tables.reals[sparse::EDIT_STRENGTHS + j];
    let p = refusals::edit_pack(n);
    let went = match remove_steps(room, marker, other, strength, p, budget, before) {
        Ok(went) => went,
        Err(e) => return refused(e),
    };
    close(room.words, went.wrote);
    crate::bringing::without_edit(tables, room, j);
    accepted(went)
}

// "Remove edit: 18, 8, 25."
pub fn remove_edit(tables: &Tables, room: &mut TablesMut, n: u32, budget: u32) -> Answer
    requires { Entered (lent tables.now) (held room.old) }
    ensures does { Done (remove_edit n budget) result (lent tables.now) (held room.new) }
    ensures same { Same room.old room.new }
{
    if let Err(why) = refusals::remove_edit_tests(tables.words, tables.bytes, tables.reals, n) {
        return refused_by_test(tables.words, why);
    }
    remove_edit_known(tables, room, n, budget)
}
