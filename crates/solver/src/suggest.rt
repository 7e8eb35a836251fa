// Suggest, made in the room: the steps, and the records brought over with the new suggestion.
ghost use Rattle.std.specs.Prelude.{◌≡◌, true, false, ◌<◌};
ghost use Rattle.steps.specs.Number.{is_finite};
ghost use Rattle.steps.specs.Edit.{suggest_steps};
ghost use Rattle.steps.specs.Calls.{begin, suggest};
ghost use Rattle.sparse.specs.Sparse.{edit_count, edit_of, read};
ghost use Rattle.refusals.specs.Refusals.{edited_in};
ghost use Rattle.solver.specs.Concluding.{Done};
ghost use Rattle.waist.specs.Ending.{outcome_of, Goes, ended_of};
ghost use Rattle.lending.specs.Entered.{Entered};
ghost use Rattle.sparse.specs.Tables.{held, lent, Same};

use crate::begin::{accepted, close, refused, refused_by_test, stored_mark};
use lending::Answer;
use optimising::suggestion::suggest::suggest_steps;
use sparse::tables::{Tables, TablesMut};
use waist::ending::{Refused, Went};

// The steps, with the j-th edit.
pub fn drag(
    tables: &Tables,
    room: &mut TablesMut,
    j: usize,
    new: f64,
    budget: u32,
) -> Result<Went, Refused>
    requires entered { Entered (lent tables.now) (held room.old) }
    requires j_bound { j < edit_count (lent tables.now) }
    ensures wvalues_value { outcome_of false (ended_of result) (held room.new) ≡ suggest_steps budget (edit_of (lent tables.now) j) new (begin (read (lent tables.now))) }
    ensures goes { Goes false (ended_of result) (held room.new) }
    ensures same { Same room.old room.new }
{
    let before = stored_mark(tables.words);
    let marker = tables.bytes[sparse::EDIT_MARKERS + j];
    let other = tables.bytes[sparse::EDIT_OTHERS + j];
    let stored = tables.reals[sparse::SUGGESTIONS + j];
    suggest_steps(room, marker, other, stored, new, budget, before)
}

// The tests passed: the variable has an edit, and the suggestion is finite.
fn suggest_known(tables: &Tables, room: &mut TablesMut, n: u32, new: f64, budget: u32) -> Answer
    requires entered { Entered (lent tables.now) (held room.old) }
    requires value { is_finite new ≡ true }
    requires n_value { edited_in tables.now.words.now tables.now.bytes.now n ≡ true }
    ensures does { Done (suggest n new budget) result (lent tables.now) (held room.new) }
    ensures same { Same room.old room.new }
{
    let j = crate::looks::edit_place(tables.words, tables.bytes, n as u64);
    let went = match drag(tables, room, j, new, budget) {
        Ok(went) => went,
        Err(e) => return refused(e),
    };
    close(room.words, went.wrote);
    crate::bringing::with_suggestion(tables, room, j, new);
    accepted(went)
}

// "Suggest: 18, 1, 8." The stored suggestion changes only if the call is accepted.
pub fn suggest(tables: &Tables, room: &mut TablesMut, n: u32, new: f64, budget: u32) -> Answer
    requires { Entered (lent tables.now) (held room.old) }
    ensures does { Done (suggest n new budget) result (lent tables.now) (held room.new) }
    ensures same { Same room.old room.new }
{
    if let Err(why) = refusals::suggest_tests(tables.words, tables.bytes, n, new) {
        return refused_by_test(tables.words, why);
    }
    suggest_known(tables, room, n, new, budget)
}
