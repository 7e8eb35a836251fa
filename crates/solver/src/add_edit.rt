// Add edit.
ghost use Rattle.std.specs.Prelude.{◌≡◌};
ghost use Rattle.steps.specs.Strength.{clip};
ghost use Rattle.steps.specs.Calls.{add_edit};
ghost use Rattle.refusals.specs.Refusals.{cutoff_in, add_edit_refusal};
ghost use Rattle.solver.specs.Concluding.{Done};
ghost use Rattle.lending.specs.Entered.{Entered};
ghost use Rattle.sparse.specs.Tables.{held, lent, Same};

use crate::begin::{accepted, close, refused, refused_by_test, stored_mark};
use addition::add::add_steps;
use changes::tags::Relation;
use lending::Answer;
use sparse::CUTOFF;
use sparse::tables::{Tables, TablesMut};

// The tests passed: "required-free equality of the variable with 0, stored suggestion 0.0"
fn add_edit_known(
    tables: &Tables,
    room: &mut TablesMut,
    n: u32,
    strength: f64,
    budget: u32,
) -> Answer
    requires entered { Entered (lent tables.now) (held room.old) }
    requires bytes_value { add_edit_refusal (cutoff_in tables.now.reals.now) n (clip strength) tables.now.words.now tables.now.bytes.now ≡ 0 }
    ensures does { Done (add_edit n strength budget) result (lent tables.now) (held room.new) }
    ensures same { Same room.old room.new }
{
    let before = stored_mark(tables.words);
    let held = rows::strength::clip(strength);
    let p = refusals::edit_pack(n);
    let relation = Relation::Equal(held);
    let a = match add_steps(room, p, 0.0, relation, budget, before) {
        Ok(a) => a,
        Err(e) => return refused(e),
    };
    close(room.words, a.went.wrote);
    crate::bringing::with_edit(tables, room, n as u64, held, a.marker, a.other);
    accepted(a.went)
}

// "Add edit: 18, 6, 7, 10, 9, 11."
pub fn add_edit(tables: &Tables, room: &mut TablesMut, n: u32, strength: f64, budget: u32) -> Answer
    requires { Entered (lent tables.now) (held room.old) }
    ensures does { Done (add_edit n strength budget) result (lent tables.now) (held room.new) }
    ensures same { Same room.old room.new }
{
    let held = rows::strength::clip(strength);
    if let Err(why) = refusals::add_edit_tests(
        tables.words,
        tables.bytes,
        tables.reals[CUTOFF],
        n,
        held,
    ) {
        return refused_by_test(tables.words, why);
    }
    add_edit_known(tables, room, n, strength, budget)
}
