// Add.
ghost use Rattle.std.specs.Prelude.{◌≡◌};
ghost use Rattle.steps.specs.State.{strength_of};
ghost use Rattle.steps.specs.Calls.{add};
ghost use Rattle.changes.specs.tags.Tags.{relation_of};
ghost use Rattle.changes.specs.terms.Terms.{terms_in, listed};
ghost use Rattle.refusals.specs.Refusals.{cutoff_in, add_refusal};
ghost use Rattle.solver.specs.Adding.{Packed, Adds};
ghost use Rattle.solver.specs.Concluding.{Done};
ghost use Rattle.lending.specs.Entered.{Entered};
ghost use Rattle.sparse.specs.Tables.{held, lent, Same};

use crate::begin::{accepted, close, refused, refused_by_test, stored_mark};
use addition::add::add_steps;
use addition::inputs::strength_of;
use changes::tags::Relation;
use changes::terms::Pack;
use lending::Answer;
use sparse::CUTOFF;
use sparse::tables::{Tables, TablesMut};

// The tests passed. What is said is said of every list that the pack is of.
fn add_known(
    tables: &Tables,
    room: &mut TablesMut,
    g: u16,
    n: u32,
    p: Pack,
    constant: f64,
    relation: Relation,
    budget: u32,
) -> Answer
    requires entered { Entered (lent tables.now) (held room.old) }
    requires packed { Packed p }
    requires words_value { add_refusal (cutoff_in tables.now.reals.now) g n p constant (strength_of (relation_of relation)) tables.now.words.now ≡ 0 }
    ensures does { Adds g n p constant (relation_of relation) budget result (lent tables.now) (held room.new) }
    ensures same { Same room.old room.new }
{
    let before = stored_mark(tables.words);
    let a = match add_steps(room, p, constant, relation, budget, before) {
        Ok(a) => a,
        Err(e) => return refused(e),
    };
    let strength = strength_of(relation);
    let kept = changes::terms::kept(tables.reals[CUTOFF], p);
    close(room.words, a.went.wrote);
    crate::bringing::with_constraint(
        tables, room, n, g, relation, strength, constant, a.marker, a.other, kept,
    );
    accepted(a.went)
}

// "Add: 18, 26, 1, 2, 3, 4, 10, 9, 11." The terms come as any pack: the call is that of the list that it stands for.
pub fn add(
    tables: &Tables,
    room: &mut TablesMut,
    g: u16,
    n: u32,
    p: Pack,
    constant: f64,
    relation: Relation,
    budget: u32,
) -> Answer
    requires { Entered (lent tables.now) (held room.old) }
    ensures does { Done (add g n (terms_in (listed p)) constant (relation_of relation) budget) result (lent tables.now) (held room.new) }
    ensures same { Same room.old room.new }
{
    let q = changes::terms::proper(p);
    let strength = strength_of(relation);
    if let Err(why) = refusals::add_tests(
        tables.words,
        tables.reals[CUTOFF],
        g,
        n,
        q,
        constant,
        strength,
    ) {
        return refused_by_test(tables.words, why);
    }
    add_known(tables, room, g, n, q, constant, relation, budget)
}
