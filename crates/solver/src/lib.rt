// The one changing call over lent sparse tables: the tables are tested, their tableau and variables copied into the working room, the steps run there, an accepted call's state goes back with the records, the room is cleared. A suggestion leaves the records where they stand.
#![tactic(auto)]

pub mod add;
pub mod add_edit;
pub mod again;
pub mod back;
pub mod begin;
pub mod bringing;
pub mod drop;
pub mod looks;
pub mod numbers;
pub mod remove;
pub mod remove_edit;
pub mod suggest;

ghost use Rattle.std.specs.Prelude.{◌≡◌, true, eqb};
ghost use Rattle.laws.specs.Given.{Then};
ghost use Rattle.steps.specs.Changing.{made};
ghost use Rattle.sparse_test.specs.Reads.{reads};
ghost use Rattle.lending.specs.sparse_copy.Over.{cleared};
ghost use Rattle.lending.specs.Lending.{answer_of, called, call_of};
ghost use Rattle.lending.specs.Entered.{Entered};
ghost use Rattle.changes.specs.Change.{changing_of};
ghost use Rattle.solver.specs.Concluding.{Done, DoneIf};
ghost use Rattle.sparse.specs.Tables.{held, lent, Same};

use changes::Change;
use changes::terms::Pack;
use lending::Answer;
use sparse::tables::{Tables, TablesMut};

// The call of the steps, in the working room alone.
fn change_in(tables: &Tables, room: &mut TablesMut, c: Change, p: Pack, budget: u32) -> Answer
    requires { Entered (lent tables.now) (held room.old) }
    ensures does { Done (made (changing_of c p budget)) result (lent tables.now) (held room.new) }
    ensures same { Same room.old room.new }
{
    match c {
        Change::Add(g, n, k, r) => add::add(tables, room, g, n, p, k, r, budget),
        Change::Remove(n) => remove::remove(tables, room, n, budget),
        Change::Drop(g) => drop::drop(tables, room, g, budget),
        Change::AddEdit(n, s) => add_edit::add_edit(tables, room, n, s, budget),
        Change::RemoveEdit(n) => remove_edit::remove_edit(tables, room, n, budget),
        Change::Suggest(n, x) => suggest::suggest(tables, room, n, x, budget),
    }
}

fn change_if(
    ok: bool,
    tables: &Tables,
    room: &mut TablesMut,
    c: Change,
    p: Pack,
    budget: u32,
) -> Answer
    requires { Then ok (Entered (lent tables.now) (held room.old)) }
    ensures does { DoneIf ok (made (changing_of c p budget)) result (lent tables.now) (held room.new) }
    ensures same { Same room.old room.new }
{
    if !ok {
        return lending::refuse18();
    }
    change_in(tables, room, c, p, budget)
}

// Tested, made in the room, put back: every change but a suggestion.
fn change_whole(
    tables: &mut TablesMut,
    room: &mut TablesMut,
    c: Change,
    p: Pack,
    budget: u16,
) -> Answer
    ensures values_value { called (answer_of result) (held tables.new) ≡ call_of (made (changing_of c p budget)) (held room.old) (held tables.old) }
    ensures wvalues_value { held room.new ≡ cleared (held room.old) }
    ensures same_tables { Same tables.old tables.new }
    ensures same_room { Same room.old room.new }
{
    let ok = lending::enter(&tables.lend(), room);
    let a = change_if(ok, &tables.lend(), room, c, p, budget as u32);
    lending::leave(ok & (a.number == 0), tables, room);
    a
}

// p is read by an add alone, whatever it holds: the call is that of the list that it stands for.
pub fn change(
    tables: &mut TablesMut,
    room: &mut TablesMut,
    c: Change,
    p: Pack,
    budget: u16,
) -> Answer
    ensures values_value { called (answer_of result) (held tables.new) ≡ call_of (made (changing_of c p budget)) (held room.old) (held tables.old) }
    ensures wvalues_value { held room.new ≡ cleared (held room.old) }
    ensures same_tables { Same tables.old tables.new }
    ensures same_room { Same room.old room.new }
{
    match c {
        Change::Suggest(n, x) => back::suggest_tested(tables, room, n, x, budget),
        _ => change_whole(tables, room, c, p, budget),
    }
}

// The second door, for tables that are known to read as a state and that nobody else writes: no test, nothing put back, no room cleared. An accepted call leaves its state in the room, which reads as one and changes places with the tables; a refused one leaves the tables alone, and the room with no promise.
pub fn change_held(tables: &Tables, room: &mut TablesMut, c: Change, p: Pack, budget: u16) -> Answer
    requires { reads (lent tables.now) ≡ true }
    ensures done { Done (made (changing_of c p budget)) result (lent tables.now) (held room.new) }
    ensures then { Then (eqb result.number 0) (reads (held room.new) ≡ true) }
    ensures same { Same room.old room.new }
{
    numbers::are_typed(c, p, budget);
    lending::enter_held(tables, room);
    let a = change_in(tables, room, c, p, budget as u32);
    room.long();
    a
}
