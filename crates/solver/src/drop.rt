// Drop: "Dropping a group removes its constraints by ascending number, all or none, under one budget."
ghost use Rattle.std.specs.Prelude.{◌≡◌, true, ◌≤◌};
ghost use Rattle.std.proofs.Math.Option.{none};
ghost use Rattle.steps.specs.Tests.{first_refusal, group_of, drop_tests};
ghost use Rattle.steps.specs.Calls.{drop_group};
ghost use Rattle.keeps.specs.Groups.{Removable};
ghost use Rattle.sparse.specs.Sparse.{read};
ghost use Rattle.sparse_test.specs.Reads.{reads};
ghost use Rattle.refusals.specs.Refusals.{constraints_in, group_in};
ghost use Rattle.lending.specs.Entered.{Entered};
ghost use Rattle.solver.specs.Concluding.{Done};
ghost use Rattle.solver.specs.Dropping.{dropping};
ghost use Rattle.solver.specs.Dropped.{Went};
ghost use Rattle.sparse.specs.Tables.{held, lent, Same};

use crate::again::{bring_all, remove_again};
use crate::begin::refused_by_test;
use lending::Answer;
use sparse::tables::{Tables, TablesMut};

// The group's first constraint goes, with what is left of the budget.
fn drop_first(room: &mut TablesMut, g: u16, pivots: u32, budget: u32) -> Answer
    requires values_value { reads (held room.old) ≡ true }
    requires g_value { group_in room.old.words.now (constraints_in room.old.words.now) g ≡ true }
    requires pivots_le_budget { pivots ≤ budget }
    requires removable { Removable (group_of g (read (held room.old)).constraints) (read (held room.old)) }
    ensures does { Went g budget pivots result (held room.old) (held room.new) }
    ensures same { Same room.old room.new }
{
    let j = refusals::group_place(room.words, g);
    let n = room.words[sparse::CONSTRAINT_NUMBERS + j] as u32;
    let a = remove_again(room, n, budget - pivots);
    Answer {
        number: a.number,
        pivots: pivots + a.pivots,
        whole: a.whole,
    }
}

// The whole removals one after the other, in a room that holds the state. The drop's tests passed, so that each of them finds room for its gone entries.
fn drop_all(room: &mut TablesMut, g: u16, budget: u32) -> Answer
    requires values_value { reads (held room.old) ≡ true }
    requires values_value_2 { first_refusal (drop_tests g (read (held room.old))) ≡ none }
    ensures does { Done (dropping g budget) result (held room.old) (held room.new) }
    ensures same { Same room.old room.new }
{
    let mut pivots = 0;
    while refusals::group_lives(room.words, g) {
        let a = drop_first(room, g, pivots, budget);
        // An `Answer` is what C reads: a number, 0 where it is accepted.
        if a.number != 0 {
            return a;
        }
        pivots = a.pivots;
    }
    Answer {
        number: 0,
        pivots,
        whole: room.words[sparse::WHOLE] == 1,
    }
}

// "Drop: 18, 26, 27, 25."
pub fn drop(tables: &Tables, room: &mut TablesMut, g: u16, budget: u32) -> Answer
    requires { Entered (lent tables.now) (held room.old) }
    ensures does { Done (drop_group g budget) result (lent tables.now) (held room.new) }
    ensures same { Same room.old room.new }
{
    if let Err(why) = refusals::drop_tests(tables.words, tables.bytes, tables.reals, g) {
        return refused_by_test(tables.words, why);
    }
    bring_all(tables, room);
    drop_all(room, g, budget)
}
