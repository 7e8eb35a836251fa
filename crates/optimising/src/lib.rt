// The two passes over the sparse tables, with a budget of pivots.
#![tactic(auto)]

pub mod suggestion;
pub mod turn;

ghost use Rattle.std.specs.Prelude.{◌≡◌, false, ◌-◌, ◌≤◌, get_or};
ghost use Rattle.steps.specs.Optimise as steps;
ghost use Rattle.rows.specs.Marks.{mark_of};
ghost use Rattle.sparse.specs.Places.{symbol_count_at, row_count_at};
ghost use Rattle.waist.specs.Working.{work_of};
ghost use Rattle.waist.specs.Dropping.{Free};
ghost use Rattle.waist.specs.Standing.{Standing};
ghost use Rattle.waist.specs.Ending.{outcome_of, Goes, ended_of};
ghost use Rattle.waist.specs.Choosing.{goal_of};
ghost use Rattle.optimising.specs.Turn.{Turned, turn_of, went_of};
ghost use Rattle.optimising.specs.Chosen.{TurnedOn, optimise_on};
ghost use Rattle.sparse.specs.Tables.{held, Same};

use crate::turn::counted;
use rows::number::Wrote;
use sparse::refusal::Refusal;
use sparse::tables::TablesMut;
use waist::choices::{
    get_dual_entering_symbol, get_dual_leaving_row, get_goal_entering_symbol, get_leaving_row,
};
use waist::ending::{Refused, Went};
use waist::holding::pivot_on;

// The turn of a pass that chose row i and place p. "14 is tested after 15 and 16."
fn pivot_within(
    art: bool,
    room: &mut TablesMut,
    i: u8,
    p: u8,
    budget: u32,
    pivots: u32,
    before: Wrote,
) -> Result<Went, Refused>
    requires standing { Standing art (mark_of before) (held room.old) }
    requires le_i { 1 ≤ i }
    requires i_bound { i ≤ get_or room.old.words.now row_count_at 0 }
    requires le_p { 1 ≤ p }
    requires p_bound { p ≤ get_or room.old.words.now symbol_count_at 0 }
    requires free { Free p (held room.old) }
    ensures does { TurnedOn art i p budget pivots before (held room.old) (went_of result) (held room.new) }
    ensures same { Same room.old room.new }
{
    if budget <= pivots {
        return Err(Refused {
            why: Refusal::BudgetUsed,
            pivots,
            wrote: before,
        });
    }
    let w = pivot_on(art, room, i, p, before);
    counted(pivots, w)
}

// None ends the pass.
fn optimise_turn(
    art: bool,
    room: &mut TablesMut,
    budget: u32,
    pivots: u32,
    before: Wrote,
) -> Result<Option<Went>, Refused>
    requires { Standing art (mark_of before) (held room.old) }
    ensures does { Turned art (optimise_on art) budget pivots before (held room.old) (turn_of pivots before result) (held room.new) }
    ensures same { Same room.old room.new }
{
    let f = get_goal_entering_symbol(art, &room.lend());
    let Some(p) = f else {
        return Ok(None);
    };
    let g = get_leaving_row(art, &room.lend(), p as u8);
    let Some(i) = g else {
        return Err(Refused {
            why: Refusal::NoLeavingRow,
            pivots,
            wrote: before,
        });
    };
    let went = pivot_within(art, room, i as u8, p as u8, budget, pivots, before)?;
    Ok(Some(went))
}

// "Optimise: entering is the first non-dummy with a cell below 0; none ends the pass. Leaving ..; pivot."
pub fn optimise(
    art: bool,
    room: &mut TablesMut,
    budget: u32,
    pivots: u32,
    before: Wrote,
) -> Result<Went, Refused>
    requires { Standing art (mark_of before) (held room.old) }
    ensures values_value { outcome_of art (ended_of result) (held room.new) ≡ steps.optimise (budget - pivots) (goal_of art) (work_of art (mark_of before) pivots (held room.old)) }
    ensures goes { Goes art (ended_of result) (held room.new) }
    ensures same { Same room.old room.new }
{
    let mut went = Went {
        pivots,
        wrote: before,
    };
    while let Some(next) = optimise_turn(art, room, budget, went.pivots, went.wrote)? {
        went = next;
    }
    Ok(went)
}

// None ends the pass.
fn dual_turn(
    room: &mut TablesMut,
    budget: u32,
    pivots: u32,
    before: Wrote,
) -> Result<Option<Went>, Refused>
    requires { Standing false (mark_of before) (held room.old) }
    ensures does { Turned false steps.dual_optimise budget pivots before (held room.old) (turn_of pivots before result) (held room.new) }
    ensures same { Same room.old room.new }
{
    let f = get_dual_leaving_row(room.words, room.bytes, room.reals);
    let Some(i) = f else {
        return Ok(None);
    };
    let g = get_dual_entering_symbol(&room.lend(), i as u8);
    let Some(p) = g else {
        return Err(Refused {
            why: Refusal::NoEnteringSymbol,
            pivots,
            wrote: before,
        });
    };
    let went = pivot_within(false, room, i as u8, p as u8, budget, pivots, before)?;
    Ok(Some(went))
}

// "Dual pass: leaving is the restricted row below 0 with the lowest id; none ends the pass. Entering ..; pivot."
pub fn dual_optimise(
    room: &mut TablesMut,
    budget: u32,
    pivots: u32,
    before: Wrote,
) -> Result<Went, Refused>
    requires { Standing false (mark_of before) (held room.old) }
    ensures values_value { outcome_of false (ended_of result) (held room.new) ≡ steps.dual_optimise (budget - pivots) (work_of false (mark_of before) pivots (held room.old)) }
    ensures goes { Goes false (ended_of result) (held room.new) }
    ensures same { Same room.old room.new }
{
    let mut went = Went {
        pivots,
        wrote: before,
    };
    while let Some(next) = dual_turn(room, budget, went.pivots, went.wrote)? {
        went = next;
    }
    Ok(went)
}
