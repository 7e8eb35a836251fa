// Add's steps, one to seven.
ghost use Rattle.std.specs.Prelude.{◌≡◌, false, ◌≤◌, IfOk, replicate};
ghost use Rattle.steps.specs.Number.{zero64};
ghost use Rattle.steps.specs.Add.{add_steps};
ghost use Rattle.rows.specs.Marks.{mark_of};
ghost use Rattle.layout.specs.cells.Names.{row_room};
ghost use Rattle.sparse.specs.Sparse.{symbol_count};
ghost use Rattle.waist.specs.Working.{work_of};
ghost use Rattle.waist.specs.Standing.{Standing};
ghost use Rattle.changes.specs.tags.Tags.{relation_of};
ghost use Rattle.changes.specs.terms.Terms.{terms_of};
ghost use Rattle.addition.specs.creation.Created.{Opening, Spare};
ghost use Rattle.addition.specs.Whole.{added_of};
ghost use Rattle.sparse.specs.Tables.{held, Same};

use crate::creation::create::create_row;
use crate::inputs::mark_inputs;
use crate::row::add_row;
use changes::tags::Relation;
use changes::terms::Pack;
use layout::cells::ROW_ROOM;
use rows::number::Wrote;
use sparse::tables::TablesMut;
use waist::ending::{Refused, Went};

// What was made, and the places of the constraint's symbols, other 0 if there is none.
#[derive(Clone, Copy)]
pub struct Added {
    pub went: Went,
    pub marker: u8,
    pub other: u8,
}

// A row that is yet to be built: its content plays no part.
fn zero_row() -> [f64; ROW_ROOM]
    ensures { result ≡ replicate row_room zero64 }
{
    [0.0; ROW_ROOM]
}

// The seven steps, the last of which is: "Optimise the objective."
pub fn add_steps(
    room: &mut TablesMut,
    p: Pack,
    constant: f64,
    relation: Relation,
    budget: u32,
    before: Wrote,
) -> Result<Added, Refused>
    requires opening { Opening (mark_of before) (terms_of p) constant (held room.old) }
    requires spare { Spare (held room.old) }
    ensures values_value { added_of result (held room.new) ≡ add_steps budget (terms_of p) constant (relation_of relation) (work_of false (mark_of before) 0 (held room.old)) }
    ensures goes { IfOk result (λ a. Standing false (mark_of a.went.wrote) (held room.new)) }
    ensures then { IfOk result (λ a. (1 ≤ a.marker) × (a.marker ≤ symbol_count (held room.new)) × (a.other ≤ symbol_count (held room.new))) }
    ensures same { Same room.old room.new }
{
    let first = mark_inputs(p, constant, relation, before);
    let mut row = zero_row();
    let made = create_row(
        room.words,
        room.keys,
        room.bytes,
        room.reals,
        room.values,
        &mut row,
        p,
        constant,
        relation,
        first,
    );
    let marker = made.marker;
    let other = made.other;
    let went = add_row(room, &mut row, marker, other, budget, made.wrote)?;
    Ok(Added {
        went,
        marker,
        other,
    })
}
