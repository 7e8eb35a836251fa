// A suggestion: the constants shifted by new minus stored, then the dual pass.
ghost use Rattle.std.specs.Prelude.{◌≡◌, false, ◌≤◌, get_or};
ghost use Rattle.steps.specs.Edit.{suggest_steps};
ghost use Rattle.rows.specs.Marks.{mark_of};
ghost use Rattle.sparse.specs.Places.{symbol_count_at};
ghost use Rattle.waist.specs.Working.{work_of};
ghost use Rattle.waist.specs.Tags.{tag_at};
ghost use Rattle.waist.specs.Standing.{Standing};
ghost use Rattle.waist.specs.Ending.{outcome_of, Goes, ended_of};
ghost use Rattle.optimising.specs.suggestion.Suggested.{edit_by, suggested_mark};
ghost use Rattle.sparse.specs.Tables.{held, Same};

use crate::dual_optimise;
use crate::suggestion::shifting::shift_constants;
use rows::number::{CONSTANT_BOUND, Wrote, joined, whole_within};
use sparse::tables::TablesMut;
use waist::ending::{Refused, Went, check_finite};

// The suggestion is an input, so it is marked.
fn mark_suggestion(new: f64, before: Wrote) -> Wrote
    ensures { mark_of result ≡ suggested_mark new (mark_of before) }
{
    let whole = whole_within(CONSTANT_BOUND, new);
    let given = Wrote {
        finite: true,
        whole,
    };
    joined(before, given)
}

// "Suggest: delta is new minus stored.": by the edit's two places, 0 no other, and its last suggestion.
pub fn suggest_steps(
    room: &mut TablesMut,
    marker: u8,
    other: u8,
    stored: f64,
    new: f64,
    budget: u32,
    before: Wrote,
) -> Result<Went, Refused>
    requires standing { Standing false (mark_of before) (held room.old) }
    requires le_marker { 1 ≤ marker }
    requires marker_bound { marker ≤ get_or room.old.words.now symbol_count_at 0 }
    requires other_bound { other ≤ get_or room.old.words.now symbol_count_at 0 }
    ensures values_value { outcome_of false (ended_of result) (held room.new) ≡ suggest_steps budget (edit_by (tag_at (held room.old) marker other) stored) new (work_of false (mark_of before) 0 (held room.old)) }
    ensures goes { Goes false (ended_of result) (held room.new) }
    ensures same { Same room.old room.new }
{
    let given = mark_suggestion(new, before);
    let wrote = shift_constants(
        room.words,
        room.keys,
        room.bytes,
        room.reals,
        room.values,
        marker,
        other,
        new - stored,
        given,
    );
    let checked = check_finite(0, wrote)?;
    dual_optimise(room, budget, checked.pivots, checked.wrote)
}
