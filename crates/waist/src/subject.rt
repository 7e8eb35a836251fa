// Which symbol a new row, dense, is solved for.
ghost use Rattle.std.specs.Prelude.{◌≡◌, false, ◌&&◌, List, ℕ, ◌≤◌, Float, get_or};
ghost use Rattle.steps.specs.Number.{Mark, below_zero};
ghost use Rattle.steps.specs.Symbol.{is_pivotable};
ghost use Rattle.steps.specs.CreateRow.{choose_subject, all_dummies};
ghost use Rattle.rows.specs.Reading as dense;
ghost use Rattle.rows.specs.choose.Choose.{Within};
ghost use Rattle.sparse.specs.Places.{symbol_count_at};
ghost use Rattle.sparse.specs.Sparse.{symbol_at};
ghost use Rattle.layout.specs.cells.Names.{last_place};
ghost use Rattle.waist.specs.substituting.Named.{Named};
ghost use Rattle.waist.specs.Working.{sparse, work_of};
ghost use Rattle.waist.specs.Kinds.{kind_byte};
ghost use Rattle.waist.specs.Looks.{of_kind};
ghost use Rattle.waist.specs.Choices.{named};
ghost use Rattle.waist.specs.Tags.{tag_at};
ghost use Rattle.waist.specs.Subject.{negative_of, subject_of};

use crate::kinds::Kind;
use crate::looks::first_along;
use crate::substituting::notes::kind_at;
use layout::cells::ROW_ROOM;
use rows::choose::Want;
use sparse::{Bytes, Words};

fn negative_pivotable(kind: Kind, x: f64) -> bool
    ensures { result ≡ (is_pivotable (of_kind (kind_byte kind)) && below_zero x) }
{
    kind.is_pivotable() & (x < 0.0)
}

fn negative_tag(bytes: &Bytes, row: &[f64; ROW_ROOM], p: u8) -> Option<usize>
    requires { p ≤ last_place }
    ensures { result ≡ negative_of p bytes.now row.now }
{
    negative_pivotable(Kind::from(kind_at(bytes, p)), row[p as usize]).then_some(p as usize)
}

// "first External; else marker if slack or Error with negative cell; else other likewise"; 0 is no other.
fn subject_of(
    words: &Words,
    bytes: &Bytes,
    row: &[f64; ROW_ROOM],
    marker: u8,
    other: u8,
) -> Option<usize>
    requires symbol_count_at_bound { get_or words.now symbol_count_at 0 ≤ last_place }
    requires le_marker { 1 ≤ marker }
    requires marker_bound { marker ≤ get_or words.now symbol_count_at 0 }
    requires other_bound { other ≤ get_or words.now symbol_count_at 0 }
    ensures value { result ≡ subject_of marker other words.now bytes.now row.now }
    ensures within { Within (get_or words.now symbol_count_at 0) result }
{
    // With `or_else` each closure needs clauses of its own.
    let f = first_along(Want::External, false, words, bytes, row);
    let None = f else {
        return f;
    };
    let m = negative_tag(bytes, row, marker);
    let None = m else {
        return m;
    };
    if other == 0 {
        return None;
    }
    negative_tag(bytes, row, other)
}

// Whatever the other tables hold.
pub fn choose_subject(
    words: &Words,
    bytes: &Bytes,
    row: &[f64; ROW_ROOM],
    marker: u8,
    other: u8,
) -> Option<usize>
    requires named { Named words.now bytes.now }
    requires le_marker { 1 ≤ marker }
    requires marker_bound { marker ≤ get_or words.now symbol_count_at 0 }
    requires other_bound { other ≤ get_or words.now symbol_count_at 0 }
    ensures by_index { (k : List ℕ) (x y : List Float) (a : Mark) (v : ℕ) → choose_subject (record { work = work_of false a v (sparse words.now k bytes.now x y); row = dense.row_of (get_or words.now symbol_count_at 0) row.now; tag = tag_at (sparse words.now k bytes.now x y) marker other }) ≡ named (sparse words.now k bytes.now x y) result }
    ensures within { Within (get_or words.now symbol_count_at 0) result }
{
    subject_of(words, bytes, row, marker, other)
}

// "all cells are dummies"
pub fn all_dummies(words: &Words, bytes: &Bytes, row: &[f64; ROW_ROOM]) -> bool
    requires { Named words.now bytes.now }
    ensures { (k : List ℕ) (x y : List Float) (a : Mark) (v m o : ℕ) → result ≡ all_dummies (record { work = work_of false a v (sparse words.now k bytes.now x y); row = dense.row_of (get_or words.now symbol_count_at 0) row.now; tag = tag_at (sparse words.now k bytes.now x y) m o }) }
{
    first_along(Want::NonDummy, false, words, bytes, row).is_none()
}
