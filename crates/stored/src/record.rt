// The edit record: an edit's two tag symbols and its last suggestion, by value.
ghost use Rattle.std.specs.Prelude.{◌≡◌, cond, ◌<◌};
ghost use Rattle.sparse.specs.Places.{most_constraints};
ghost use Rattle.stored.specs.Suggested.{edit_record_at, with_suggestion};

use sparse::{Bytes, Reals};

// Symbols by their places; 0 is no other symbol.
#[derive(Clone, Copy)]
pub struct EditRecord {
    pub marker: u8,
    pub other: u8,
    pub suggestion: f64,
}

// The record of the j-th edit.
pub fn edit_record(bytes: &Bytes, reals: &Reals, j: usize) -> EditRecord
    requires { j < most_constraints }
    ensures { result ≡ edit_record_at j bytes.now reals.now }
{
    EditRecord {
        marker: bytes[sparse::EDIT_MARKERS + j],
        other: bytes[sparse::EDIT_OTHERS + j],
        suggestion: reals[sparse::SUGGESTIONS + j],
    }
}

// "returned changed only when the suggestion is accepted"
pub fn suggested_if(accepted: bool, r: EditRecord, new: f64) -> EditRecord
    ensures { result ≡ cond accepted (with_suggestion new r) r }
{
    if accepted {
        return EditRecord {
            suggestion: new,
            ..r
        };
    }
    r
}
