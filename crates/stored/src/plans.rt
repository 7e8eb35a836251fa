// The plans by which a call's records move.
ghost use Rattle.std.specs.Prelude.{◌≤◌};
ghost use Rattle.sparse.specs.Places.{most_constraints, most_terms};
ghost use Rattle.stored.specs.Parts.{source_size, target_size};

use crate::parts::Plan;

// Of the constraints, of their terms and of the edits: the records of each fit its places, before and afterwards.
#[derive(Clone, Copy)]
pub struct Plans {
    pub constraints: Plan,
    pub terms: Plan,
    pub edits: Plan,
    ghost constraints_before: { source_size constraints ≤ most_constraints },
    ghost constraints_after: { target_size constraints ≤ most_constraints },
    ghost terms_before: { source_size terms ≤ most_terms },
    ghost terms_after: { target_size terms ≤ most_terms },
    ghost edits_before: { source_size edits ≤ most_constraints },
    ghost edits_after: { target_size edits ≤ most_constraints },
}
