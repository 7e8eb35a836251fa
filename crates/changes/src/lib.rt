// A changing call with its inputs but the budget, by value.
#![tactic(auto)]

pub mod tags;
pub mod terms;

use crate::tags::Relation;

// A number first: the constraint's, or of an edit its variable's; an add's group before it. An add's terms come beside it.
#[derive(Clone, Copy)]
pub enum Change {
    // the group, the number, the constant, the relation
    Add(u16, u32, f64, Relation),
    Remove(u32),
    // the group
    Drop(u16),
    // the strength
    AddEdit(u32, f64),
    RemoveEdit(u32),
    // the suggestion
    Suggest(u32, f64),
}
