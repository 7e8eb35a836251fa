// The stored constraints and edits of sparse tables, as a call ends: the lent tables' records come over into the working room, renamed by the places there.
#![tactic(auto)]

pub mod carry;
pub mod moving;
pub mod new;
pub mod parts;
pub mod places;
pub mod plans;
pub mod record;
pub mod records;
