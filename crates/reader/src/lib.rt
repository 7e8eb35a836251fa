// T-01: one line of text read into a constraint.
#![tactic(auto)]

pub mod answers;
pub mod fault;
pub mod heads;
pub mod parts;
pub mod scan;
pub mod second;
pub mod sides;
pub mod sums;
