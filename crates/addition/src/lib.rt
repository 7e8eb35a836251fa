// Add's steps over the sparse tables, one to seven.
#![tactic(auto)]

pub mod add;
pub mod creation;
pub mod inputs;
pub mod row;
pub mod subject;
pub mod temporary;
