// One row of the table: numbers and strengths, what a step wrote, and the row's operations.
#![tactic(auto)]

pub mod cell;
pub mod choose;
pub mod number;
pub mod places;
pub mod row;
pub mod strength;
