// The waist: the tableau over the five sparse tables, by symbol.
#![tactic(auto)]

pub mod artificial;
pub mod basis;
pub mod choices;
pub mod columns;
pub mod ending;
pub mod holding;
pub mod kinds;
pub mod looks;
pub mod marker;
pub mod merging;
pub mod moves;
pub mod objective;
pub mod pivoting;
pub mod ratios;
pub mod spots;
pub mod subject;
pub mod substituting;
pub mod substitution;
pub mod symbols;
