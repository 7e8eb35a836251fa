// The variables in the sparse tables, by ascending number: found, kept, their uses counted, one use less, gone.
#![tactic(auto)]

pub mod found;
pub mod gone;
pub mod kept;
pub mod less;
