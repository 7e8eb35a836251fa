// A constraint that was read from a line of text, added to the solver.
pub mod add;
pub mod pack;
