// The public calls as a firmware makes them, and those behind the test, named held, for tables that safe Rust keeps private. What has a fixed size is lent as a whole, a list as a slice; an answer of more than one word goes into a lent place. The static library knobharbor_c has them under their C names.
#![tactic(auto)]

pub mod added;
pub mod asked;
pub mod changed;
pub mod dragged;
pub mod given;
pub mod handed;
pub mod held;
pub mod held_added;
pub mod held_asked;
pub mod lines;
pub mod places;
pub mod service;
pub mod showing;
pub mod together;
pub mod written;
