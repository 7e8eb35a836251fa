// A suggestion over the sparse tables: the shift of the constants that it moves, and the suggestion itself.
pub mod shifting;
pub mod suggest;
