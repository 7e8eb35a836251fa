// Add's steps 1 to 3 over the sparse tables: the row of a constraint, built from its terms, with its tag.
pub mod create;
pub mod tag;
pub mod term;
