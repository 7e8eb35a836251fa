// One symbol substituted in the sparse tables, by the row that it is solved for.
pub mod loose;
pub mod notes;
pub mod objective;
pub mod onepass;
