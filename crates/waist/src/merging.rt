// A pivot's row, loose, merged into another row's run of cells.
pub mod merge;
pub mod row;
pub mod run;
