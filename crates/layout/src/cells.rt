// The cells of all rows as one ascending list of keys, row * ROW_SPAN + place, with their values beside them.
pub mod column;
pub mod edges;
pub mod row;
pub mod search;
pub mod shift;
pub mod slide;
pub mod spots;

// How far the keys of one row lie from those of the next: a place is below it.
pub const ROW_SPAN: u16 = 256;

// A table by place has an entry for each.
pub const PLACE_ROOM: usize = 256;

// Rows are below this one, so that a row after each has keys.
pub const TOP_ROW: u8 = 255;

// Where the keys of the rows end.
pub const KEYS_END: u16 = 65280;

// Room for all cells that the full table could hold, 50 rows of 129, and for one row more, laid down before the old one goes.
pub const CELL_ROOM: usize = 6579;

// A dense row: place 0 is free, then a place for each of 129 symbols.
pub const ROW_ROOM: usize = 130;

// The last place of a dense row.
pub const LAST_PLACE: usize = 129;

// Rows, and the line after the last, are below this one.
pub const LINES_ROOM: usize = 64;
