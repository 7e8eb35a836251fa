// The places of the lent tables. specs/Layout.antt says what stands there; what else this crate says stands in specs/.
#![tactic(auto)]

pub mod cells;

// ---- lengths of the tables
pub const HEAD_SIZE: usize = 196;

// "16 terms in a constraint"
pub const TERM_ROOM: usize = 16;

pub const ITEMS_SIZE: usize = 128;

pub const ROWS_SIZE: usize = 51;

// ---- in the head: the next id and the tableau's counts, then the records' counts and the flags; place 3 holds nothing
pub const NEXT_ID: usize = 0;

pub const SYMBOL_COUNT: usize = 1;

pub const ROW_COUNT: usize = 2;

pub const HEADING_END: usize = 3;

pub const VARIABLE_COUNT: usize = 4;

pub const CONSTRAINT_COUNT: usize = 5;

pub const EDIT_COUNT: usize = 6;

pub const SHOULD_CLEAR: usize = 7;

pub const WHOLE: usize = 8;

pub const RECORD_COUNTS_END: usize = 9;

// ---- in the head: the first symbol, the first row's symbol
pub const SYMBOLS: usize = 16;

pub const ROWS: usize = 146;

// ---- one place before each, for walks that count from 1
pub const BEFORE_SYMBOLS: usize = 15;

pub const BEFORE_ROWS: usize = 145;

// ---- in names and reals: the first record of each kind
pub const VARIABLES: usize = 0;

pub const CONSTRAINTS: usize = 32;

pub const EDITS: usize = 80;

// ---- in a row of names: of a variable; of a constraint or an edit, by its tag; a constraint's terms
pub const NUMBER: usize = 0;

pub const SYMBOL: usize = 1;

pub const USES: usize = 2;

pub const CHANGED: usize = 3;

pub const MARKER: usize = 1;

pub const OTHER: usize = 2;

pub const TERM_COUNT: usize = 3;

pub const RELATION_KIND: usize = 4;

pub const TERMS: usize = 5;

// ---- in a row of reals: of a variable; of a constraint or an edit; of a constraint; of an edit
pub const OLD_VALUE: usize = 0;

pub const STRENGTH: usize = 0;

pub const CONSTANT: usize = 1;

pub const COEFFICIENTS: usize = 2;

pub const SUGGESTION: usize = 1;

// ---- in rows: the objective, and the last, where an add's artificial objective stands
pub const OBJECTIVE: usize = 0;

pub const ARTIFICIAL: usize = 50;
