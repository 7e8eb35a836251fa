// The places of the sparse tables. specs/Sparse.antt says what stands there.
// A symbol is named by its place, from 1 by ascending id, and 0 is none; rows are counted from 1, and row 0's keys are a loose row's.
#![tactic(auto)]

pub mod lengths;
pub mod lookup;
pub mod refusal;
pub mod tables;

use layout::cells::CELL_ROOM;

// The five tables, as a function borrows them: arrays, whose lengths are their types'.
pub type Words = [u64; WORDS_SIZE];

pub type Keys = [u16; CELL_ROOM];

pub type Bytes = [u8; BYTES_SIZE];

pub type Reals = [f64; REALS_SIZE];

pub type Values = [f64; CELL_ROOM];

// The most rows that a call works on.
pub const MOST_ROWS: usize = 50;

pub const MOST_VARIABLES: usize = 32;

// Edits counted.
pub const MOST_CONSTRAINTS: usize = 48;

// Of all constraints.
pub const MOST_TERMS: usize = 768;

// "At most 32 gone entries wait."
pub const MOST_GONE: usize = 32;

// ---- words: the next id, counts and flags; then the symbols' ids, the variables' numbers and uses, the constraints' numbers and groups, the gone variables' numbers
pub const NEXT_ID: usize = 0;

pub const SYMBOL_COUNT: usize = 1;

pub const ROW_COUNT: usize = 2;

pub const CELL_COUNT: usize = 3;

pub const VARIABLE_COUNT: usize = 4;

pub const CONSTRAINT_COUNT: usize = 5;

pub const EDIT_COUNT: usize = 6;

pub const SHOULD_CLEAR: usize = 7;

pub const WHOLE: usize = 8;

pub const GONE_COUNT: usize = 9;

pub const IDS: usize = 15;

pub const VARIABLE_NUMBERS: usize = 146;

pub const VARIABLE_USES: usize = 178;

pub const CONSTRAINT_NUMBERS: usize = 210;

pub const CONSTRAINT_GROUPS: usize = 258;

pub const GONE_NUMBERS: usize = 306;

pub const WORDS_SIZE: usize = 338;

// ---- bytes: the symbols' kinds and the rows' symbols; the variables' symbols and changed flags; the constraints' marker, other, count of terms; the edits' variable, marker, other; the terms' variables; the constraints' relations
pub const KINDS: usize = 0;

pub const ROW_PLACES: usize = 136;

pub const VARIABLE_PLACES: usize = 192;

pub const CHANGED: usize = 224;

pub const CONSTRAINT_MARKERS: usize = 256;

pub const CONSTRAINT_OTHERS: usize = 304;

pub const TERM_COUNTS: usize = 352;

pub const EDIT_VARIABLES: usize = 400;

pub const EDIT_MARKERS: usize = 448;

pub const EDIT_OTHERS: usize = 496;

pub const TERMS: usize = 544;

// 0 for at most, 1 for equal, 2 for at least
pub const RELATIONS: usize = 1312;

pub const BYTES_SIZE: usize = 1360;

// ---- reals: the rows' constants, the variables' old values, the objective along the places, the cutoff of near zero; the constraints' strengths, the edits' strengths and suggestions; the terms' coefficients; the constraints' constants
pub const CONSTANTS: usize = 0;

pub const OLD_VALUES: usize = 56;

pub const OBJECTIVE: usize = 87;

pub const CUTOFF: usize = 219;

pub const CONSTRAINT_STRENGTHS: usize = 220;

pub const EDIT_STRENGTHS: usize = 268;

pub const SUGGESTIONS: usize = 316;

pub const COEFFICIENTS: usize = 364;

pub const CONSTRAINT_CONSTANTS: usize = 1132;

pub const REALS_SIZE: usize = 1180;
