// The shell of every changing call over sparse tables: the lent tables are tested, their tableau and variables copied into the working room, the steps run there, an accepted call's state goes back, the room is cleared. And reset.
#![tactic(auto)]

ghost use Rattle.std.specs.Prelude.{◌≡◌, true, cond};
ghost use Rattle.laws.specs.Given.{Then};
ghost use Rattle.sparse.specs.Form.{Counts};
ghost use Rattle.sparse.specs.Fits.{Lengths};
ghost use Rattle.sparse.specs.Copy.{put_over};
ghost use Rattle.sparse_test.specs.Reads.{reads};
ghost use Rattle.lending.specs.sparse_copy.Over.{tables};
ghost use Rattle.lending.specs.Lending.{answer_of, called, refused18};
ghost use Rattle.lending.specs.Entered.{zero_room, Entered};
ghost use Rattle.lending.specs.Reset.{refused24, reset_of, reset_words};
ghost use Rattle.sparse.specs.Tables.{held, lent, Same};

pub mod clearing;
pub mod entering;
pub mod room;
pub mod sparse_copy;

use sparse::Words;
use sparse::refusal::Refusal;
use sparse::tables::{Tables, TablesMut};

// "Each changing call answers: accepted or a number below, pivots made, whole mark." 0 is accepted.
#[repr(C)]
#[derive(Clone, Copy)]
pub struct Answer {
    pub number: u32,
    pub pivots: u32,
    pub whole: bool,
}

pub fn refuse18() -> Answer
    ensures { answer_of result ≡ refused18 }
{
    Answer {
        number: Refusal::NoState.number(),
        pivots: 0,
        whole: false,
    }
}

// The tables are known to read as a state: the room, whatever it held, holds their tableau and variables.
pub fn enter_held(tables: &Tables, room: &mut TablesMut)
    requires { reads (lent tables.now) ≡ true }
    ensures does { Entered (lent tables.now) (held room.new) }
    ensures same { Same room.old room.new }
{
    tables.long();
    room.long();
    entering::put_bare(room, tables);
}

// The tables read as a state: then the room holds their tableau and variables.
pub fn enter(tables: &Tables, room: &mut TablesMut) -> bool
    ensures value { result ≡ reads (lent tables.now) }
    ensures then { Then result (Entered (lent tables.now) (held room.new)) }
    ensures lengths { Lengths (held room.old) }
    ensures same { Same room.old room.new }
{
    room.long();
    if !sparse_test::reads_as_state(tables) {
        return false;
    }
    enter_held(tables, room);
    true
}

fn put_back_if(on: bool, tables: &mut TablesMut, room: &Tables)
    requires { Then on (Counts (lent room.now)) }
    ensures does { held tables.new ≡ cond on (put_over (lent room.now) (held tables.old)) (held tables.old) }
    ensures same { Same tables.old tables.new }
{
    if on {
        let c = room.words[sparse::CONSTRAINT_COUNT] as usize;
        let m = sparse_test::term_count(room.bytes, c);
        crate::sparse_copy::put_over(tables, room, m);
    }
}

// The room's state goes back if the call is accepted; the room is cleared either way.
pub fn leave(on: bool, tables: &mut TablesMut, room: &mut TablesMut)
    requires { Then on (Counts (held room.old)) }
    ensures values_after { held tables.new ≡ cond on (put_over (held room.old) (held tables.old)) (held tables.old) }
    ensures wvalues_after { held room.new ≡ zero_room }
    ensures same_tables { Same tables.old tables.new }
    ensures same_room { Same room.old room.new }
{
    put_back_if(on, tables, &room.lend());
    room::clear(room);
}

fn reset_words(words: &mut Words)
    ensures { words.new ≡ reset_words words.old }
{
    words[sparse::NEXT_ID] = 1;
    words[sparse::SYMBOL_COUNT] = 0;
    words[sparse::ROW_COUNT] = 0;
    words[sparse::CELL_COUNT] = 0;
    words[sparse::VARIABLE_COUNT] = 0;
    words[sparse::CONSTRAINT_COUNT] = 0;
    words[sparse::EDIT_COUNT] = 0;
    words[sparse::SHOULD_CLEAR] = 0;
    words[sparse::WHOLE] = 1;
    words[sparse::GONE_COUNT] = 0;
}

// Reset takes any tables, so they need not read as a state: only then is there a mark.
fn refuse24(tables: &Tables) -> Answer
    ensures { answer_of result ≡ refused24 (lent tables.now) }
{
    let reads = sparse_test::reads_as_state(tables);
    Answer {
        number: Refusal::CutoffOutside.number(),
        pivots: 0,
        whole: reads & (tables.words[sparse::WHOLE] == 1),
    }
}

// "Reset refuses wrong lengths (18) and a cutoff outside the range (24), in that order; nothing else." These types rule out 18.
pub fn reset(tables: &mut TablesMut, cutoff: f64) -> Answer
    ensures does { called (answer_of result) (held tables.new) ≡ reset_of cutoff (held tables.old) }
    ensures same { Same tables.old tables.new }
{
    if !sparse_test::records::cutoff_fits(cutoff) {
        return refuse24(&tables.lend());
    }
    reset_words(tables.words);
    tables.reals[sparse::CUTOFF] = cutoff;
    Answer {
        number: 0,
        pivots: 0,
        whole: true,
    }
}
