// A line answered: the text of the answer, into the lent buffer.
ghost use Rattle.std.specs.Prelude.{◌≡◌, ◌≤◌, length, take, Some};
ghost use Rattle.sparse.specs.Tables.{lent, held as sparse, Same};
ghost use Rattle.lending.specs.Lending.{called, answer_of, call_of};
ghost use Rattle.steps.specs.Changing.{made};
ghost use Rattle.changes.specs.Change.{changing_of};
ghost use Rattle.fetches.specs.Fetch.{fetch_of};
ghost use Rattle.text.specs.Answers.{Wrote};
ghost use Rattle.text.specs.Words.{words_of};
ghost use Rattle.text.specs.Format.{call_of as Format·callOf};
ghost use Rattle.text.specs.Lines.{line_of};
ghost use Rattle.text.specs.Stream.{held_in};
ghost use Rattle.text.specs.show_text.Show.{asks_for};
ghost use Rattle.session.specs.Said.{Spoken, fetch_said};
ghost use Rattle.session.specs.Calls.{room, reply_of, call_from, asked_text, held_reply};
ghost use Rattle.session.specs.Shows.{shown_reply, held_answer};

use changes::Change;
use changes::terms::Pack;
use fetches::shown::{LINE_REALS, LINE_WORDS};
use layout::TERM_ROOM;
use lending::Answer;
use sparse::tables::{Tables, TablesMut};
use sparse::{Bytes, Keys, Reals, Values, Words};
use text::buffer::Out;
use text::calls::{Call, Line, Query};
use text::writing;

// A change, in a working room of its own; p: the terms of an add.
fn change(tables: &mut TablesMut, c: Change, p: Pack, budget: u16) -> Answer
    ensures does { called (answer_of result) (sparse tables.new) ≡ call_of (made (changing_of c p budget)) room (sparse tables.old) }
    ensures same { Same tables.old tables.new }
{
    let mut w: Words = [0; sparse::WORDS_SIZE];
    let mut k: Keys = [0; layout::cells::CELL_ROOM];
    let mut b: Bytes = [0; sparse::BYTES_SIZE];
    let mut r: Reals = [0.0; sparse::REALS_SIZE];
    let mut v: Values = [0.0; layout::cells::CELL_ROOM];
    let mut room = TablesMut {
        words: &mut w,
        keys: &mut k,
        bytes: &mut b,
        reals: &mut r,
        values: &mut v,
    };
    solver::change(tables, &mut room, c, p, budget)
}

fn say_fetch(tables: &mut TablesMut, out: &mut Out, at: usize) -> usize
    requires { at ≤ 5000 }
    ensures spoken { Spoken (fetch_said (fetch_of (sparse tables.old))) out.old out.new at result (sparse tables.new) }
    ensures same { Same tables.old tables.new }
{
    let mut numbers: fetches::Numbers = [0; fetches::PLACES];
    let mut moved: fetches::Moved = [0.0; fetches::PLACES];
    let mut gone: fetches::Flags = [0; fetches::PLACES];
    let f = fetches::fetch_changes(
        tables.words,
        tables.keys,
        tables.bytes,
        tables.reals,
        tables.values,
        &mut numbers,
        &mut moved,
        &mut gone,
    );
    writing::put_fetch(out, at, &numbers, &moved, &gone, f.count)
}

fn ask(q: Query, tables: &Tables, out: &mut Out, at: usize) -> usize
    requires { at ≤ 5000 }
    ensures { Wrote out.old out.new at result (asked_text q (lent tables.now)) }
{
    match q {
        Query::Value(v) => {
            let x = sparse_test::asking::get_value(tables, v);
            writing::put_float(out, at, x)
        }
        Query::HasCon(c) => {
            let b = sparse_test::asking::has_constraint(tables, c);
            writing::put_flag(out, at, b)
        }
        Query::HasEdit(v) => {
            let b = sparse_test::asking::has_edit(tables, v);
            writing::put_flag(out, at, b)
        }
        Query::Create(a, b, c, k) => writing::put_float(
            out,
            at,
            rows::strength::create(a, b, c, k),
        ),
        Query::Clip(s) => writing::put_float(out, at, rows::strength::clip(s)),
    }
}

// "`show C`": the constraint as it was added.
fn say_shown(number: u32, tables: &Tables, out: &mut Out, at: usize) -> usize
    requires { at ≤ 5000 }
    ensures { Wrote out.old out.new at result (shown_reply number (lent tables.now)) }
{
    let mut w = [0u64; LINE_WORDS];
    let mut x = [0.0f64; LINE_REALS];
    let mut v = [0u32; TERM_ROOM];
    let mut k = [0.0f64; TERM_ROOM];
    fetches::shown::show(tables, number, &mut w, &mut x, &mut v, &mut k);
    text::show_text::answers::put_shown(out, at, &w, &x, &v, &k)
}

// p: the terms of an add.
fn answer(call: Call, p: Pack, tables: &mut TablesMut, out: &mut Out, at: usize) -> usize
    requires { at ≤ 5000 }
    ensures spoken { Spoken (reply_of (Some (call_from call p)) (sparse tables.old)) out.old out.new at result (sparse tables.new) }
    ensures same { Same tables.old tables.new }
{
    match call {
        Call::Reset(cutoff) => {
            let a = lending::reset(tables, cutoff);
            writing::put_answer(out, at, a.number, a.pivots, a.whole)
        }
        Call::Change(c, b) => {
            let a = change(tables, c, p, b);
            writing::put_answer(out, at, a.number, a.pivots, a.whole)
        }
        Call::Ask(q) => ask(q, &tables.lend(), out, at),
        Call::Fetch => say_fetch(tables, out, at),
    }
}

fn read_front(line: &[u8], held: usize) -> Option<Line>
    requires { held ≤ length line.now }
    ensures { result ≡ line_of (Format·callOf (words_of (take held line.now))) }
{
    text::reading::read_line(&line[..held])
}

// A call of the steps in the line of which `held` bytes were read: none if it was too long, with no number, or they are more than the buffer's.
fn answer_line(
    line: &[u8; 4096],
    held: Option<usize>,
    tables: &mut TablesMut,
    out: &mut Out,
    at: usize,
) -> usize
    requires { at ≤ 5000 }
    ensures spoken { Spoken (held_reply (held_in line.now held) (sparse tables.old)) out.old out.new at result (sparse tables.new) }
    ensures upper_bound { result ≤ 8000 }
    ensures same { Same tables.old tables.new }
{
    let Some(count) = held else {
        return writing::put_unread(out, at);
    };
    if 4096 < count {
        return writing::put_unread(out, at);
    }
    let Some(l) = read_front(line, count) else {
        return writing::put_unread(out, at);
    };
    answer(l.call, l.terms, tables, out, at)
}

fn show_front(line: &[u8], held: usize) -> Option<u32>
    requires { held ≤ length line.now }
    ensures { result ≡ asks_for (words_of (take held line.now)) }
{
    text::show_text::read_show(&line[..held])
}

// The line of which `held` bytes were read: no call if it was too long, with no number, or they are more than the buffer's.
pub fn answer_held(
    line: &[u8; 4096],
    held: Option<usize>,
    tables: &mut TablesMut,
    out: &mut Out,
    at: usize,
) -> usize
    requires { at ≤ 5000 }
    ensures spoken { Spoken (held_answer (held_in line.now held) (sparse tables.old)) out.old out.new at result (sparse tables.new) }
    ensures upper_bound { result ≤ 8000 }
    ensures same { Same tables.old tables.new }
{
    let Some(read) = held else {
        return answer_line(line, held, tables, out, at);
    };
    if 4096 < read {
        return answer_line(line, held, tables, out, at);
    }
    let Some(n) = show_front(line, read) else {
        return answer_line(line, held, tables, out, at);
    };
    say_shown(n, &tables.lend(), out, at)
}
