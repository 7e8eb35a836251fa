// Standard input cut into lines, and the answers written to standard output.
// A newline ends a line; what stands after the last newline is a line too unless it is empty. Answers are written at the
// end of each piece that was read, so that nobody who waits for one has to send more, and where the buffer fills up.
// (A run of its own beside `text::serving`: after a write that failed nothing more is written, as `flush` says.)
ghost use Rattle.std.specs.Prelude.{◌≡◌, ◌≤◌, length, take as front, IsTrue, IsFalse, IsErr};
ghost use Rattle.std.specs.Io.KnownBytes.{Appends};
ghost use Rattle.sparse.specs.Tables.{Same};

use crate::answers::answer_held;
use sparse::tables::TablesMut;
use std::io::{Read, Write};
use text::buffer::Out;
use text::duplex::Duplex;
use text::stream::keep_byte;
use text::writing::put_byte;

pub type Line = [u8; 4096];

// The bytes from `next` to `end` of the piece that was read last are still to be taken; `held` bytes of a line are kept, none
// of one that is too long, and it has ended if `whole`; `at` bytes of answers wait to be written. good: every write went through; more: nothing ended the input.
#[derive(Clone, Copy)]
pub struct Place {
    pub next: usize,
    pub end: usize,
    pub held: Option<usize>,
    pub whole: bool,
    pub at: usize,
    pub good: bool,
    pub more: bool,
}

pub fn begin() -> Place
    ensures at_bound { result.at ≤ 8192 }
    ensures end_bound { result.end ≤ 4096 }
{
    Place {
        next: 0,
        end: 0,
        held: Some(0),
        whole: false,
        at: 0,
        good: true,
        more: true,
    }
}

fn write_front<R, W: Write>(duplex: &mut Duplex<R, W>, out: &[u8], at: usize) -> bool
    requires { at ≤ length out.now }
    ensures ok { IsTrue result → Appends (W.contents duplex.old.output) (W.contents duplex.new.output) (front at out.now) }
    ensures err { IsFalse result → IsErr duplex.new.outcome }
{
    duplex.write(&out[..at])
}

// What waits is written; after a write that failed nothing more is, so that what was written is the answers' beginning.
pub fn flush<R, W: Write>(duplex: &mut Duplex<R, W>, out: &Out, p: Place) -> Place
    requires { p.at ≤ 8192 }
    ensures at_value { result.at ≡ 0 }
    ensures end_value { result.end ≡ p.end }
    ensures written { IsTrue result.good → Appends (W.contents duplex.old.output) (W.contents duplex.new.output) (front p.at out.now) }
{
    let mut q = p;
    q.at = 0;
    if p.good {
        let ok = write_front(duplex, out, p.at);
        q.good = ok;
        q.more = p.more & ok;
    }
    q
}

// What waits is written if there may be no room for another answer.
fn with_room<R, W: Write>(duplex: &mut Duplex<R, W>, out: &Out, p: Place) -> Place
    requires { p.at ≤ 8192 }
    ensures at_bound { result.at ≤ 5000 }
    ensures end_value { result.end ≡ p.end }
{
    if p.at <= 5000 {
        return p;
    }
    flush(duplex, out, p)
}

// The piece's bytes up to a newline or its end.
fn cut(piece: &Line, line: &mut Line, p: Place) -> Place
    requires { p.end ≤ 4096 }
    ensures at_value { result.at ≡ p.at }
    ensures end_bound { result.end ≤ 4096 }
{
    let mut q = p;
    while q.next < q.end && !q.whole {
        let i = q.next;
        let b = piece[i];
        q.next = i + 1;
        if b == 10 {
            q.whole = true;
        } else {
            q.held = keep_byte(line, q.held, b);
        }
    }
    q
}

// A read that fails ends the input, after which nothing more is read.
fn read<R: Read, W>(duplex: &mut Duplex<R, W>, piece: &mut Line, p: Place) -> Place
    ensures at_value { result.at ≡ p.at }
    ensures end_bound { result.end ≤ 4096 }
{
    let k = duplex.read(piece);
    let mut q = p;
    q.next = 0;
    q.end = k;
    q.more = k > 0;
    q.whole = (k == 0) & (p.held != Some(0));
    q
}

// On to the next line's end, or to the end of the piece; and if all of it was taken before, another piece is read.
pub fn take<R: Read, W: Write>(
    duplex: &mut Duplex<R, W>,
    piece: &mut Line,
    line: &mut Line,
    out: &Out,
    p: Place,
) -> Place
    requires at_bound { p.at ≤ 8192 }
    requires end_bound { p.end ≤ 4096 }
    ensures at_bound_2 { result.at ≤ 8192 }
    ensures end_bound_2 { result.end ≤ 4096 }
{
    if p.next < p.end {
        return cut(piece, line, p);
    }
    let q = flush(duplex, out, p);
    if !q.more {
        return q;
    }
    let r = read(duplex, piece, q);
    cut(piece, line, r)
}

// The line is answered if it has ended.
pub fn say<R, W: Write>(
    duplex: &mut Duplex<R, W>,
    p: Place,
    line: &Line,
    tables: &mut TablesMut,
    out: &mut Out,
) -> Place
    requires at_bound { p.at ≤ 8192 }
    requires end_bound { p.end ≤ 4096 }
    ensures at_bound_2 { result.at ≤ 8192 }
    ensures end_bound_2 { result.end ≤ 4096 }
    ensures same { Same tables.old tables.new }
{
    if !p.whole {
        return p;
    }
    let mut q = with_room(duplex, out, p);
    let next = answer_held(line, q.held, tables, out, q.at);
    q.at = put_byte(out, next, 10);
    q.held = Some(0);
    q.whole = false;
    q
}
