// A program's run: standard input is handed over as it comes, and the answers are written to standard output. They are written at the
// end of each piece that was read, so that nobody who waits for one has to send more, and where the buffer fills up.
// The session has a run of its own: after a write that failed it writes nothing more, where these programs write on.
ghost use Rattle.std.specs.Prelude.{◌≡◌, ◌<◌, ◌≤◌, length, take, IsOk};
ghost use Rattle.std.specs.Io.KnownBytes.{Appends};

use crate::buffer::Out;
use crate::duplex::Duplex;
use std::io::{Read, Write};

// How many bytes off the front of a piece were taken, and what they end that is to be answered.
#[derive(Clone, Copy)]
pub struct Taken<A> {
    pub answer: Option<A>,
    pub taken: usize,
}

pub trait Program {
    type Answer: Copy;

    // A step takes a byte at least.
    fn take(&mut self, piece: &[u8]) -> Taken<Self::Answer>
        requires { 0 < length piece.now }
        ensures byte { 0 < result.taken }
        ensures within { result.taken ≤ length piece.now };

    // The input's end.
    fn close(&mut self) -> Option<Self::Answer>;

    // An answer and its newline.
    fn put(&mut self, answer: Self::Answer, out: &mut Out, at: usize) -> usize
        requires { at ≤ 7000 }
        ensures { result ≤ 8192 };
}

// How many bytes of the buffer wait to be written, and whether every write went through and the input goes on.
#[derive(Clone, Copy)]
struct Place {
    at: usize,
    open: bool,
    ghost room: { at ≤ 8192 },
}

// What waits is written.
fn flush<R, W: Write>(duplex: &mut Duplex<R, W>, out: &Out, p: Place) -> Place
    ensures at_value { result.at ≡ 0 }
    ensures written { IsOk duplex.new.outcome → Appends (W.contents duplex.old.output) (W.contents duplex.new.output) (take p.at out.now) }
{
    let ok = duplex.write(&out[..p.at]);
    Place {
        at: 0,
        open: p.open & ok,
    }
}

// What waits is written if there may be no room for another answer.
fn with_room<R, W: Write>(duplex: &mut Duplex<R, W>, out: &Out, p: Place) -> Place
    ensures { result.at ≤ 7000 }
{
    if p.at <= 7000 {
        return p;
    }
    flush(duplex, out, p)
}

fn put_answer<R, W: Write, P: Program>(
    duplex: &mut Duplex<R, W>,
    program: &mut P,
    out: &mut Out,
    p: Place,
    answer: Option<P::Answer>,
) -> Place {
    let Some(answer) = answer else {
        return p;
    };
    let q = with_room(duplex, out, p);
    Place {
        at: program.put(answer, out, q.at),
        open: q.open,
    }
}

fn take_piece<R, W: Write, P: Program>(
    duplex: &mut Duplex<R, W>,
    program: &mut P,
    out: &mut Out,
    p: Place,
    piece: &[u8],
) -> Place {
    let mut q = p;
    let mut rest = piece;
    while !rest.is_empty() {
        let t = program.take(rest);
        q = put_answer(duplex, program, out, q, t.answer);
        rest = &rest[t.taken..];
    }
    q
}

// One read. A read that fails ends the input.
fn serve_piece<R: Read, W: Write, P: Program>(
    duplex: &mut Duplex<R, W>,
    program: &mut P,
    out: &mut Out,
    p: Place,
) -> Place {
    let mut piece = [0u8; 4096];
    let k = duplex.read(&mut piece);
    if k == 0 {
        let answer = program.close();
        let q = put_answer(duplex, program, out, p, answer);
        flush(duplex, out, q);
        return Place { at: 0, open: false };
    }
    let q = take_piece(duplex, program, out, p, &piece[..k]);
    flush(duplex, out, q)
}

// A proved loop has to end, and nothing says that the input does: the loop takes as many turns at most as no run uses up.
pub fn serve<R: Read, W: Write, P: Program>(
    duplex: &mut Duplex<R, W>,
    program: &mut P,
    out: &mut Out,
) {
    let mut p = Place { at: 0, open: true };
    for _ in 0..u64::MAX {
        if !p.open {
            break;
        }
        p = serve_piece(duplex, program, out, p);
    }
}
