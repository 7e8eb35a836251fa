// A stream of bytes cut into lines: a newline ends a line, and what stands after the last newline is a line too unless it is empty.
ghost use Rattle.std.specs.Prelude.{◌≡◌, ◌≤◌};
ghost use Rattle.text.specs.Stream.{grown, held_in};

use crate::buffer::Out;
use crate::serving::{Program, Taken};
use std::marker::PhantomData;

pub type Line = [u8; 4096];

// One more byte, no newline, of the line that has begun: n of its bytes are held, none of a line that is too long.
pub fn keep_byte(line: &mut Line, n: Option<usize>, b: u8) -> Option<usize>
    ensures { held_in line.new result ≡ grown (held_in line.old n) b }
{
    let Some(n) = n else {
        return None;
    };
    if n < 4096 {
        line[n] = b;
        return Some(n + 1);
    }
    None
}

pub trait Answers {
    // The answer to a line and its newline; no line is one that is too long.
    fn answer(line: Option<&[u8]>, out: &mut Out, at: usize) -> usize
        requires { at ≤ 7000 }
        ensures { result ≤ 8192 };
}

// The line that has begun, and how many of its bytes are held.
#[derive(Drop)]
pub struct Cut<A> {
    line: Line,
    held: Option<usize>,
    answers: PhantomData<A>,
}

// A line has ended.
#[derive(Clone, Copy)]
pub struct Ended;

impl<A> Cut<A> {
    pub fn new() -> Cut<A> {
        Cut {
            line: [0; 4096],
            held: Some(0),
            answers: PhantomData,
        }
    }

    fn keep(&mut self, bytes: &[u8]) {
        for b in bytes {
            self.held = keep_byte(&mut self.line, self.held, *b);
        }
    }
}

impl<A: Answers> Program for Cut<A> {
    type Answer = Ended;

    fn take(&mut self, piece: &[u8]) -> Taken<Ended> {
        match piece.iter().position(|b| *b == b'\n') {
            Some(n) => {
                self.keep(&piece[..n]);
                Taken {
                    answer: Some(Ended),
                    taken: n + 1,
                }
            }
            None => {
                self.keep(piece);
                Taken {
                    answer: None,
                    taken: piece.len(),
                }
            }
        }
    }

    fn close(&mut self) -> Option<Ended> {
        if self.held == Some(0) {
            return None;
        }
        Some(Ended)
    }

    fn put(&mut self, answer: Ended, out: &mut Out, at: usize) -> usize {
        let line = self.held.and_then(|n| self.line.get(..n));
        let next = A::answer(line, out, at);
        self.held = Some(0);
        next
    }
}
