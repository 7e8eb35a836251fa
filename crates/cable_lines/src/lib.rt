// T-12: lines over the service cable, read as their bytes come.
#![tactic(auto)]

ghost use Rattle.std.specs.Prelude.{◌≡◌, ◌≤◌, length, take as front};
ghost use Rattle.grammar.specs.edition.Steps.{read_second};
ghost use Rattle.reader.specs.second.Replies.{answered, as_reply};
ghost use Rattle.cable_lines.specs.Cable.{answer_of, takes, closes};
ghost use Rattle.cable_lines.specs.State.{held_by};
ghost use Rattle.cable_lines.specs.Given.{told, given, as_given, begun, as_begun};

use crate::state::{LIMIT, State, keep_line, renew};
use crate::tidy::tidy;
use reader::fault::Refusal;
use reader::second::{Weighted, read_second};

pub mod state;
mod tidy;

// A line's answer, if one was answered, and how many bytes were taken.
#[derive(Clone, Copy)]
pub struct Taken {
    pub answer: Option<Result<Weighted, Refusal>>,
    pub taken: usize,
}

fn read_front(line: &[u8], n: usize) -> Result<Weighted, Refusal>
    requires { n ≤ length line.now }
    ensures { answered result ≡ as_reply (read_second (front n line.now)) }
{
    read_second(&line[..n])
}

// The line that has begun, ended.
fn answer_held(s: &State) -> Result<Weighted, Refusal>
    ensures { answered result ≡ as_reply (answer_of (held_by s.now)) }
{
    let n = s[LIMIT];
    if n <= 200 {
        return read_front(s, n as usize);
    }
    Err(Refusal::CableLineTooLong)
}

fn step(s: &mut State, piece: &[u8]) -> Taken
    ensures { begun (told result) (held_by s.new) ≡ as_begun (takes (held_by s.old) piece.now) }
{
    let at = keep_line(s, piece);
    if at == piece.len() {
        return Taken {
            answer: None,
            taken: at,
        };
    }
    let answer = answer_held(s);
    renew(s);
    Taken {
        answer: Some(answer),
        taken: at + 1,
    }
}

fn closing(s: &mut State) -> Taken
    ensures { begun (told result) (held_by s.new) ≡ as_begun (closes (held_by s.old)) }
{
    let n = s[LIMIT];
    renew(s);
    if n == 0 {
        return Taken {
            answer: None,
            taken: 0,
        };
    }
    Taken {
        answer: Some(Err(Refusal::Unended)),
        taken: 0,
    }
}

// The answer of the first line that ends in the piece; the caller goes on behind the bytes taken.
pub fn take(s: &mut State, piece: &[u8]) -> Taken
    ensures { given (told result) s.new ≡ as_given (takes (held_by s.old) piece.now) }
{
    let t = step(s, piece);
    tidy(s);
    t
}

// The cable is closed: the reader is as new.
pub fn close(s: &mut State) -> Taken
    ensures { given (told result) s.new ≡ as_given (closes (held_by s.old)) }
{
    let t = closing(s);
    tidy(s);
    t
}
