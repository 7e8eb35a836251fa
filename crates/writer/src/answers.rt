// Answers as text: the plain line, `no NUMBER`, or `?` for what is no constraint in the text format.
ghost use Rattle.std.specs.Prelude.{◌+◌, ◌≤◌, length};

use crate::given::{Given, read_given};
use text::buffer::Out;
use text::stream::Answers;
use text::writing::{put_byte, put_number, put_unread};
use writing::write_line;

// "zero past the line"
fn put_plain(out: &mut [u8], at: usize, plain: &[u8; 200]) -> usize
    requires { at + 200 ≤ length out.old }
    ensures { result ≤ at + 200 }
{
    let n = plain.iter().position(|b| *b == 0).unwrap_or(200);
    out[at..at + n].copy_from_slice(&plain[..n]);
    at + n
}

fn put_refused(out: &mut [u8], at: usize, number: u32) -> usize
    requires { at + 200 ≤ length out.old }
    ensures { result ≤ at + 200 }
{
    let a = put_byte(out, at, b'n');
    let b = put_byte(out, a, b'o');
    let c = put_byte(out, b, b' ');
    put_number(out, c, number as u64)
}

fn put_given(out: &mut [u8], at: usize, g: Option<Given>) -> usize
    requires { at + 200 ≤ length out.old }
    ensures { result ≤ at + 200 }
{
    let Some(g) = g else {
        return put_unread(out, at);
    };
    let mut plain = [0u8; 200];
    let number = write_line(&mut plain, g.relation, g.group, g.constant, g.terms);
    if number == 0 {
        return put_plain(out, at, &plain);
    }
    put_refused(out, at, number)
}

pub fn put_written(out: &mut [u8], at: usize, line: &[u8]) -> usize
    requires { at + 200 ≤ length out.old }
    ensures { result ≤ at + 200 }
{
    put_given(out, at, read_given(line))
}

pub struct PlainLines;

impl Answers for PlainLines {
    fn answer(line: Option<&[u8]>, out: &mut Out, at: usize) -> usize {
        let next = match line {
            Some(line) => put_written(out, at, line),
            None => put_unread(out, at),
        };
        put_byte(out, next, b'\n')
    }
}
