// The program: T-01's lines on standard input, an answer a line on standard output.
#![tactic(auto)]

use reader::answers::read_line;
use reader::fault::Refusal;
use std::io;
use text::buffer::Out;
use text::duplex::Duplex;
use text::replies::{Numbered, put_line};
use text::serving;
use text::stream::{Answers, Cut};

struct FirstEdition;

impl Answers for FirstEdition {
    fn answer(line: Option<&[u8]>, out: &mut Out, at: usize) -> usize {
        let r = match line {
            Some(line) => read_line(line),
            None => Err(Refusal::TooLong),
        };
        put_line(out, at, r.map_err(Numbered::from))
    }
}

// An error is the first read or write that failed.
fn main(rt: HostRuntime) -> io::Result<()> {
    let mut lines: Cut<FirstEdition> = Cut::new();
    let mut out = [0u8; 8192];
    let mut duplex = Duplex::new(rt.stdin(), rt.stdout());
    serving::serve(&mut duplex, &mut lines, &mut out);
    duplex.outcome
}
