// The program: constraints as numbers on standard input, each as its plain line on standard output.
#![tactic(auto)]

mod answers;
mod given;

use crate::answers::PlainLines;
use std::io;
use text::duplex::Duplex;
use text::serving;
use text::stream::Cut;

// An error is the first read or write that failed.
fn main(rt: HostRuntime) -> io::Result<()> {
    let mut lines: Cut<PlainLines> = Cut::new();
    let mut out = [0u8; 8192];
    let mut duplex = Duplex::new(rt.stdin(), rt.stdout());
    serving::serve(&mut duplex, &mut lines, &mut out);
    duplex.outcome
}
