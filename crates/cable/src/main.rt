// "A small program reads standard input and writes one answer per line."
// The lines are those of the service cable.
#![tactic(auto)]

mod served;

use crate::served::Cable;
use std::io;
use text::duplex::Duplex;
use text::serving;

// An error is the first read or write that failed.
fn main(rt: HostRuntime) -> io::Result<()> {
    let mut cable = Cable { state: [0; 201] };
    let mut out = [0u8; 8192];
    let mut duplex = Duplex::new(rt.stdin(), rt.stdout());
    serving::serve(&mut duplex, &mut cable, &mut out);
    duplex.outcome
}
