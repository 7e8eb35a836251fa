// The program: calls as lines of standard input, an answer a line on standard output.
#![tactic(auto)]

mod answers;
mod stream;

use sparse::tables::TablesMut;
use sparse::{Bytes, Keys, Reals, Values, Words};
use std::io;
use text::duplex::Duplex;

// The reset makes the tables read as a state. A proved loop has to end, and nothing says that the input does: it takes as
// many turns at most as no run uses up. An error is the first read or write that failed.
fn main(rt: HostRuntime) -> io::Result<()> {
    let mut words: Words = [0; sparse::WORDS_SIZE];
    let mut keys: Keys = [0; layout::cells::CELL_ROOM];
    let mut bytes: Bytes = [0; sparse::BYTES_SIZE];
    let mut reals: Reals = [0.0; sparse::REALS_SIZE];
    let mut values: Values = [0.0; layout::cells::CELL_ROOM];
    let mut tables = TablesMut {
        words: &mut words,
        keys: &mut keys,
        bytes: &mut bytes,
        reals: &mut reals,
        values: &mut values,
    };
    let mut piece = [0u8; 4096];
    let mut line = [0u8; 4096];
    let mut out = [0u8; 8192];
    let mut duplex = Duplex::new(rt.stdin(), rt.stdout());
    lending::reset(&mut tables, text::calls::USUAL_CUTOFF);
    let mut p = stream::begin();
    for _ in 0..u64::MAX {
        if !p.more {
            break;
        }
        p = stream::take(&mut duplex, &mut piece, &mut line, &out, p);
        p = stream::say(&mut duplex, p, &line, &mut tables, &mut out);
    }
    stream::flush(&mut duplex, &out, p);
    duplex.outcome
}
