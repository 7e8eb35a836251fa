// The two directions of a program: the bytes that it reads, and those that it writes.
ghost use Rattle.std.specs.Prelude.{◌≡◌, ◌<◌, ◌≤◌, length, take, IsTrue, IsFalse, IsOk, IsErr};
ghost use Rattle.std.specs.Io.KnownBytes.{Appends, Consumes, IsAtEnd};

use std::io;
use std::io::{Read, Write};

// outcome: the first read or write that failed, if one did.
#[derive(Drop)]
pub struct Duplex<R, W> {
    pub input: R,
    pub output: W,
    pub outcome: io::Result<()>,
}

impl<R, W> Duplex<R, W> {
    pub fn new(input: R, output: W) -> Duplex<R, W>
        ensures input { result.input ≡ input }
        ensures output { result.output ≡ output }
        ensures outcome { IsOk result.outcome }
    {
        Duplex {
            input,
            output,
            outcome: Ok(()),
        }
    }
}

impl<R: Read, W> Duplex<R, W> {
    // One read, of the bytes that have come: none at the input's end, and none where the read fails.
    pub fn read(&mut self, piece: &mut [u8]) -> usize
        ensures bound { result ≤ length piece.new }
        ensures bytes { Consumes (R.remaining self.old.input) (R.remaining self.new.input) (take result piece.new) }
        ensures end { IsOk self.new.outcome → result ≡ 0 → 0 < length piece.new → IsAtEnd (R.remaining self.new.input) }
        ensures ok { 0 < result → self.new.outcome ≡ self.old.outcome }
        ensures first { IsErr self.old.outcome → self.new.outcome ≡ self.old.outcome }
        ensures output { self.new.output ≡ self.old.output }
    {
        match self.input.read(piece) {
            Ok(n) => n,
            Err(e) => {
                self.outcome = self.outcome.and(Err(e));
                0
            }
        }
    }
}

impl<R, W: Write> Duplex<R, W> {
    // Whether all of the bytes went through. Where they did not, some of them may have.
    pub fn write(&mut self, bytes: &[u8]) -> bool
        ensures bytes { IsTrue result → Appends (W.contents self.old.output) (W.contents self.new.output) bytes.now }
        ensures ok { IsTrue result → self.new.outcome ≡ self.old.outcome }
        ensures err { IsFalse result → IsErr self.new.outcome }
        ensures first { IsErr self.old.outcome → self.new.outcome ≡ self.old.outcome }
        ensures input { self.new.input ≡ self.old.input }
    {
        match self.output.write_all(bytes) {
            Ok(()) => true,
            Err(e) => {
                self.outcome = self.outcome.and(Err(e));
                false
            }
        }
    }
}
