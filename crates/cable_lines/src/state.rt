// The line that has begun, in a lent table: 200 bytes, and last how many are in use; from 201 on the line is too long.
// Any content reads as a state, and zeros are a new reader. (Bytes with a count beside them, since C declares the table: `knobharbor_cable`.)
ghost use Rattle.std.specs.Prelude.{◌≡◌, ◌≤◌, ◌<◌, length, get_or};
ghost use Rattle.laws.specs.streams.Lines.{grown};
ghost use Rattle.cable_lines.specs.Cable.{limit, new};
ghost use Rattle.cable_lines.specs.State.{held_by, Kept};

pub const LIMIT: usize = 200;

pub type State = [u8; 201];

// One more byte, no newline, of the line that has begun.
fn keep(s: &mut State, b: u8)
    ensures { held_by s.new ≡ grown limit (held_by s.old) b }
{
    let n = s[LIMIT];
    if n < 200 {
        s[n as usize] = b;
        s[LIMIT] = n + 1;
        return;
    }
    s[LIMIT] = 201;
}

// The bytes up to the first newline are kept; its place, or the piece's end.
pub fn keep_line(s: &mut State, piece: &[u8]) -> usize
    ensures kept { Kept (held_by s.old) piece.now (held_by s.new) result }
    ensures result_value { result < length piece.now → get_or piece.now result 0 ≡ 10 }
{
    for (i, b) in piece.iter().enumerate() {
        if *b == b'\n' {
            return i;
        }
        keep(s, *b);
    }
    piece.len()
}

// The reader is as new.
pub fn renew(s: &mut State)
    ensures { held_by s.new ≡ new }
{
    s[LIMIT] = 0;
}
