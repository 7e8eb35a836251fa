// The service line's writer under its C name: the terms come as two lists, as an add takes them.
ghost use Rattle.std.specs.Prelude.{◌≡◌};
ghost use Rattle.grammar.specs.plain.Plain.{refused};
ghost use Rattle.writing.specs.Writes.{called, called_is};
ghost use Rattle.knobharbor.specs.Written.{writes_of};

use crate::given::{gather, relation};
use writing::buffer::{ROOM, clear};
use writing::write_line;

// What is no constraint is nothing that a line can say.
fn unsaid(buffer: &mut [u8]) -> u32
    ensures { called_is result buffer.new ≡ called buffer.old (refused 36) }
{
    if buffer.len() == ROOM {
        clear(buffer);
        return 36;
    }
    18
}

pub fn knobharbor_write_line(
    buffer: &mut [u8],
    kind: u32,
    strength: f64,
    group: u16,
    constant: f64,
    vars: &[u32],
    coefs: &[f64],
) -> u32
    ensures { called_is result buffer.new ≡ called buffer.old (writes_of kind strength group constant vars.now coefs.now) }
{
    let ok = (kind < 3) & (vars.len() == coefs.len());
    if !ok {
        return unsaid(buffer);
    }
    let p = gather(vars, coefs);
    let related = relation(kind, strength);
    write_line(buffer, related, group, constant, p)
}
