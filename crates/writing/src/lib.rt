// The service line's writer: a constraint as its plain line.
#![tactic(auto)]

ghost use Rattle.std.specs.Prelude.{◌≡◌, length};
ghost use Rattle.writing.specs.Writes.{called, writes, called_is};

pub mod buffer;
pub mod figures;
pub mod said;
pub mod texts;

use crate::buffer::{ROOM, clear};
use crate::figures::figure_of;
use crate::said::{mark_of, said, strength_of};
use crate::texts::put_line;
use changes::tags::Relation;
use changes::terms::Pack;

fn write_in(out: &mut [u8], relation: Relation, group: u16, constant: f64, p: Pack) -> u32
    requires { length out.old ≡ 200 }
    ensures { called_is result out.new ≡ called out.old (writes relation group constant p) }
{
    clear(out);
    let mark = mark_of(relation);
    let c = figure_of(constant);
    let s = figure_of(strength_of(relation));
    if said(p, c, s, group) {
        let n = put_line(out, p, p.count, c, mark, s.size, group);
        if n <= ROOM {
            return 0;
        }
        clear(out);
        return 32;
    }
    36
}

// The numbers are those that `knobharbor_write_line` answers C.
// "Its lent buffer is 200 bytes, zero past the line." 0, or 18 for a buffer of another length, which stays as it is; "36 for terms not ascending
// or anything a line can't say, then 32, and its buffer is all zero".
pub fn write_line(out: &mut [u8], relation: Relation, group: u16, constant: f64, p: Pack) -> u32
    ensures { called_is result out.new ≡ called out.old (writes relation group constant p) }
{
    if out.len() == ROOM {
        return write_in(out, relation, group, constant, p);
    }
    18
}
