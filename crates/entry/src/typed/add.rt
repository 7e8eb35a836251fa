// A line of text added. Its own refusals come first, 19 to 23, the solver's then.
ghost use Rattle.std.specs.Prelude.{◌≡◌};
ghost use Rattle.lending.specs.sparse_copy.Over.{cleared};
ghost use Rattle.lending.specs.Lending.{called};
ghost use Rattle.entry.specs.typed.Adding.{mark_in, text, text_answer, text_of};
ghost use Rattle.sparse.specs.Tables.{held, lent, Same};

use crate::typed::pack::{pack_of, required_by, whole};
use changes::Change;
use reader::answers::read_line;
use sparse::tables::{Tables, TablesMut};

// A changing call's answer, and beside 20 where the line leaves the grammar; else the offset is 0.
#[repr(C)]
#[derive(Clone, Copy)]
pub struct TextAnswer {
    pub number: u32,
    pub pivots: u32,
    pub whole: bool,
    pub offset: usize,
}

// "A refusal answers the stored mark", no where there is none.
fn mark_of(tables: &Tables) -> bool
    ensures { result ≡ mark_in (lent tables.now) }
{
    if !sparse_test::reads_as_state(tables) {
        return false;
    }
    tables.words[sparse::WHOLE] == 1
}

// "without it the constraint is required and in group 1"
pub fn add_text(
    tables: &mut TablesMut,
    room: &mut TablesMut,
    number: u32,
    line: &[u8],
    budget: u16,
) -> TextAnswer
    ensures values_value { text result.offset (called (text_answer result) (held tables.new)) ≡ text_of number line.now budget (held room.old) (held tables.old) }
    ensures wvalues_value { held room.new ≡ cleared (held room.old) }
    ensures same_tables { Same tables.old tables.new }
    ensures same_room { Same room.old room.new }
{
    match read_line(line) {
        Err(r) => {
            let whole = mark_of(&tables.lend());
            lending::clearing::clear_room(room);
            TextAnswer {
                number: r.number(),
                pivots: 0,
                whole,
                offset: r.offset(),
            }
        }
        Ok(x) => {
            let p = pack_of(&x);
            let c = Change::Add(1, number, whole(x.constant), required_by(x.relation));
            let a = solver::change(tables, room, c, p, budget);
            TextAnswer {
                number: a.number,
                pivots: a.pivots,
                whole: a.whole,
                offset: 0,
            }
        }
    }
}
