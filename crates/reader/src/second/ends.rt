// A line's two sides, and what stands behind them: "A line may end in `@`, a whole strength .., a comma and a group ..; without it the constraint is
// required and in group 1."
ghost use Rattle.std.specs.Prelude.{◌≡◌, ◌≤◌, length};
ghost use Rattle.grammar.specs.edition.Steps.{start};
ghost use Rattle.grammar.specs.edition.Descent.{pass_from};
ghost use Rattle.reader.specs.Ends.{Reached};
ghost use Rattle.reader.specs.second.Ends.{EndIs, Agrees, Counted};

use crate::fault::Fault;
use crate::parts::Place;
use crate::scan::byte_at;
use crate::second::endings::{Ending, REQUIRED, ending_at};
use crate::sides::{Mark, both_sides};
use crate::sums::{Numbers, Sums};

// A line read to its end, with its strength and its group.
#[derive(Clone, Copy)]
pub struct Second {
    pub relation: Mark,
    pub place: Place,
    pub ending: Ending,
}

fn end_of(s: &[u8], m: Mark, e: Place) -> Result<Second, Fault>
    requires { Reached s.now e }
    ensures { EndIs s.now m e result }
{
    if byte_at(s, e.at) == b'@' {
        let ending = ending_at(s, e.at + 1)?;
        return Ok(Second {
            relation: m,
            place: e,
            ending,
        });
    }
    if e.bare && e.at == s.len() {
        let ending = Ending {
            strength: REQUIRED,
            group: 1,
        };
        return Ok(Second {
            relation: m,
            place: e,
            ending,
        });
    }
    Err(Fault::Astray(e.at))
}

pub fn second_line(s: &[u8], numbers: &mut Numbers, sums: &mut Sums) -> Result<Second, Fault>
    requires { length s.now ≤ 4096 }
    ensures agrees { Agrees numbers.new sums.new result (pass_from s.now 0 start) }
    ensures counted { Counted result }
{
    let (m, e) = both_sides(s, numbers, sums)?;
    end_of(s, m, e)
}
