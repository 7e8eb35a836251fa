// T-13: one line of the service line's second edition read into a constraint, its strength and its group.
ghost use Rattle.std.specs.Prelude.{◌≡◌};
ghost use Rattle.grammar.specs.edition.Steps.{read_second};
ghost use Rattle.reader.specs.Answers.{shown};
ghost use Rattle.reader.specs.second.Replies.{answered, ranged_by, as_reply};

pub mod endings;
pub mod ends;

use crate::answers::{Constraint, finish};
use crate::fault::Refusal;
use crate::second::endings::{Ending, MOST_GROUP, REQUIRED};
use crate::second::ends::second_line;

// What the first edition's reader hands over, with the strength and the group.
#[derive(Clone, Copy)]
pub struct Weighted {
    pub constraint: Constraint,
    pub strength: u32,
    pub group: u16,
}

// "Refusals: after T-01's, 34 strength out of range, then 35 group out of range"
fn ranged(r: Result<Constraint, Refusal>, x: Ending) -> Result<Weighted, Refusal>
    ensures { answered result ≡ ranged_by (shown r) x.strength x.group }
{
    let constraint = r?;
    if REQUIRED < x.strength {
        return Err(Refusal::StrengthOutOfRange);
    }
    if (x.group < 1) | (MOST_GROUP < x.group) {
        return Err(Refusal::GroupOutOfRange);
    }
    Ok(Weighted {
        constraint,
        strength: x.strength as u32,
        group: x.group as u16,
    })
}

pub fn read_second(s: &[u8]) -> Result<Weighted, Refusal>
    ensures { answered result ≡ as_reply (read_second s.now) }
{
    if 4096 < s.len() {
        return Err(Refusal::TooLong);
    }
    let mut numbers = [0u32; 1366];
    let mut sums = [0u64; 1366];
    match second_line(s, &mut numbers, &mut sums) {
        Ok(x) => {
            let r = finish(&numbers, &sums, x.relation, x.place);
            ranged(r, x.ending)
        }
        Err(f) => Err(Refusal::from(f)),
    }
}
