// How a step over tables ends: it goes on, or it refuses, with the pivots made and what was written so far in both cases.
ghost use Rattle.std.specs.Prelude.{◌≡◌};
ghost use Rattle.waist.specs.Ending.{checked_of, ended_of};

use rows::number::Wrote;
use sparse::refusal::Refusal;

#[derive(Clone, Copy)]
pub struct Went {
    pub pivots: u32,
    pub wrote: Wrote,
}

#[derive(Clone, Copy)]
pub struct Refused {
    pub why: Refusal,
    pub pivots: u32,
    pub wrote: Wrote,
}

pub fn check_finite(pivots: u32, wrote: Wrote) -> Result<Went, Refused>
    ensures { ended_of result ≡ checked_of pivots wrote }
{
    if wrote.finite {
        return Ok(Went { pivots, wrote });
    }
    Err(Refused {
        why: Refusal::StepNotFinite,
        pivots,
        wrote,
    })
}
