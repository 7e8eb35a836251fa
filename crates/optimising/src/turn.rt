// A turn of a pass: a pivot made and counted, the end of the pass, or a refusal.
ghost use Rattle.std.specs.Prelude.{◌≡◌, ◌<◌};
ghost use Rattle.optimising.specs.Turn.{counted_of, went_of};

use rows::number::Wrote;
use sparse::refusal::Refusal;
use waist::ending::{Refused, Went};

// 13 is no pivot made.
pub fn counted(pivots: u32, wrote: Wrote) -> Result<Went, Refused>
    requires { pivots < 4294967295 }
    ensures { went_of result ≡ counted_of pivots wrote }
{
    if wrote.finite {
        return Ok(Went {
            pivots: pivots + 1,
            wrote,
        });
    }
    Err(Refused {
        why: Refusal::StepNotFinite,
        pivots,
        wrote,
    })
}
