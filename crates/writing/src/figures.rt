// The numbers of a constraint, as a line says them: a sign and a size.
ghost use Rattle.std.specs.Prelude.{◌≡◌};
ghost use Rattle.writing.specs.Figures.{figure_of};

// "a whole strength up to 1,001,001,000 (required)"
pub const REQUIRED: u64 = 1001001000;

// Sign and size stand beside `whole`, and not in an Option: the parts of a line are put only of what was found whole, and each would have to
// say what it puts of None.
#[derive(Clone, Copy)]
pub struct Figure {
    pub whole: bool,
    pub negative: bool,
    pub size: u64,
}

// From 2^53 on a number is too big for a line in any case.
pub fn figure_of(x: f64) -> Figure
    ensures { result ≡ figure_of x }
{
    if (-9007199254740992.0 < x) & (x < 9007199254740992.0) & rows::number::is_whole(x) {
        let size = std::num::truncating_f64_to_u64(rows::number::magnitude(x));
        return Figure {
            whole: true,
            negative: x < 0.0,
            size: size,
        };
    }
    Figure {
        whole: false,
        negative: false,
        size: 0,
    }
}
