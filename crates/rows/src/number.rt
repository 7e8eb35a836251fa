// The numbers of document 01, by value, and what was written of them.
ghost use Rattle.std.specs.Prelude.{◌≡◌};
ghost use Rattle.steps.specs.Number.{magnitude, near_zero, is_finite, is_whole, within, mark_write};
ghost use Rattle.steps.specs.Add.{whole_within};
ghost use Rattle.rows.specs.Marks.{mark_of, clean, join};

pub const CELL_BOUND: f64 = 1024.0;

pub const CONSTANT_BOUND: f64 = 1073741824.0;

pub const OBJECTIVE_BOUND: f64 = 1099511627776.0;

pub fn magnitude(x: f64) -> f64
    ensures { result ≡ magnitude x }
{
    if x < 0.0 { -x } else { x }
}

// "Near zero: magnitude strictly below the cutoff given at reset, so the cutoff itself is kept."
pub fn near_zero(cutoff: f64, x: f64) -> bool
    ensures { result ≡ near_zero cutoff x }
{
    magnitude(x) < cutoff
}

pub fn is_finite(x: f64) -> bool
    ensures { result ≡ is_finite x }
{
    let top = 1.0 / 0.0;
    (-top < x) & (x < top)
}

pub fn within(bound: f64, x: f64) -> bool
    ensures { result ≡ within bound x }
{
    magnitude(x) <= bound
}

// From 2^53 on every f64 is whole.
pub fn is_whole(x: f64) -> bool
    ensures { result ≡ is_whole x }
{
    if (-9007199254740992.0 < x) & (x < 9007199254740992.0) {
        std::num::nearest_i64_to_f64(std::num::truncating_f64_to_i64(x)) == x
    } else {
        is_finite(x)
    }
}

pub fn whole_within(bound: f64, x: f64) -> bool
    ensures { result ≡ whole_within bound x }
{
    is_whole(x) & within(bound, x)
}

// What was written: all of it finite, all of it whole and within its bound. (Two flags, and no enum of the three marks: `&` alone joins them.)
#[repr(C)]
#[derive(Clone, Copy)]
pub struct Wrote {
    pub finite: bool,
    pub whole: bool,
}

pub fn nothing() -> Wrote
    ensures { result ≡ clean }
{
    Wrote {
        finite: true,
        whole: true,
    }
}

pub fn joined(v: Wrote, w: Wrote) -> Wrote
    ensures { result ≡ join v w }
{
    Wrote {
        finite: v.finite & w.finite,
        whole: v.whole & w.whole,
    }
}

pub fn mark_write(bound: f64, x: f64) -> Wrote
    ensures { mark_of result ≡ mark_write bound x }
{
    Wrote {
        finite: is_finite(x),
        whole: within(bound, x),
    }
}
