// The crate's module `strength`: create and clip, which are public calls as they stand.
ghost use Rattle.std.specs.Prelude.{◌≡◌};
ghost use Rattle.steps.specs.Strength.{held_part, create, clip};

pub const REQUIRED: f64 = 1001001000.0;

// One part of a strength, held to 0 to 1,000.
pub fn held_part(x: f64) -> f64
    ensures { result ≡ held_part x }
{
    if 0.0 < x {
        if x < 1000.0 { x } else { 1000.0 }
    } else {
        0.0
    }
}

pub fn create(a: f64, b: f64, c: f64, w: f64) -> f64
    ensures { result ≡ create a b c w }
{
    held_part(a * w) * 1000000.0 + held_part(b * w) * 1000.0 + held_part(c * w)
}

// NaN is told apart first: a comparison and a choice alone can become one instruction for the smaller of two numbers (ARM's `fminnm`), which lets a signalling NaN through.
pub fn clip(s: f64) -> f64
    ensures { result ≡ clip s }
{
    if s != s {
        REQUIRED
    } else if s <= 0.0 {
        0.0
    } else if s < REQUIRED {
        s
    } else {
        REQUIRED
    }
}
