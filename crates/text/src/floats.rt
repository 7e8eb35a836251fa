// Words that are ids, budgets and floats.
ghost use Rattle.std.specs.Prelude.{◌≡◌};
ghost use Rattle.std.specs.Float.{binary64};
ghost use Rattle.std.specs.Float.Ieee.{of_bits, to_bits as Ieee·toBits};
ghost use Rattle.text.specs.Floats.{whole_real, minus_real, bits_real, whole_of, pattern_of, figure_of, float_of, id_of, budget_of};

use crate::digits;

pub fn id_word(w: &[u8]) -> Option<u32>
    ensures { result ≡ id_of w.now }
{
    let n = digits::decimal(w, 4294967295)?;
    Some(n as u32)
}

pub fn budget_word(w: &[u8]) -> Option<u16>
    ensures { result ≡ budget_of w.now }
{
    let n = digits::decimal(w, 65535)?;
    Some(n as u16)
}

// The float of a bit pattern; every NaN's pattern is the one NaN.
fn float_of_bits(n: u64) -> f64
    ensures { result ≡ of_bits binary64 n }
{
    if 9218868437227405312 < n % 9223372036854775808 {
        return 0.0 / 0.0;
    }
    f64::from_bits(n)
}

// The bits of a float, those of one NaN for every NaN.
pub fn bits_of_float(x: f64) -> u64
    ensures { result ≡ Ieee·toBits binary64 x }
{
    if x == x {
        f64::to_bits(x)
    } else {
        9221120237041090560
    }
}

fn whole_real(w: Option<u64>) -> Option<f64>
    ensures { result ≡ whole_real w }
{
    Some(std::num::nearest_u64_to_f64(w?))
}

fn minus_real(w: Option<u64>) -> Option<f64>
    ensures { result ≡ minus_real w }
{
    Some(-std::num::nearest_u64_to_f64(w?))
}

fn bits_real(w: Option<u64>) -> Option<f64>
    ensures { result ≡ bits_real w }
{
    Some(float_of_bits(w?))
}

fn whole_word(w: &[u8]) -> Option<u64>
    ensures { result ≡ whole_of w.now }
{
    digits::decimal(w, 9007199254740992)
}

fn pattern_word(w: &[u8]) -> Option<u64>
    ensures { result ≡ pattern_of w.now }
{
    if w.len() == 16 {
        digits::hexadecimal(w)
    } else {
        None
    }
}

fn figure_word(w: &[u8]) -> Option<f64>
    ensures { result ≡ figure_of w.now }
{
    if let Some(bits) = digits::after(w, b"0x") {
        return bits_real(pattern_word(bits));
    }
    if let Some(size) = digits::after(w, b"-") {
        return minus_real(whole_word(size));
    }
    whole_real(whole_word(w))
}

pub fn float_word(w: &[u8]) -> Option<f64>
    ensures { result ≡ float_of w.now }
{
    if digits::same(w, b"inf") {
        return Some(float_of_bits(9218868437227405312));
    }
    if digits::same(w, b"-inf") {
        return Some(float_of_bits(18442240474082181120));
    }
    if digits::same(w, b"nan") {
        return Some(0.0 / 0.0);
    }
    if digits::same(w, b"req") {
        return Some(rows::strength::REQUIRED);
    }
    figure_word(w)
}
