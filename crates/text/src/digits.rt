// Words that are numbers, digit by digit, and words that are one of the format's own.
ghost use Rattle.std.specs.Prelude.{◌≡◌, ◌^◌, ◌≤◌, MatchOption, true, false, length, drop};
ghost use Rattle.text.specs.Digits.{is_from, digit_of, digits_of, up_to, same_bytes, starts_with};

fn is_from(low: u8, high: u8, b: u8) -> bool
    ensures { result ≡ is_from low high b }
{
    (low <= b) & (b <= high)
}

// A hexadecimal digit's worth. What is none has the worth of no digit of either base, so that one test of the caller's passes over both.
fn digit(b: u8) -> u64
    ensures { result ≡ digit_of b }
{
    if is_from(48, 57, b) {
        (b - 48) as u64
    } else if is_from(97, 102, b) {
        (b - 87) as u64
    } else if is_from(65, 70, b) {
        (b - 55) as u64
    } else {
        16
    }
}

// A whole number in a base, of at most `most`.
fn number<const BASE: u64>(w: &[u8], most: u64) -> Option<u64>
    requires { (1 ≤ BASE) × (BASE ≤ 16) }
    ensures { result ≡ up_to most (digits_of BASE w.now) }
{
    if w.is_empty() {
        return None;
    }
    let mut v: u64 = 0;
    for b in w {
        let d = digit(*b);
        if BASE <= d {
            return None;
        }
        let longer = v as u128 * BASE as u128 + d as u128;
        if (most as u128) < longer {
            return None;
        }
        v = longer as u64;
    }
    Some(v)
}

// A whole decimal number of at most `most`.
pub fn decimal(w: &[u8], most: u64) -> Option<u64>
    requires { most ≤ 2 ^ 53 }
    ensures { result ≡ up_to most (digits_of 10 w.now) }
{
    number::<10>(w, most)
}

// The number that hexadecimal digits stand for, if a u64 holds it.
pub fn hexadecimal(w: &[u8]) -> Option<u64>
    ensures { result ≡ up_to 18446744073709551615 (digits_of 16 w.now) }
{
    number::<16>(w, u64::MAX)
}

// With `==` in place of this each literal needs an `as_slice`.
pub fn same(w: &[u8], name: &[u8]) -> bool
    ensures { result ≡ same_bytes w.now name.now }
{
    w == name
}

// What follows a mark, in a word that begins with it.
pub fn after<'a>(w: &'a [u8], mark: &[u8]) -> Option<&'a [u8]>
    ensures { MatchOption result (starts_with mark.now w.now ≡ false) (λ x. (starts_with mark.now w.now ≡ true) × (x.now ≡ drop (length mark.now) w.now)) }
{
    w.strip_prefix(mark)
}
