// Bytes of a line from a place on: spaces, digits, a mark.
ghost use Rattle.std.specs.Prelude.{◌≡◌, ◌≤◌, ◌<◌, get_or, length};
ghost use Rattle.reader.specs.Scan.{Skips, digit_at, WholeIs};

use crate::fault::Fault;

// The byte at a place, 0 past the end: a byte of no line either. (`get` gives an Option of a reference, which `tools/cross` refuses for 32 bits.)
pub fn byte_at(s: &[u8], at: usize) -> u8
    ensures { result ≡ get_or s.now at 0 }
{
    if at < s.len() { s[at] } else { 0 }
}

// The place behind the spaces. (With `position` it is a sum of `at` and a place in the rest: no plainer.)
pub fn skip(s: &[u8], at: usize) -> usize
    requires { at ≤ length s.now }
    ensures { Skips s.now at result }
{
    let mut i = at;
    while byte_at(s, i) == b' ' {
        i += 1;
    }
    i
}

// The digit's worth, if one stands there.
pub fn digit_at(s: &[u8], at: usize) -> Option<u64>
    ensures { result ≡ digit_at (get_or s.now at 0) }
{
    match byte_at(s, at) {
        b @ b'0'..=b'9' => Some((b - b'0') as u64),
        _ => None,
    }
}

// A whole number and the place behind it. "met at the digit that passes the bound, before anything behind it"
pub fn number_at(s: &[u8], at: usize, most: u64) -> Result<(u64, usize), Fault>
    requires at_in_bounds { at ≤ length s.now }
    requires le_most { (9 ≤ most) × (most ≤ 4294967295) }
    ensures { WholeIs s.now most at result }
{
    let Some(first) = digit_at(s, at) else {
        return Err(Fault::Astray(at));
    };
    let mut n = first;
    let mut i = at + 1;
    while let Some(d) = digit_at(s, i) {
        n = n * 10 + d;
        if most < n {
            return Err(Fault::TooLarge(i));
        }
        i += 1;
    }
    Ok((n, i))
}
