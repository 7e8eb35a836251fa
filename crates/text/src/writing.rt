// Answers as text, written into a lent buffer from a place on; each function answers the next place.
ghost use Rattle.std.specs.Prelude.{◌≡◌, ◌+◌, ◌*◌, ◌<◌, ◌≤◌, [], ◌∷◌, length, ◌==◌};
ghost use Rattle.text.specs.Answers.{Wrote, decimal_text, hex_text, flag_text, float_text, number_text, new_text, change_text, answer_text, changes_text, fetch_text, listed_in, unread_text};
ghost use Rattle.text.specs.Answers.{glyph as Answers·glyph};

use crate::floats;

pub fn put_byte(out: &mut [u8], at: usize, b: u8) -> usize
    requires { at < length out.old }
    ensures { Wrote out.old out.new at result (b ∷ []) }
{
    out[at] = b;
    at + 1
}

pub fn put_text(out: &mut [u8], at: usize, text: &[u8]) -> usize
    requires { at + length text.now ≤ length out.old }
    ensures { Wrote out.old out.new at result text.now }
{
    let end = at + text.len();
    out[at..end].copy_from_slice(text);
    end
}

// A number of at most k digits in decimal.
fn put_digits(out: &mut [u8], at: usize, n: u64, k: usize) -> usize
    requires { at + k ≤ length out.old }
    ensures { Wrote out.old out.new at result (decimal_text k n) }
{
    if k == 0 {
        return at;
    }
    if n < 10 {
        return put_byte(out, at, 48 + n as u8);
    }
    let next = put_digits(out, at, n / 10, k - 1);
    put_byte(out, next, 48 + (n % 10) as u8)
}

fn glyph(d: u64) -> u8
    requires { d < 16 }
    ensures { result ≡ Answers·glyph d }
{
    if d < 10 { 48 + d as u8 } else { 87 + d as u8 }
}

// The last k hexadecimal digits of n. A number in decimal has no zeros in front, and this has all of its digits: that is why they are two.
fn put_hex(out: &mut [u8], at: usize, n: u64, k: usize) -> usize
    requires { at + k ≤ length out.old }
    ensures { Wrote out.old out.new at result (hex_text k n) }
{
    if k == 0 {
        return at;
    }
    let next = put_hex(out, at, n / 16, k - 1);
    put_byte(out, next, glyph(n % 16))
}

pub fn put_number(out: &mut [u8], at: usize, n: u64) -> usize
    requires { at + 20 ≤ length out.old }
    ensures { Wrote out.old out.new at result (number_text n) }
{
    put_digits(out, at, n, 20)
}

pub fn put_float(out: &mut [u8], at: usize, x: f64) -> usize
    requires { at + 16 ≤ length out.old }
    ensures { Wrote out.old out.new at result (float_text x) }
{
    put_hex(out, at, floats::bits_of_float(x), 16)
}

pub fn put_flag(out: &mut [u8], at: usize, b: bool) -> usize
    requires { at < length out.old }
    ensures { Wrote out.old out.new at result (flag_text b) }
{
    if b {
        put_byte(out, at, 49)
    } else {
        put_byte(out, at, 48)
    }
}

// What a changing call answers.
pub fn put_answer(out: &mut [u8], at: usize, refusal: u32, pivots: u32, whole: bool) -> usize
    requires { at + 43 ≤ length out.old }
    ensures { Wrote out.old out.new at result (answer_text refusal pivots whole) }
{
    let a = put_number(out, at, refusal as u64);
    let b = put_byte(out, a, 32);
    let c = put_number(out, b, pivots as u64);
    let d = put_byte(out, c, 32);
    put_flag(out, d, whole)
}

// What an entry of a fetch says of its variable: 1 is gone, as `knobharbor_fetch` has it for C.
fn put_new(out: &mut [u8], at: usize, x: f64, gone: u8) -> usize
    requires { at + 16 ≤ length out.old }
    ensures { Wrote out.old out.new at result (new_text x (gone == 1)) }
{
    if gone == 1 {
        put_text(out, at, b"gone")
    } else {
        put_float(out, at, x)
    }
}

// One entry of a fetch.
fn put_change(out: &mut [u8], at: usize, v: u64, x: f64, gone: u8) -> usize
    requires { at + 38 ≤ length out.old }
    ensures { Wrote out.old out.new at result (change_text v x (gone == 1)) }
{
    let a = put_byte(out, at, 32);
    let b = put_number(out, a, v);
    let c = put_byte(out, b, 58);
    put_new(out, c, x, gone)
}

// The entries of a fetch: numbers, values and flags that stand at the front of the three lists
// that `knobharbor_fetch` fills for C.
fn put_changes(
    out: &mut [u8],
    at: usize,
    numbers: &[u64],
    values: &[f64],
    gone: &[u8],
    count: usize,
) -> usize
    requires count_in_bounds { at + 38 * count ≤ length out.old }
    requires count_in_bounds_2 { count ≤ length numbers.now }
    requires count_in_bounds_3 { count ≤ length values.now }
    requires count_in_bounds_4 { count ≤ length gone.now }
    ensures { Wrote out.old out.new at result (changes_text (listed_in count numbers.now values.now gone.now)) }
{
    let mut next = at;
    for i in 0..count {
        next = put_change(out, next, numbers[i], values[i], gone[i]);
    }
    next
}

// What a fetch answers.
pub fn put_fetch(
    out: &mut [u8],
    at: usize,
    numbers: &[u64],
    values: &[f64],
    gone: &[u8],
    count: u32,
) -> usize
    requires count_in_bounds { at + 20 + 38 * count ≤ length out.old }
    requires count_in_bounds_2 { count ≤ length numbers.now }
    requires count_in_bounds_3 { count ≤ length values.now }
    requires count_in_bounds_4 { count ≤ length gone.now }
    ensures { Wrote out.old out.new at result (fetch_text (listed_in count numbers.now values.now gone.now)) }
{
    let next = put_number(out, at, count as u64);
    put_changes(out, next, numbers, values, gone, count as usize)
}

// "A line that is no call is answered `?`"
pub fn put_unread(out: &mut [u8], at: usize) -> usize
    requires { at < length out.old }
    ensures { Wrote out.old out.new at result unread_text }
{
    put_byte(out, at, 63)
}
