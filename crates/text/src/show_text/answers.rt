// A constraint as it was added, `REL STRENGTH GROUP CONSTANT N V1 K1 ..`, or `no NUMBER`: out of the places in which one is lent, into a buffer from a
// place on; each function answers the next place.
ghost use Rattle.std.specs.Prelude.{◌≡◌, ◌+◌, ◌<◌, ◌≤◌, [], ◌∷◌, slice_index};
ghost use Rattle.text.specs.Put.{Put};
ghost use Rattle.text.specs.show_text.Show.{number_after, float_after, term_text, terms_in, kind_text, head_text, line_text, no_text, shown_text};

use crate::buffer::{Out, put_byte, put_text};
use crate::{buffer, writing};

fn put_number(out: &mut Out, at: usize, n: u64) -> usize
    requires { at + 21 ≤ 8192 }
    ensures put { Put out.old out.new at result (number_after n) }
    ensures upper_bound { result ≤ at + 21 }
{
    let i = put_byte(out, at, b' ');
    buffer::put_number(out, i, n)
}

// "floats .. as `0x` and 16 hexadecimal digits", as the format takes them in.
fn put_float(out: &mut Out, at: usize, x: f64) -> usize
    requires { at + 19 ≤ 8192 }
    ensures put { Put out.old out.new at result (float_after x) }
    ensures upper_bound { result ≤ at + 19 }
{
    let i = put_byte(out, at, b' ');
    let j = put_text(out, i, b"0x");
    writing::put_float(out, j, x)
}

// The kind is a word among those that `knobharbor_show` fills for C.
fn put_kind(out: &mut Out, at: usize, kind: u64) -> usize
    requires { at + 2 ≤ 8192 }
    ensures put { Put out.old out.new at result (kind_text kind) }
    ensures upper_bound { result ≤ at + 2 }
{
    if kind == 0 {
        return put_text(out, at, b"le");
    }
    if kind == 1 {
        return put_text(out, at, b"eq");
    }
    put_text(out, at, b"ge")
}

fn put_head(out: &mut Out, at: usize, words: &[u64; 6], reals: &[f64; 2]) -> usize
    requires { at + 82 ≤ 8192 }
    ensures put { Put out.old out.new at result (head_text words.now reals.now) }
    ensures upper_bound { result ≤ at + 82 }
{
    let i = put_kind(out, at, words[3]);
    let j = put_float(out, i, reals[1]);
    let k = put_number(out, j, words[5]);
    let l = put_float(out, k, reals[0]);
    put_number(out, l, words[4])
}

fn put_term(out: &mut Out, at: usize, v: u32, k: f64) -> usize
    requires { at + 40 ≤ 8192 }
    ensures put { Put out.old out.new at result (term_text v k) }
    ensures upper_bound { result ≤ at + 40 }
{
    let i = put_number(out, at, v as u64);
    put_float(out, i, k)
}

// (No twin of the one in `replies`: the numbers have other types, and each term another text.)
fn put_terms(
    out: &mut Out,
    at: usize,
    variables: &[u32; 16],
    coefficients: &[f64; 16],
    n: u64,
) -> usize
    requires n_bound { n ≤ 16 }
    requires at_bound { at + 640 ≤ 8192 }
    ensures put { Put out.old out.new at result (terms_in n variables.now coefficients.now) }
    ensures upper_bound { result ≤ at + 640 }
{
    let mut next = at;
    for i in 0..n as usize {
        next = put_term(out, next, variables[i], coefficients[i]);
    }
    next
}

fn put_line(
    out: &mut Out,
    at: usize,
    words: &[u64; 6],
    reals: &[f64; 2],
    variables: &[u32; 16],
    coefficients: &[f64; 16],
) -> usize
    requires words_bound { slice_index words.now 4 ≤ 16 }
    requires at_bound { at + 722 ≤ 8192 }
    ensures put { Put out.old out.new at result (line_text words.now reals.now variables.now coefficients.now) }
    ensures upper_bound { result ≤ at + 722 }
{
    let i = put_head(out, at, words, reals);
    put_terms(out, i, variables, coefficients, words[4])
}

fn put_no(out: &mut Out, at: usize, number: u64) -> usize
    requires { at + 23 ≤ 8192 }
    ensures put { Put out.old out.new at result (no_text number) }
    ensures upper_bound { result ≤ at + 23 }
{
    let i = put_text(out, at, b"no");
    put_number(out, i, number)
}

// What `show C` is answered.
pub fn put_shown(
    out: &mut Out,
    at: usize,
    words: &[u64; 6],
    reals: &[f64; 2],
    variables: &[u32; 16],
    coefficients: &[f64; 16],
) -> usize
    requires words_bound { slice_index words.now 4 ≤ 16 }
    requires at_bound { at + 722 ≤ 8192 }
    ensures put { Put out.old out.new at result (shown_text words.now reals.now variables.now coefficients.now) }
    ensures upper_bound { result ≤ at + 722 }
{
    let number = words[1];
    if number == 0 {
        return put_line(out, at, words, reals, variables, coefficients);
    }
    put_no(out, at, number)
}
