// The parts of a line, one after the other, each in its plain form.
ghost use Rattle.std.specs.Prelude.{◌≡◌, ◌≤◌, [], ◌∷◌, ◌++◌};
ghost use Rattle.grammar.specs.plain.Decimal.{decimal};
ghost use Rattle.grammar.specs.plain.Plain.{size_text, ending_text};
ghost use Rattle.writing.specs.Buffer.{Adds};
ghost use Rattle.writing.specs.Texts.{sign_text, figure_text, up_to, const_text, relation_text, line_text};

use crate::buffer::{put, put_number};
use crate::figures::{Figure, REQUIRED, figure_of};
use changes::terms::Pack;

fn put_sign(out: &mut [u8], at: usize, negative: bool, first: bool) -> usize
    ensures { Adds out.old out.new at result (sign_text negative first) }
{
    if negative {
        return put(out, at, b'-');
    }
    if first {
        return at;
    }
    put(out, at, b'+')
}

// "In a coefficient a size of 1 is left out."
fn put_size(out: &mut [u8], at: usize, n: u64) -> usize
    ensures { Adds out.old out.new at result (size_text n) }
{
    if n == 1 {
        return at;
    }
    let next = put_number(out, at, n);
    put(out, next, b'*')
}

fn put_term(out: &mut [u8], at: usize, f: Figure, v: u32, first: bool) -> usize
    ensures { Adds out.old out.new at result (figure_text f v first) }
{
    let a = put_sign(out, at, f.negative, first);
    let b = put_size(out, a, f.size);
    let c = put(out, b, b'v');
    put_number(out, c, v as u64)
}

fn put_terms(out: &mut [u8], at: usize, p: Pack, n: usize) -> usize
    requires { n ≤ 16 }
    ensures { Adds out.old out.new at result (up_to p.vars p.coefs n) }
{
    let vars = p.vars;
    let coefs = p.coefs;
    let mut next = at;
    for i in 0..n {
        let f = figure_of(coefs[i]);
        next = put_term(out, next, f, vars[i], i == 0);
    }
    next
}

// "then the constant unless it is zero and terms stand"
fn put_constant(out: &mut [u8], at: usize, f: Figure, alone: bool) -> usize
    ensures { Adds out.old out.new at result (const_text f alone) }
{
    if !alone & (f.size == 0) {
        return at;
    }
    let next = put_sign(out, at, f.negative, alone);
    put_number(out, next, f.size)
}

// A mark's first byte says which it is.
fn put_relation(out: &mut [u8], at: usize, mark: u8) -> usize
    ensures { Adds out.old out.new at result (relation_text mark) }
{
    if mark == b'=' {
        return put(out, at, b'=');
    }
    let next = put(out, at, mark);
    put(out, next, b'=')
}

// "the ending unless it is required and group 1"
fn put_ending(out: &mut [u8], at: usize, strength: u64, group: u16) -> usize
    ensures { Adds out.old out.new at result (ending_text strength group) }
{
    if (strength == REQUIRED) & (group == 1) {
        return at;
    }
    let a = put(out, at, b'@');
    let b = put_number(out, a, strength);
    let c = put(out, b, b',');
    put_number(out, c, group as u64)
}

// The whole line, from the buffer's start.
pub fn put_line(
    out: &mut [u8],
    p: Pack,
    n: usize,
    constant: Figure,
    mark: u8,
    strength: u64,
    group: u16,
) -> usize
    requires { n ≤ 16 }
    ensures { Adds out.old out.new 0 result (line_text p.vars p.coefs n constant mark strength group) }
{
    let a = put_terms(out, 0, p, n);
    let b = put_constant(out, a, constant, n == 0);
    let c = put_relation(out, b, mark);
    let d = put(out, c, b'0');
    put_ending(out, d, strength, group)
}
