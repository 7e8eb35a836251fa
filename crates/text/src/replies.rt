// The answer to a line as text, written into a buffer from a place on; each function answers the next place.
ghost use Rattle.std.specs.Prelude.{◌≡◌, ◌+◌, ◌<◌, ◌≤◌, [], ◌∷◌, ◌++◌, Ok};
ghost use Rattle.reader.specs.second.Replies.{answered};
ghost use Rattle.text.specs.Put.{Put};
ghost use Rattle.text.specs.replies.Replies.{few_of, signed_text, term_text, terms_text, relation_text, refusal_text, head_text, reading_text, numbered_by, result_text, usual_of};

pub use crate::buffer::Out;
use crate::buffer::{put_byte, put_number, put_text};
use reader::answers::Constraint;
use reader::fault::Refusal;
use reader::second::Weighted;
use reader::second::endings::REQUIRED;
use reader::sides::Mark;

const ZERO: u64 = 9007199254740992;

// A refusal as it is written, whatever its number: 20 with the offset.
#[derive(Clone, Copy)]
pub struct Numbered {
    pub number: u32,
    pub offset: usize,
}

impl From<Refusal> for Numbered {
    ghost from_gives = { λ r n. n ≡ numbered_by r };

    fn from(r: Refusal) -> Numbered {
        Numbered {
            number: r.number(),
            offset: r.offset(),
        }
    }
}

// A whole number, which stands as what it is above ZERO.
fn put_signed(out: &mut Out, at: usize, x: u64) -> usize
    requires { at + 21 ≤ 8192 }
    ensures put { Put out.old out.new at result (signed_text x) }
    ensures upper_bound { result ≤ at + 21 }
{
    if x < ZERO {
        let i = put_byte(out, at, b'-');
        return put_number(out, i, ZERO - x);
    }
    put_number(out, at, x - ZERO)
}

fn put_term(out: &mut Out, at: usize, v: u32, k: u64) -> usize
    requires { at + 43 ≤ 8192 }
    ensures put { Put out.old out.new at result (term_text v k) }
    ensures upper_bound { result ≤ at + 43 }
{
    let i = put_byte(out, at, b' ');
    let j = put_number(out, i, v as u64);
    let m = put_byte(out, j, b' ');
    put_signed(out, m, k)
}

fn put_terms(
    out: &mut Out,
    at: usize,
    variables: [u32; 16],
    coefficients: [u64; 16],
    n: usize,
) -> usize
    requires n_bound { n ≤ 16 }
    requires at_bound { at + 688 ≤ 8192 }
    ensures put { Put out.old out.new at result (terms_text n variables coefficients) }
    ensures upper_bound { result ≤ at + 688 }
{
    let mut next = at;
    for i in 0..n {
        next = put_term(out, next, variables[i], coefficients[i]);
    }
    next
}

fn put_relation(out: &mut Out, at: usize, m: Mark) -> usize
    requires { at + 3 ≤ 8192 }
    ensures put { Put out.old out.new at result (relation_text m) }
    ensures upper_bound { result ≤ at + 3 }
{
    match m {
        Mark::AtMost => put_text(out, at, b"le "),
        Mark::Equal => put_text(out, at, b"eq "),
        Mark::AtLeast => put_text(out, at, b"ge "),
    }
}

fn put_refusal(out: &mut Out, at: usize, number: u32, offset: usize) -> usize
    requires { at + 44 ≤ 8192 }
    ensures put { Put out.old out.new at result (refusal_text number offset) }
    ensures upper_bound { result ≤ at + 44 }
{
    let i = put_text(out, at, b"no ");
    let j = put_number(out, i, number as u64);
    if number == 20 {
        let m = put_byte(out, j, b' ');
        return put_number(out, m, offset as u64);
    }
    j
}

fn put_head(
    out: &mut Out,
    at: usize,
    m: Mark,
    strength: u32,
    group: u16,
    constant: u64,
    count: usize,
) -> usize
    requires { at + 90 ≤ 8192 }
    ensures put { Put out.old out.new at result (head_text m strength group constant count) }
    ensures upper_bound { result ≤ at + 90 }
{
    let i = put_text(out, at, b"ok ");
    let j = put_relation(out, i, m);
    let k = put_number(out, j, strength as u64);
    let a = put_byte(out, k, b' ');
    let b = put_number(out, a, group as u64);
    let l = put_byte(out, b, b' ');
    let n = put_signed(out, l, constant);
    let o = put_byte(out, n, b' ');
    put_number(out, o, count as u64)
}

// A reading has room for 16 terms.
fn few(count: usize) -> usize
    ensures { (result ≡ few_of count) × (result ≤ 16) }
{
    count.min(16)
}

fn put_reading(out: &mut Out, at: usize, x: Weighted) -> usize
    requires { at + 778 ≤ 8192 }
    ensures put { Put out.old out.new at result (reading_text (answered (Ok x))) }
    ensures upper_bound { result ≤ at + 778 }
{
    let c = x.constraint;
    let m = c.relation;
    let variables = c.variables;
    let coefficients = c.coefficients;
    let n = few(c.count);
    let i = put_head(out, at, m, x.strength, x.group, c.constant, n);
    put_terms(out, i, variables, coefficients, n)
}

fn put_reply(out: &mut Out, at: usize, x: Result<Weighted, Numbered>) -> usize
    requires { at + 778 ≤ 8192 }
    ensures put { Put out.old out.new at result (result_text x) }
    ensures upper_bound { result ≤ at + 778 }
{
    match x {
        Ok(x) => put_reading(out, at, x),
        Err(n) => put_refusal(out, at, n.number, n.offset),
    }
}

// An answer of the second edition and its newline.
pub fn put_second(out: &mut Out, at: usize, x: Result<Weighted, Numbered>) -> usize
    requires { at ≤ 7000 }
    ensures put { Put out.old out.new at result (result_text x ++ (10 ∷ [])) }
    ensures upper_bound { result ≤ 8192 }
{
    let i = put_reply(out, at, x);
    put_byte(out, i, 10)
}

// An answer of the first edition, which says neither strength nor group, and its newline.
pub fn put_line(out: &mut Out, at: usize, r: Result<Constraint, Numbered>) -> usize
    requires { at ≤ 7000 }
    ensures put { Put out.old out.new at result (result_text (usual_of r) ++ (10 ∷ [])) }
    ensures upper_bound { result ≤ 8192 }
{
    match r {
        Ok(constraint) => {
            let x = Weighted {
                constraint,
                strength: REQUIRED as u32,
                group: 1,
            };
            put_second(out, at, Ok(x))
        }
        Err(n) => put_second(out, at, Err(n)),
    }
}
