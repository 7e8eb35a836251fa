// What a line is answered: its constraint, or a refusal.
// "The reading is the constraint of the left side minus the right, like terms summed, zero ones dropped, ascending by variable."
// "`2*(v1 + 3) <= v2` reads as 2 v1 - v2 + 6 at most 0."
// "then, first met from the left: 20 not in the grammar, with the offset"
ghost use Rattle.std.specs.Prelude.{◌≡◌, ◌≤◌, ◌<◌};
ghost use Rattle.reader.specs.sums.Held.{held};
ghost use Rattle.grammar.specs.Sums.{judged, summed};
ghost use Rattle.grammar.specs.Reader.{read_line};
ghost use Rattle.reader.specs.Sides.{relation_of};
ghost use Rattle.reader.specs.Parts.{sums_of};
ghost use Rattle.reader.specs.Answers.{big_at, kept_with, kept_of, shown, as_read};

use crate::fault::Refusal;
use crate::parts::Place;
use crate::sides::{Mark, whole_line};
use crate::sums::{Numbers, Sums, ZERO};

// The constant and the coefficients stand as what they are above ZERO, as in the tables; past the count the variables are 0 and the
// coefficients 0, that is ZERO.
#[derive(Clone, Copy)]
pub struct Constraint {
    pub relation: Mark,
    pub constant: u64,
    pub count: usize,
    pub variables: [u32; 16],
    pub coefficients: [u64; 16],
}

// The terms that are not zero, the first 16 of them, and whether one is too large. (`big` is no error with a value beside it: the terms are
// kept and counted either way, and `finish` judges the constant with them.)
#[derive(Clone, Copy)]
pub struct Kept {
    pub big: bool,
    pub count: usize,
    pub variables: [u32; 16],
    pub coefficients: [u64; 16],
}

// "above 1,048,576 in size"
fn is_big(x: u64) -> bool
    ensures { result ≡ big_at x }
{
    (x < 9007199253692416) | (9007199255789568 < x)
}

// One more term.
fn keep(k: Kept, v: u32, x: u64) -> Kept
    requires { k.count ≤ 4096 }
    ensures { result ≡ kept_with k v x }
{
    if x == ZERO {
        return k;
    }
    let big = k.big | is_big(x);
    let n = k.count;
    let mut variables = k.variables;
    let mut coefficients = k.coefficients;
    if n < 16 {
        variables[n] = v;
        coefficients[n] = x;
    }
    Kept {
        big,
        count: n + 1,
        variables,
        coefficients,
    }
}

fn keep_all(numbers: &Numbers, sums: &Sums, count: usize) -> Kept
    requires { count ≤ 1366 }
    ensures { result ≡ kept_of (held numbers.now sums.now count) }
{
    let mut k = Kept {
        big: false,
        count: 0,
        variables: [0u32; 16],
        coefficients: [ZERO; 16],
    };
    for i in 0..count {
        k = keep(k, numbers[i], sums[i]);
    }
    k
}

// "once the whole line reads, 22 a summed coefficient or constant above 1,048,576 in size, then 23 more than 16 variables"
pub fn finish(numbers: &Numbers, sums: &Sums, m: Mark, p: Place) -> Result<Constraint, Refusal>
    requires { p.count ≤ 1366 }
    ensures { shown result ≡ as_read (judged (summed (relation_of m) (sums_of numbers.now sums.now p))) }
{
    let k = keep_all(numbers, sums, p.count);
    if is_big(p.constant) || k.big {
        return Err(Refusal::TooLarge);
    }
    if 16 < k.count {
        return Err(Refusal::TooManyVariables);
    }
    let variables = k.variables;
    let coefficients = k.coefficients;
    Ok(Constraint {
        relation: m,
        constant: p.constant,
        count: k.count,
        variables,
        coefficients,
    })
}

// "Read one line of at most 4,096 bytes: a sum, one of `<=`, `=`, `>=`, a sum."
// "19 a longer line"
pub fn read_line(s: &[u8]) -> Result<Constraint, Refusal>
    ensures { shown result ≡ as_read (read_line s.now) }
{
    if 4096 < s.len() {
        return Err(Refusal::TooLong);
    }
    let mut numbers = [0u32; 1366];
    let mut sums = [0u64; 1366];
    match whole_line(s, &mut numbers, &mut sums) {
        Ok((m, p)) => finish(&numbers, &sums, m, p),
        Err(f) => Err(Refusal::from(f)),
    }
}
