// A part up to what it ends in: minus signs and multipliers are read in a loop.
// "22 a number, or a product of multipliers over a part, above 1,048,576, or a variable number above 4,294,967,295"
ghost use Rattle.std.specs.Prelude.{◌≡◌, ◌≤◌, get_or, length};
ghost use Rattle.reader.specs.Heads.{Unmarked, VariableIs, HeadIs, TurnIs, factor_of};

use crate::fault::Fault;
use crate::scan::{byte_at, number_at, skip};
use crate::sums::Factor;

// What a part ends in: a number or a variable, with the place behind it and its spaces, and whether none stand there; or a bracket's place.
#[derive(Clone, Copy)]
pub enum Kind {
    Number(u64, usize, bool),
    Variable(u32, usize, bool),
    Open(usize),
}

// What a part comes to, and what stands over it.
#[derive(Clone, Copy)]
pub struct Head {
    pub factor: Factor,
    pub kind: Kind,
}

// The part's head; or behind a minus or a multiplier the part goes on.
#[derive(Clone, Copy)]
enum Turn {
    Ends(Head),
    GoesOn(usize, Factor),
}

// Behind `v`.
fn variable(s: &[u8], at: usize) -> Result<Kind, Fault>
    requires { at ≤ length s.now }
    ensures { VariableIs s.now at result }
{
    let (n, next) = number_at(s, at, 4294967295)?;
    let mark = skip(s, next);
    Ok(Kind::Variable(n as u32, mark, mark == next))
}

// A digit must stand there. With a `*` behind it the number is a multiplier.
fn number(s: &[u8], at: usize, f: Factor) -> Result<Turn, Fault>
    requires at_in_bounds { at ≤ length s.now }
    requires unmarked { Unmarked (get_or s.now at 0) }
    requires product_bound { f.product ≤ 1048576 }
    ensures { TurnIs s.now at (factor_of f) result }
{
    let (n, next) = number_at(s, at, 1048576)?;
    let mark = skip(s, next);
    if byte_at(s, mark) == b'*' {
        let k = f.product * n;
        if 1048576 < k {
            return Err(Fault::TooLarge(mark));
        }
        return Ok(Turn::GoesOn(mark + 1, Factor { product: k, ..f }));
    }
    Ok(Turn::Ends(Head {
        factor: f,
        kind: Kind::Number(n, mark, mark == next),
    }))
}

// One minus, one multiplier, or what the part ends in.
fn step(s: &[u8], at: usize, f: Factor) -> Result<Turn, Fault>
    requires at_in_bounds { at ≤ length s.now }
    requires product_bound { f.product ≤ 1048576 }
    ensures { TurnIs s.now at (factor_of f) result }
{
    let i = skip(s, at);
    let b = byte_at(s, i);
    if b == b'-' {
        let minus = !f.minus;
        return Ok(Turn::GoesOn(i + 1, Factor { minus, ..f }));
    }
    if b == b'(' {
        return Ok(Turn::Ends(Head {
            factor: f,
            kind: Kind::Open(i),
        }));
    }
    if b == b'v' {
        let kind = variable(s, i + 1)?;
        return Ok(Turn::Ends(Head { factor: f, kind }));
    }
    number(s, i, f)
}

pub fn head_at(s: &[u8], at: usize, f: Factor) -> Result<Head, Fault>
    requires at_in_bounds { at ≤ length s.now }
    requires product_bound { f.product ≤ 1048576 }
    ensures { HeadIs s.now at (factor_of f) result }
{
    let mut i = at;
    let mut g = f;
    loop {
        match step(s, i, g)? {
            Turn::Ends(h) => {
                return Ok(h);
            }
            Turn::GoesOn(next, over) => {
                i = next;
                g = over;
            }
        }
    }
}
