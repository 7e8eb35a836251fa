// Sums and parts, which call each other: only a bracket goes deeper.
// "A sum is parts joined by `+` or `-`."
// "A part is a whole number, a variable `v` with digits, a number `*` a part, `-` a part, or a sum in brackets, so a part may hold a sum that holds parts again, up to 16 levels of brackets."
ghost use Rattle.std.specs.Prelude.{◌≡◌, ◌≤◌, length};
ghost use Rattle.grammar.specs.Reader.{read_part, read_sum};
ghost use Rattle.reader.specs.Heads.{factor_of};
ghost use Rattle.reader.specs.Parts.{sums_of, outcome_of, later, Ready, Sound, Ended, CloseIs, JointIs};

use crate::fault::Fault;
use crate::heads::{Kind, head_at};
use crate::scan::{byte_at, skip};
use crate::sums::{Factor, Numbers, Sums, add_term, with};

// How far the line is read, whether it may end there (no space behind a digit), the places in use of the tables, and the constant so far.
#[derive(Clone, Copy)]
pub struct Place {
    pub at: usize,
    pub bare: bool,
    pub count: usize,
    pub constant: u64,
}

impl Place {
    // What was read, up to a place further on.
    pub fn behind(self, at: usize, bare: bool) -> Place
        ensures { result ≡ later self at bare }
    {
        Place { at, bare, ..self }
    }
}

// What stands over a part, and the brackets that may still be opened.
#[derive(Clone, Copy)]
pub struct Over {
    pub factor: Factor,
    pub left: usize,
}

// The mark that joins the next part: the place behind it, and the part's sign; or the place where the sum ends. (Neither is an error.)
#[derive(Clone, Copy)]
pub enum Joint {
    On(usize, bool),
    Last(usize),
}

fn joint_at(s: &[u8], at: usize, minus: bool) -> Joint
    requires { at ≤ length s.now }
    ensures { JointIs s.now at minus result }
{
    let mark = skip(s, at);
    let b = byte_at(s, mark);
    if b == b'+' {
        return Joint::On(mark + 1, minus);
    }
    if b == b'-' {
        return Joint::On(mark + 1, !minus);
    }
    Joint::Last(mark)
}

// Behind a sum in brackets: `)`, and spaces.
fn close(s: &[u8], q: Place) -> Result<Place, Fault>
    requires { q.at ≤ length s.now }
    ensures { CloseIs s.now q result }
{
    let mark = skip(s, q.at);
    if byte_at(s, mark) == b')' {
        let at = skip(s, mark + 1);
        return Ok(q.behind(at, true));
    }
    Err(Fault::Astray(mark))
}

#[cycle(part_sum)]
pub fn part(
    s: &[u8],
    numbers: &mut Numbers,
    sums: &mut Sums,
    p: Place,
    o: Over,
) -> Result<Place, Fault>
    requires at_in_bounds { (p.at ≤ length s.now) × (length s.now ≤ 4096) × (o.factor.product ≤ 1048576) }
    requires ready { Ready numbers.old sums.old p }
    ensures result_after { outcome_of numbers.new sums.new result ≡ read_part s.now p.at o.left (factor_of o.factor) (sums_of numbers.old sums.old p) }
    ensures sound { Sound s.now p.at numbers.new sums.new result }
{
    let h = head_at(s, p.at, o.factor)?;
    let f = h.factor;
    match h.kind {
        Kind::Number(n, at, bare) => {
            let constant = with(p.constant, f.minus, f.product * n);
            let q = p.behind(at, bare);
            Ok(Place { constant, ..q })
        }
        Kind::Variable(v, at, bare) => {
            let count = add_term(numbers, sums, p.count, v, f);
            let q = p.behind(at, bare);
            Ok(Place { count, ..q })
        }
        Kind::Open(b) => {
            if o.left == 0 {
                return Err(Fault::TooDeep(b));
            }
            let q = p.behind(b + 1, true);
            let left = o.left - 1;
            let inner = sum(s, numbers, sums, q, Over { factor: f, left })?;
            close(s, inner)
        }
    }
}

#[cycle(part_sum)]
pub fn sum(
    s: &[u8],
    numbers: &mut Numbers,
    sums: &mut Sums,
    p: Place,
    o: Over,
) -> Result<Place, Fault>
    requires at_in_bounds { (p.at ≤ length s.now) × (length s.now ≤ 4096) × (o.factor.product ≤ 1048576) }
    requires ready { Ready numbers.old sums.old p }
    ensures result_after { outcome_of numbers.new sums.new result ≡ read_sum s.now p.at o.left (factor_of o.factor) (sums_of numbers.old sums.old p) }
    ensures sound { Sound s.now p.at numbers.new sums.new result }
    ensures ended { Ended s.now result }
{
    let mut q = p;
    let mut f = o.factor;
    loop {
        let e = part(
            s,
            numbers,
            sums,
            q,
            Over {
                factor: f,
                left: o.left,
            },
        )?;
        match joint_at(s, e.at, o.factor.minus) {
            Joint::On(at, minus) => {
                f = Factor { minus, ..o.factor };
                q = e.behind(at, true);
            }
            Joint::Last(at) => {
                return Ok(Place { at, ..e });
            }
        }
    }
}
