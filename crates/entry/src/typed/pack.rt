// What a line reads as, as an add takes it: whole numbers as f64, the terms as a pack, the relation with the required strength.
ghost use Rattle.std.specs.Prelude.{◌≡◌, ◌<◌, ◌≤◌, Ok};
ghost use Rattle.reader.specs.Answers.{shown};
ghost use Rattle.layout.specs.Copy.{most16};
ghost use Rattle.reader.specs.sums.Held.{value_of};
ghost use Rattle.reader.specs.Sides as sides;
ghost use Rattle.layout.specs.Layout.{term_room};
ghost use Rattle.changes.specs.tags.Tags.{relation_of};
ghost use Rattle.changes.specs.terms.Terms.{pack_of};
ghost use Rattle.entry.specs.typed.Typed.{whole_of, term_read, terms_read, required_by};

use changes::tags::Relation;
use changes::terms::{Pack, Term};
use layout::TERM_ROOM;
use reader::answers::Constraint;
use reader::sides::Mark;
use reader::sums::ZERO;

// A number that stands above ZERO.
pub fn whole(x: u64) -> f64
    ensures { result ≡ whole_of (value_of x) }
{
    if x < ZERO {
        return -std::num::nearest_u64_to_f64(ZERO - x);
    }
    std::num::nearest_u64_to_f64(x - ZERO)
}

pub fn required_by(m: Mark) -> Relation
    ensures { relation_of result ≡ required_by (sides.relation_of m) }
{
    match m {
        Mark::AtMost => Relation::AtMost(rows::strength::REQUIRED),
        Mark::Equal => Relation::Equal(rows::strength::REQUIRED),
        Mark::AtLeast => Relation::AtLeast(rows::strength::REQUIRED),
    }
}

// A line that reads has at most 16 terms.
fn shown(count: usize) -> usize
    ensures value { result ≡ most16 count }
    ensures upper_bound { result ≤ term_room }
{
    if count <= TERM_ROOM { count } else { TERM_ROOM }
}

fn term_of(r: &Constraint, i: usize) -> Term
    requires { i < term_room }
    ensures { result ≡ term_read (shown (Ok r.now)) i }
{
    Term {
        variable: r.variables[i],
        coefficient: whole(r.coefficients[i]),
    }
}

pub fn pack_of(r: &Constraint) -> Pack
    ensures { result ≡ pack_of (terms_read (shown (Ok r.now))) }
{
    let n = shown(r.count);
    let mut p = changes::terms::none();
    for i in 0..n {
        let t = term_of(r, i);
        p = changes::terms::push(p, t);
    }
    p
}
