// The terms and the relation of a constraint, as a caller in C hands them in.
ghost use Rattle.std.specs.Prelude.{◌≡◌, ◌≤◌, length};
ghost use Rattle.changes.specs.terms.Terms.{pack_of};
ghost use Rattle.changes.specs.tags.Tags.{relation_of};
ghost use Rattle.knobharbor.specs.Given.{given, relation_by};

use changes::tags::Relation;
use changes::terms::{Pack, Term};

pub fn gather(vars: &[u32], coefs: &[f64]) -> Pack
    requires { length vars.now ≤ length coefs.now }
    ensures { result ≡ pack_of (given vars.now coefs.now) }
{
    let mut p = changes::terms::none();
    for i in 0..vars.len() {
        let t = Term {
            variable: vars[i],
            coefficient: coefs[i],
        };
        p = changes::terms::push(p, t);
    }
    p
}

// The kind is a number as the caller in C has it.
pub fn relation(kind: u32, strength: f64) -> Relation
    ensures { relation_of result ≡ relation_by kind strength }
{
    if kind == 0 {
        return Relation::AtMost(strength);
    }
    if kind == 1 {
        return Relation::Equal(strength);
    }
    Relation::AtLeast(strength)
}
