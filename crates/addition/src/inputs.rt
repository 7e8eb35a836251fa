// Whether what a caller hands in is whole and within its bounds.
ghost use Rattle.std.specs.Prelude.{◌≡◌};
ghost use Rattle.steps.specs.Number.{worse, whole_if};
ghost use Rattle.steps.specs.State.{strength_of};
ghost use Rattle.steps.specs.Add.{whole_terms, whole_inputs};
ghost use Rattle.rows.specs.Marks.{mark_of};
ghost use Rattle.changes.specs.tags.Tags.{relation_of};
ghost use Rattle.changes.specs.terms.Terms.{terms_of};

use changes::tags::Relation;
use changes::terms::{Pack, shown};
use rows::number::{CELL_BOUND, CONSTANT_BOUND, Wrote, is_whole, joined, whole_within};

// "skipped coefficients too"
fn whole_terms(p: Pack) -> bool
    ensures { result ≡ whole_terms (terms_of p) }
{
    let n = shown(p);
    let coefs = p.coefs;
    let mut ok = true;
    for i in 0..n {
        ok = ok & whole_within(CELL_BOUND, coefs[i]);
    }
    ok
}

pub fn strength_of(relation: Relation) -> f64
    ensures { result ≡ strength_of (relation_of relation) }
{
    match relation {
        Relation::AtMost(s) => s,
        Relation::Equal(s) => s,
        Relation::AtLeast(s) => s,
    }
}

fn whole_inputs(p: Pack, constant: f64, relation: Relation) -> bool
    ensures { result ≡ whole_inputs (terms_of p) constant (relation_of relation) }
{
    let s = strength_of(relation);
    let terms = whole_terms(p);
    terms & whole_within(CONSTANT_BOUND, constant) & is_whole(s)
}

// The mark so far, and that of what is handed in.
pub fn mark_inputs(p: Pack, constant: f64, relation: Relation, before: Wrote) -> Wrote
    ensures { mark_of result ≡ worse (mark_of before) (whole_if (whole_inputs (terms_of p) constant (relation_of relation))) }
{
    let whole = whole_inputs(p, constant, relation);
    let given = Wrote {
        finite: true,
        whole,
    };
    joined(before, given)
}
