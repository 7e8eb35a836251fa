// What a line can say.
ghost use Rattle.std.specs.Prelude.{◌≡◌, ◌≤◌};
ghost use Rattle.writing.specs.Given.{ok_figure, rises_at, all_up_to};
ghost use Rattle.writing.specs.Writes.{mark_in, strength_in, said_in};

use crate::figures::{Figure, REQUIRED, figure_of};
use changes::tags::Relation;
use changes::terms::Pack;

// "above 1,048,576 in size", of a coefficient and of the constant.
const MOST: u64 = 1048576;

const MOST_NAME: u32 = 4294967295;

// "a group from 1 to 65,535"
const MOST_GROUP: u16 = 65535;

// "more than 16 variables"
const MOST_TERMS: usize = 16;

// The first byte of a relation's mark.
pub fn mark_of(relation: Relation) -> u8
    ensures { result ≡ mark_in relation }
{
    match relation {
        Relation::AtMost(_) => b'<',
        Relation::Equal(_) => b'=',
        Relation::AtLeast(_) => b'>',
    }
}

pub fn strength_of(relation: Relation) -> f64
    ensures { result ≡ strength_in relation }
{
    match relation {
        Relation::AtMost(s) | Relation::Equal(s) | Relation::AtLeast(s) => s,
    }
}

fn figure_said(f: Figure, v: u32) -> bool
    ensures { result ≡ ok_figure f v }
{
    f.whole & !(f.size == 0) & (f.size <= MOST) & (v <= MOST_NAME)
}

fn rises_at(vars: [u32; 16], n: usize, i: usize) -> bool
    requires n_bound { n ≤ 16 }
    requires i_bound { i ≤ 15 }
    ensures { result ≡ rises_at vars n i }
{
    if i + 1 < n {
        return vars[i] < vars[i + 1];
    }
    true
}

fn terms_said(p: Pack, n: usize) -> bool
    requires { n ≤ 16 }
    ensures { result ≡ all_up_to p.vars p.coefs n n }
{
    let vars = p.vars;
    let coefs = p.coefs;
    let mut ok = true;
    for i in 0..n {
        let f = figure_of(coefs[i]);
        ok = ok & (figure_said(f, vars[i]) & rises_at(vars, n, i));
    }
    ok
}

pub fn said(p: Pack, constant: Figure, strength: Figure, group: u16) -> bool
    ensures { result ≡ said_in p constant strength group }
{
    if p.finite & (p.count <= MOST_TERMS) {
        let terms = terms_said(p, p.count);
        let number = constant.whole & (constant.size <= MOST);
        let strong = strength.whole & !strength.negative & (strength.size <= REQUIRED);
        return terms & number & strong & ((1 <= group) & (group <= MOST_GROUP));
    }
    false
}
