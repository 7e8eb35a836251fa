// The terms that a caller hands in: a lent list of records, gathered into a pack that goes by value.
ghost use Rattle.std.specs.Prelude.{◌≡◌, ◌<◌, ◌≤◌, length, get_or};
ghost use Rattle.laws.specs.Loops.{run};
ghost use Rattle.layout.specs.Copy.{most16};
ghost use Rattle.layout.specs.Layout.{term_room};
ghost use Rattle.changes.specs.terms.Terms.{no_term, no_pack, pushed, pack_of, term_in, pushed_kept, kept_of, shown_in, listed};

use layout::TERM_ROOM;

// "A term is one record, a variable number and an f64 coefficient, and the terms of a constraint come as a lent list of such records."
#[repr(C)]
#[derive(Clone, Copy)]
pub struct Term {
    pub variable: u32,
    pub coefficient: f64,
}

// The first sixteen terms of a list; how many there are, 17 for more than 16; and whether every coefficient is finite, those past the sixteenth too.
// (Memory is fixed, so the count stands beside room for sixteen. A caller may fill one by hand, which docs/CLAIMS.md names, so the fields stay, and
// no invariant says that the count fits: whoever stores a pack requires it.)
#[derive(Clone, Copy)]
pub struct Pack {
    pub count: usize,
    pub finite: bool,
    pub vars: [u32; TERM_ROOM],
    pub coefs: [f64; TERM_ROOM],
}

pub fn term_at(terms: &[Term], i: usize) -> Term
    requires { i < length terms.now }
    ensures { result ≡ get_or terms.now i no_term }
{
    terms[i]
}

pub fn none() -> Pack
    ensures { result ≡ no_pack }
{
    Pack {
        count: 0,
        finite: true,
        vars: [0u32; TERM_ROOM],
        coefs: [0.0f64; TERM_ROOM],
    }
}

pub fn push(p: Pack, t: Term) -> Pack
    ensures { result ≡ pushed p t }
{
    let n = p.count;
    let mut q = p;
    q.finite = p.finite & rows::number::is_finite(t.coefficient);
    if n < TERM_ROOM {
        q.vars[n] = t.variable;
        q.coefs[n] = t.coefficient;
        q.count = n + 1;
        q
    } else {
        q.count = 17;
        q
    }
}

// "A thin entry over a slice of term structs that hands variable and coefficient to covered functions.": every term goes to `push`, in order.
pub fn collect(terms: &[Term]) -> Pack
    ensures { result ≡ pack_of terms.now }
{
    let mut p = none();
    for t in terms {
        p = push(p, *t);
    }
    p
}

// ---- over a pack

// The term at place i.
fn packed(p: Pack, i: usize) -> Term
    requires { i < term_room }
    ensures { result ≡ term_in p i }
{
    let vars = p.vars;
    let coefs = p.coefs;
    Term {
        variable: vars[i],
        coefficient: coefs[i],
    }
}

// How many terms the pack shows.
pub fn shown(p: Pack) -> usize
    ensures value { result ≡ most16 p.count }
    ensures upper_bound { result ≤ term_room }
{
    let n = p.count;
    if n <= TERM_ROOM { n } else { TERM_ROOM }
}

// What `put` makes of the terms that the pack shows, one by one, from no pack on.
fn gathered<F: Fn(Pack, Term) -> Pack>(p: Pack, put: F) -> Pack
    requires { F.IsAlwaysCallable put }
    ensures { (h : Pack → Term → Pack) → ((q : Pack) (t : Term) (r : Pack) → F.post put q t r → r ≡ h q t) → result ≡ run (λ j q. h q (term_in p j)) 0 (most16 p.count) no_pack }
{
    let mut q = none();
    for i in 0..shown(p) {
        let t = packed(p, i);
        q = put(q, t);
    }
    q
}

fn push_kept(cutoff: f64, p: Pack, t: Term) -> Pack
    ensures { result ≡ pushed_kept cutoff p t }
{
    if rows::number::near_zero(cutoff, t.coefficient) {
        p
    } else {
        push(p, t)
    }
}

// The terms that are not near zero.
pub fn kept(cutoff: f64, p: Pack) -> Pack
    ensures { result ≡ kept_of cutoff p }
{
    gathered(p, |q, t| push_kept(cutoff, q, t))
}

// ---- any pack, one filled by hand too

// The pack of its terms, the first sixteen where it counts more.
fn shown_again(p: Pack) -> Pack
    ensures { result ≡ pack_of (shown_in p) }
{
    gathered(p, push)
}

// The pack of the list that it stands for: what it says of its count and of its coefficients is said of terms.
pub fn proper(p: Pack) -> Pack
    ensures { result ≡ pack_of (listed p) }
{
    let q = shown_again(p);
    if !p.finite {
        return push(
            q,
            Term {
                variable: 0,
                coefficient: 0.0 / 0.0,
            },
        );
    }
    if p.count > TERM_ROOM {
        return push(
            q,
            Term {
                variable: 0,
                coefficient: 0.0,
            },
        );
    }
    q
}
