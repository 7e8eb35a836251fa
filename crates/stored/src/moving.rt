// All records moved by plans; the terms go with their constraints.
ghost use Rattle.std.specs.Prelude.{◌≡◌, ◌+◌, ◌≤◌};
ghost use Rattle.laws.specs.Lists.{sum_in};
ghost use Rattle.sparse.specs.Places.{most_constraints, most_terms};
ghost use Rattle.stored.specs.Parts.{source_size, target_size};
ghost use Rattle.stored.specs.Maps.{Names, counts_in};
ghost use Rattle.stored.specs.Moved.{terms_plan, Moved};

use crate::carry::carry;
use crate::parts::Plan;
use crate::plans::Plans;
use sparse::{Bytes, Reals, Words};

// How many terms the constraints from i on, before e, have. (`sparse_test::term_count` is this sum from the first on: neither crate stands on the other, and
// each states the sum by a definition of its own.)
pub fn terms_in(bytes: &Bytes, i: usize, e: usize) -> usize
    requires i_le_e { i ≤ e }
    requires e_le_most_constraints { e ≤ most_constraints }
    ensures { result ≡ sum_in (counts_in bytes.now) i e }
{
    let mut s = 0;
    for j in i..e {
        s += usize::from(bytes[sparse::TERM_COUNTS + j]);
    }
    s
}

fn terms_plan(bytes: &Bytes, c: Plan, free: usize) -> Plan
    requires { source_size c ≤ most_constraints }
    ensures { result ≡ terms_plan (counts_in bytes.now) c free }
{
    let a = c.at;
    let b = a + c.drop;
    let e = b + c.rest;
    Plan {
        at: terms_in(bytes, 0, a),
        drop: terms_in(bytes, a, b),
        free,
        rest: terms_in(bytes, b, e),
    }
}

// c of the constraints, e of the edits; `free` terms are let in with a constraint.
pub fn move_records(
    words: &mut Words,
    bytes: &mut Bytes,
    reals: &mut Reals,
    fwords: &Words,
    fbytes: &Bytes,
    freals: &Reals,
    c: Plan,
    e: Plan,
    free: usize,
) -> usize
    requires names { Names fwords.now fbytes.now }
    requires names_2 { Names words.old bytes.old }
    requires c_bound { source_size c ≤ most_constraints }
    requires c_bound_2 { target_size c ≤ most_constraints }
    requires e_bound { source_size e ≤ most_constraints }
    requires e_bound_2 { target_size e ≤ most_constraints }
    requires free_bound { sum_in (counts_in fbytes.now) 0 (source_size c) + free ≤ most_terms }
    ensures { Moved c e free fwords.now fbytes.now freals.now words.old bytes.old reals.old words.new bytes.new reals.new result }
{
    let s = terms_plan(fbytes, c, free);
    let plans = Plans {
        constraints: c,
        terms: s,
        edits: e,
    };
    carry(words, bytes, reals, fwords, fbytes, freals, plans);
    s.at + s.free + s.rest
}
