// A new constraint or edit comes in at its place by ascending number.
ghost use Rattle.std.specs.Prelude.{◌≡◌, ◌+◌, ◌<◌, ◌≤◌, get_or};
ghost use Rattle.laws.specs.Lists.{sum_in};
ghost use Rattle.layout.specs.Layout.{term_room};
ghost use Rattle.sparse.specs.Places.{most_constraints, most_terms, constraint_count_at, edit_count_at};
ghost use Rattle.stored.specs.Maps.{Names, Stores, counts_in};
ghost use Rattle.stored.specs.Put.{TermsPut, CoefficientsPut, ConstraintPut, EditPut, number_of, EditSought, ConstraintKept, EditKept};

use crate::moving::{move_records, terms_in};
use crate::parts::Plan;
use crate::places::{number_place, seek};
use changes::terms::Pack;
use sparse::{Bytes, Reals, Words};

// ---- a constraint

// The terms' variables from s on, each by the place of its symbol.
fn put_terms(words: &Words, bytes: &mut Bytes, s: usize, p: Pack)
    requires names { Names words.now bytes.old }
    requires count_le_term_room { p.count ≤ term_room }
    requires count_bound { s + p.count ≤ most_terms }
    ensures { TermsPut words.now p.vars s p.count bytes.old bytes.new }
{
    let n = p.count;
    let vars = p.vars;
    for j in 0..n {
        let x = number_place(words, bytes, vars[j] as u64);
        bytes[sparse::TERMS + (s + j)] = x;
    }
}

fn put_coefficients(reals: &mut Reals, s: usize, p: Pack)
    requires count_le_term_room { p.count ≤ term_room }
    requires count_bound { s + p.count ≤ most_terms }
    ensures { CoefficientsPut p.coefs s p.count reals.old reals.new }
{
    let n = p.count;
    let coefs = p.coefs;
    for j in 0..n {
        reals[sparse::COEFFICIENTS + (s + j)] = coefs[j];
    }
}

// A constraint as it is stored: its number and group, its two tag symbols by their places, its relation with its strength, and its terms and constant.
#[derive(Clone, Copy)]
pub struct ConstraintRecord {
    pub number: u32,
    pub group: u16,
    pub marker: u8,
    pub other: u8,
    pub relation: u8,
    pub strength: f64,
    pub constant: f64,
    pub terms: Pack,
}

// As the i-th, its terms from s on.
fn put_constraint(
    words: &mut Words,
    bytes: &mut Bytes,
    reals: &mut Reals,
    i: usize,
    s: usize,
    r: ConstraintRecord,
)
    requires names { Names words.old bytes.old }
    requires i_lt_most_constraints { i < most_constraints }
    requires count_le_term_room { r.terms.count ≤ term_room }
    requires count_bound { s + r.terms.count ≤ most_terms }
    ensures { ConstraintPut i s r.number r.group r.marker r.other r.relation r.strength r.constant r.terms words.old bytes.old reals.old words.new bytes.new reals.new }
{
    put_terms(words, bytes, s, r.terms);
    put_coefficients(reals, s, r.terms);
    words[sparse::CONSTRAINT_NUMBERS + i] = r.number as u64;
    words[sparse::CONSTRAINT_GROUPS + i] = r.group as u64;
    bytes[sparse::CONSTRAINT_MARKERS + i] = r.marker;
    bytes[sparse::CONSTRAINT_OTHERS + i] = r.other;
    bytes[sparse::TERM_COUNTS + i] = r.terms.count as u8;
    bytes[sparse::RELATIONS + i] = r.relation;
    reals[sparse::CONSTRAINT_STRENGTHS + i] = r.strength;
    reals[sparse::CONSTRAINT_CONSTANTS + i] = r.constant;
}

// The room's own constraints are written over: those of the lent tables, and this one among them.
pub fn keep_constraint(
    words: &mut Words,
    bytes: &mut Bytes,
    reals: &mut Reals,
    fwords: &Words,
    fbytes: &Bytes,
    freals: &Reals,
    r: ConstraintRecord,
) -> usize
    requires stores { Stores fwords.now fbytes.now }
    requires stores_2 { Stores words.old bytes.old }
    requires count_le_term_room { r.terms.count ≤ term_room }
    requires constraint_count_at_bound { get_or fwords.now constraint_count_at 0 < most_constraints }
    requires count_bound { sum_in (counts_in fbytes.now) 0 (get_or fwords.now constraint_count_at 0) + r.terms.count ≤ most_terms }
    ensures { ConstraintKept r.number r.group r.marker r.other r.relation r.strength r.constant r.terms fwords.now fbytes.now freals.now words.old bytes.old reals.old words.new bytes.new reals.new result }
{
    let k = fwords[sparse::CONSTRAINT_COUNT] as usize;
    let i = seek(
        fwords,
        sparse::CONSTRAINT_NUMBERS,
        0,
        k,
        r.number as u64 + 1,
    );
    let s = terms_in(fbytes, 0, i);
    put_constraint(words, bytes, reals, i, s, r);
    let c = Plan::with_one(i, k);
    let e = Plan::all_of(fwords[sparse::EDIT_COUNT] as usize);
    move_records(
        words,
        bytes,
        reals,
        fwords,
        fbytes,
        freals,
        c,
        e,
        r.terms.count,
    )
}

// ---- an edit

// The number of the variable whose symbol stands at place p. (A loop: after a `find` of the place the same two cases would follow, a number or 0.)
fn number_of(words: &Words, bytes: &Bytes, p: u8) -> u64
    requires { Names words.now bytes.now }
    ensures { result ≡ number_of words.now bytes.now p }
{
    let e = words[sparse::VARIABLE_COUNT] as usize;
    for v in 0..e {
        if p == bytes[sparse::VARIABLE_PLACES + v] {
            return words[sparse::VARIABLE_NUMBERS + v];
        }
    }
    0
}

// The first edit whose variable's number is greater than n.
fn seek_edit(words: &Words, bytes: &Bytes, n: u64) -> usize
    requires { Stores words.now bytes.now }
    ensures { EditSought words.now bytes.now n result }
{
    let e = words[sparse::EDIT_COUNT] as usize;
    (0..e)
        .find(|j| n < number_of(words, bytes, bytes[sparse::EDIT_VARIABLES + *j]))
        .unwrap_or(e)
}

// As the i-th: "stored suggestion 0.0".
fn put_edit(
    words: &Words,
    bytes: &mut Bytes,
    reals: &mut Reals,
    i: usize,
    n: u64,
    marker: u8,
    other: u8,
    strength: f64,
)
    requires names { Names words.now bytes.old }
    requires i_lt_most_constraints { i < most_constraints }
    ensures { EditPut i n marker other strength words.now bytes.old reals.old bytes.new reals.new }
{
    let x = number_place(words, bytes, n);
    bytes[sparse::EDIT_VARIABLES + i] = x;
    bytes[sparse::EDIT_MARKERS + i] = marker;
    bytes[sparse::EDIT_OTHERS + i] = other;
    reals[sparse::EDIT_STRENGTHS + i] = strength;
    reals[sparse::SUGGESTIONS + i] = 0.0;
}

pub fn keep_edit(
    words: &mut Words,
    bytes: &mut Bytes,
    reals: &mut Reals,
    fwords: &Words,
    fbytes: &Bytes,
    freals: &Reals,
    n: u64,
    marker: u8,
    other: u8,
    strength: f64,
) -> usize
    requires stores { Stores fwords.now fbytes.now }
    requires stores_2 { Stores words.old bytes.old }
    requires edit_count_at_bound { get_or fwords.now edit_count_at 0 < most_constraints }
    ensures { EditKept n marker other strength fwords.now fbytes.now freals.now words.old bytes.old reals.old words.new bytes.new reals.new result }
{
    let k = fwords[sparse::EDIT_COUNT] as usize;
    let i = seek_edit(fwords, fbytes, n);
    put_edit(words, bytes, reals, i, n, marker, other, strength);
    let c = Plan::all_of(fwords[sparse::CONSTRAINT_COUNT] as usize);
    let e = Plan::with_one(i, k);
    move_records(words, bytes, reals, fwords, fbytes, freals, c, e, 0)
}
