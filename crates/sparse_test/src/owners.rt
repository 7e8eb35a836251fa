// The owners' part of the test: a table has a code for each place, and each variable and each tag claims its symbols' places there.
ghost use Rattle.std.specs.Prelude.{◌≡◌, Bool, true, ◌&&◌, ◌+◌, ◌≤◌, eqb, get_or, replicate};
ghost use Rattle.laws.specs.Lists.{all_in};
ghost use Rattle.layout.specs.cells.Names.{last_place, place_room};
ghost use Rattle.sparse.specs.Places.{most_variables, most_constraints, changed_at};
ghost use Rattle.rows.specs.places.Shares.{shares};
ghost use Rattle.sparse_test.specs.Stretch.{most_in};
ghost use Rattle.sparse_test.specs.Tested.{code_of, codes, claim, claim_other, marker_code, softly, claim_variables, claim_constraints, claim_edits, constraint_fits, edit_fits, claimed, owned_fit};

use crate::stretch::each;
use layout::cells::PLACE_ROOM;
use sparse::{Bytes, Reals};

// The strength from which on a constraint is required.
const REQUIRED: f64 = 1001001000.0;

// No symbol's place, or none that a cell may have.
const SHUT: u8 = 9;

// A kind's code is one more, since 0 is the code of a place that is claimed. (A byte, and no enum: the table of codes is one of bytes, and `open_in`, under `reads`, sums them.)
fn code_of(kind: u8) -> u8
    ensures { result ≡ code_of kind }
{
    if kind <= 3 { kind + 1 } else { SHUT }
}

pub fn no_codes() -> [u8; PLACE_ROOM]
    ensures { result ≡ replicate place_room 9 }
{
    [SHUT; PLACE_ROOM]
}

pub fn fill_codes(table: &mut [u8; PLACE_ROOM], bytes: &Bytes, k: usize)
    requires k_le_last_place { k ≤ last_place }
    requires table_value { table.old ≡ replicate place_room 9 }
    ensures { table.new ≡ codes bytes.now k }
{
    for i in 0..k {
        let p = i + 1;
        table[p] = code_of(bytes[sparse::KINDS + p]);
    }
}

// Whether the place p has the code x; it is claimed then.
fn claim(table: &mut [u8; PLACE_ROOM], p: u8, x: u8) -> bool
    ensures { (ok : Bool) → shares table.new (ok && result) ≡ claim p x (shares table.old ok) }
{
    let i = usize::from(p);
    let y = table[i];
    table[i] = 0;
    y == x
}

// A tag's other symbol is an Error.
fn claim_other(table: &mut [u8; PLACE_ROOM], p: u8) -> bool
    ensures { (ok : Bool) → shares table.new (ok && result) ≡ claim_other p (shares table.old ok) }
{
    if p == 0 {
        return true;
    }
    claim(table, p, 3)
}

fn claim_tag(table: &mut [u8; PLACE_ROOM], m: u8, x: u8, o: u8) -> bool
    ensures { (ok : Bool) → shares table.new (ok && result) ≡ claim_other o (claim m x (shares table.old ok)) }
{
    let marker = claim(table, m, x);
    marker & claim_other(table, o)
}

// External symbols; "changed" is a flag.
fn claim_variables(table: &mut [u8; PLACE_ROOM], bytes: &Bytes, v: usize) -> bool
    requires { v ≤ most_variables }
    ensures table_after { table.new ≡ (claim_variables bytes.now v (shares table.old true)).left }
    ensures value { result ≡ ((claim_variables bytes.now v (shares table.old true)).ok && most_in bytes.now changed_at v 1) }
{
    let mut ok = true;
    let mut fits = true;
    for i in 0..v {
        ok &= claim(table, bytes[sparse::VARIABLE_PLACES + i], 1);
        fits &= bytes[sparse::CHANGED + i] <= 1;
    }
    ok & fits
}

// An inequality's marker is its slack; an equality's is an Error, or a Dummy where there is no other symbol.
fn marker_code(relation: u8, other: u8) -> u8
    ensures { result ≡ marker_code relation other }
{
    if relation == 1 {
        if other == 0 { 4 } else { 3 }
    } else {
        2
    }
}

// There is no other symbol exactly if the constraint is required; an equality's Errors are two.
fn strength_fits(strength: f64, other: u8) -> bool
    ensures { result ≡ softly strength other }
{
    if other == 0 {
        !(strength < REQUIRED)
    } else {
        strength < REQUIRED
    }
}

fn claim_constraints(table: &mut [u8; PLACE_ROOM], bytes: &Bytes, reals: &Reals, c: usize) -> bool
    requires { c ≤ most_constraints }
    ensures table_after { table.new ≡ (claim_constraints bytes.now c (shares table.old true)).left }
    ensures value { result ≡ ((claim_constraints bytes.now c (shares table.old true)).ok && constraint_fits bytes.now reals.now c) }
{
    let mut ok = true;
    let mut fits = true;
    for i in 0..c {
        let o = bytes[sparse::CONSTRAINT_OTHERS + i];
        let relation = bytes[sparse::RELATIONS + i];
        let x = marker_code(relation, o);
        ok &= claim_tag(table, bytes[sparse::CONSTRAINT_MARKERS + i], x, o);
        let soft = strength_fits(reals[sparse::CONSTRAINT_STRENGTHS + i], o);
        fits &= soft & (relation <= 2);
    }
    ok & fits
}

// Two Errors each.
fn claim_edits(table: &mut [u8; PLACE_ROOM], bytes: &Bytes, reals: &Reals, e: usize) -> bool
    requires { e ≤ most_constraints }
    ensures table_after { table.new ≡ (claim_edits bytes.now e (shares table.old true)).left }
    ensures value { result ≡ ((claim_edits bytes.now e (shares table.old true)).ok && edit_fits bytes.now reals.now e) }
{
    let mut ok = true;
    let mut fits = true;
    for i in 0..e {
        let o = bytes[sparse::EDIT_OTHERS + i];
        ok &= claim_tag(table, bytes[sparse::EDIT_MARKERS + i], 3, o);
        fits &= (reals[sparse::EDIT_STRENGTHS + i] < REQUIRED) & (o != 0);
    }
    ok & fits
}

fn all_claimed(table: &[u8; PLACE_ROOM], k: usize) -> bool
    requires { k ≤ last_place }
    ensures { result ≡ all_in (λ i. eqb (get_or table.now (1 + i) 0) 0) 0 k }
{
    each(0, k, |i| table[1 + i] == 0)
}

pub fn owned_fit(
    table: &mut [u8; PLACE_ROOM],
    bytes: &Bytes,
    reals: &Reals,
    k: usize,
    v: usize,
    c: usize,
    e: usize,
) -> bool
    requires k_le_last_place { k ≤ last_place }
    requires v_le_most_variables { v ≤ most_variables }
    requires c_le_most_constraints { c ≤ most_constraints }
    requires e_le_most_constraints { e ≤ most_constraints }
    requires table_value { table.old ≡ codes bytes.now k }
    ensures table_after { table.new ≡ claimed bytes.now k v c e }
    ensures value { result ≡ owned_fit bytes.now reals.now k v c e }
{
    let variables = claim_variables(table, bytes, v);
    let constraints = claim_constraints(table, bytes, reals, c);
    let edits = claim_edits(table, bytes, reals, e);
    variables & constraints & edits & all_claimed(table, k)
}
