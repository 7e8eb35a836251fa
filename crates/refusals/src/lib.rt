// The tests before the steps, over the lent sparse tables' words, bytes and reals: 18 is the reading test's. A test gives the first refusal, in the document's order.
#![tactic(auto)]

pub mod gone;

ghost use Rattle.std.specs.Prelude.{◌≡◌, ℕ, ◌+◌, ◌<◌, ◌≤◌};
ghost use Rattle.layout.specs.Layout.{term_room};
ghost use Rattle.sparse.specs.Places.{most_variables, most_constraints, variable_numbers_at, constraint_numbers_at, words_size};
ghost use Rattle.sparse.specs.Lookup.{Ascends};
ghost use Rattle.sparse.specs.Refusals.{number_of, number_or};
ghost use Rattle.refusals.specs.Refusals.{variables_in, constraints_in, edits_in, live_in, edited_in, Tabled, group_place, group_in, is_first_of, new_at, new_in, constraints_full_in, variables_full_in, ids_used_in, room_refusal, input_refusal, add_refusal, edit_pack, add_edit_refusal, suggest_refusal, remove_refusal, remove_edit_refusal, drop_refusal};

use gone::{Taken, gone_full};
use sparse::lookup::look_up;
use sparse::refusal::Refusal;
use sparse::{Bytes, MOST_CONSTRAINTS, Reals, Words};

fn is_live(words: &Words, a: usize, c: usize, x: u64) -> bool
    requires c_bound { a + c ≤ words_size }
    requires ascends { Ascends words.now a c }
    ensures { result ≡ live_in words.now a c x }
{
    look_up(words, a, c, x) < c
}

fn is_edited(words: &Words, bytes: &Bytes, x: u64) -> bool
    requires words_bound { variables_in words.now ≤ most_variables }
    requires words_bound_2 { edits_in words.now ≤ most_constraints }
    requires ascends { Ascends words.now variable_numbers_at (variables_in words.now) }
    ensures { result ≡ edited_in words.now bytes.now x }
{
    let v = words[sparse::VARIABLE_COUNT] as usize;
    let e = words[sparse::EDIT_COUNT] as usize;
    sparse_test::asking::edit_in(words, bytes, v, e, x)
}

// Where the group's first constraint stands; how many constraints there are, if none is in it. Groups are in no order: they are walked.
pub fn group_place(words: &Words, g: u16) -> usize
    requires { constraints_in words.now ≤ most_constraints }
    ensures { result ≡ group_place words.now (constraints_in words.now) g }
{
    let c = words[sparse::CONSTRAINT_COUNT] as usize;
    for i in 0..c {
        if g as u64 == words[sparse::CONSTRAINT_GROUPS + i] {
            return i;
        }
    }
    c
}

pub fn group_lives(words: &Words, g: u16) -> bool
    requires { constraints_in words.now ≤ most_constraints }
    ensures { result ≡ group_in words.now (constraints_in words.now) g }
{
    group_place(words, g) < words[sparse::CONSTRAINT_COUNT] as usize
}

// ---- new variables

fn first_of(p: changes::terms::Pack, i: usize) -> bool
    requires { i < term_room }
    ensures { result ≡ is_first_of p i }
{
    let vars = p.vars;
    let x = vars[i];
    !vars[..i].contains(&x)
}

fn new_at(words: &Words, v: usize, p: changes::terms::Pack, i: usize) -> u64
    requires v_le_most_variables { v ≤ most_variables }
    requires i_lt_term_room { i < term_room }
    requires ascends { Ascends words.now variable_numbers_at v }
    ensures value { result ≡ new_at words.now v p i }
    ensures upper_bound { result ≤ 1 }
{
    let vars = p.vars;
    let x = vars[i];
    u64::from(!is_live(words, sparse::VARIABLE_NUMBERS, v, x as u64) & first_of(p, i))
}

fn new_variables(words: &Words, v: usize, p: changes::terms::Pack) -> u64
    requires v_le_most_variables { v ≤ most_variables }
    requires ascends { Ascends words.now variable_numbers_at v }
    ensures value { result ≡ new_in words.now v p }
    ensures upper_bound { result ≤ term_room }
{
    let e = changes::terms::shown(p);
    let mut s = 0;
    for i in 0..e {
        s += new_at(words, v, p, i);
    }
    s
}

// ---- the tests that Add and Add edit share

fn constraints_full(words: &Words) -> bool
    requires words_bound { constraints_in words.now ≤ most_constraints }
    requires words_bound_2 { edits_in words.now ≤ most_constraints }
    ensures { result ≡ constraints_full_in words.now }
{
    MOST_CONSTRAINTS as u64 <= words[sparse::CONSTRAINT_COUNT] + words[sparse::EDIT_COUNT]
}

fn variables_full(words: &Words, cutoff: f64, p: changes::terms::Pack) -> bool
    requires words_bound { variables_in words.now ≤ most_variables }
    requires ascends { Ascends words.now variable_numbers_at (variables_in words.now) }
    ensures { result ≡ variables_full_in cutoff words.now p }
{
    let v = words[sparse::VARIABLE_COUNT];
    let kept = changes::terms::kept(cutoff, p);
    (sparse::MOST_VARIABLES as u64) < v + new_variables(words, v as usize, kept)
}

fn ids_used(words: &Words) -> bool
    ensures { result ≡ ids_used_in words.now }
{
    4294900000 < words[sparse::NEXT_ID]
}

// "10, 9, 11"
fn room_tests(words: &Words, cutoff: f64, p: changes::terms::Pack) -> Result<(), Refusal>
    requires words_bound { variables_in words.now ≤ most_variables }
    requires words_bound_2 { constraints_in words.now ≤ most_constraints }
    requires words_bound_3 { edits_in words.now ≤ most_constraints }
    requires ascends { Ascends words.now variable_numbers_at (variables_in words.now) }
    ensures { number_of result ≡ room_refusal cutoff words.now p }
{
    if constraints_full(words) {
        return Err(Refusal::ConstraintsFull);
    }
    if variables_full(words, cutoff, p) {
        return Err(Refusal::VariablesFull);
    }
    if ids_used(words) {
        return Err(Refusal::IdsFull);
    }
    Ok(())
}

// ---- the tests of a call

// "1, 2, 3": what a caller hands in, before the tables are looked at.
fn input_tests(p: changes::terms::Pack, constant: f64, strength: f64) -> Result<(), Refusal>
    ensures { (rest : ℕ) → number_or rest result ≡ input_refusal p constant strength rest }
{
    let finite = p.finite & rows::number::is_finite(constant) & rows::number::is_finite(strength);
    if !finite {
        return Err(Refusal::NotFinite);
    }
    if strength < 0.0 {
        return Err(Refusal::NegativeStrength);
    }
    if p.count == 17 {
        return Err(Refusal::TooManyTerms);
    }
    Ok(())
}

// "Add: 18, 26, 1, 2, 3, 4, 10, 9, 11." The cutoff is the one that the tables hold.
pub fn add_tests(
    words: &Words,
    cutoff: f64,
    g: u16,
    n: u32,
    p: changes::terms::Pack,
    constant: f64,
    strength: f64,
) -> Result<(), Refusal>
    requires words_bound { variables_in words.now ≤ most_variables }
    requires words_bound_2 { constraints_in words.now ≤ most_constraints }
    requires words_bound_3 { edits_in words.now ≤ most_constraints }
    requires ascends { Ascends words.now variable_numbers_at (variables_in words.now) }
    requires ascends_2 { Ascends words.now constraint_numbers_at (constraints_in words.now) }
    ensures { number_of result ≡ add_refusal cutoff g n p constant strength words.now }
{
    if g == 0 {
        return Err(Refusal::GroupZero);
    }
    input_tests(p, constant, strength)?;
    let c = words[sparse::CONSTRAINT_COUNT] as usize;
    if is_live(words, sparse::CONSTRAINT_NUMBERS, c, n as u64) {
        return Err(Refusal::ConstraintLive);
    }
    room_tests(words, cutoff, p)
}

// The variable times 1, as a pack.
pub fn edit_pack(n: u32) -> changes::terms::Pack
    ensures { result ≡ edit_pack n }
{
    changes::terms::push(
        changes::terms::none(),
        changes::terms::Term {
            variable: n,
            coefficient: 1.0,
        },
    )
}

// "Add edit: 18, 6, 7, 10, 9, 11." The strength comes clipped.
pub fn add_edit_tests(
    words: &Words,
    bytes: &Bytes,
    cutoff: f64,
    n: u32,
    strength: f64,
) -> Result<(), Refusal>
    requires words_bound { variables_in words.now ≤ most_variables }
    requires words_bound_2 { constraints_in words.now ≤ most_constraints }
    requires words_bound_3 { edits_in words.now ≤ most_constraints }
    requires ascends { Ascends words.now variable_numbers_at (variables_in words.now) }
    ensures { number_of result ≡ add_edit_refusal cutoff n strength words.now bytes.now }
{
    if is_edited(words, bytes, n as u64) {
        return Err(Refusal::EditLive);
    }
    if strength == rows::strength::REQUIRED {
        return Err(Refusal::RequiredEdit);
    }
    room_tests(words, cutoff, edit_pack(n))
}

// "Suggest: 18, 1, 8."
pub fn suggest_tests(words: &Words, bytes: &Bytes, n: u32, new: f64) -> Result<(), Refusal>
    requires words_bound { variables_in words.now ≤ most_variables }
    requires words_bound_2 { edits_in words.now ≤ most_constraints }
    requires ascends { Ascends words.now variable_numbers_at (variables_in words.now) }
    ensures { number_of result ≡ suggest_refusal n new words.now bytes.now }
{
    if !rows::number::is_finite(new) {
        return Err(Refusal::NotFinite);
    }
    if !is_edited(words, bytes, n as u64) {
        return Err(Refusal::NoEdit);
    }
    Ok(())
}

// "Remove: 18, 5, 25."
pub fn remove_tests(words: &Words, bytes: &Bytes, reals: &Reals, n: u32) -> Result<(), Refusal>
    requires tabled { Tabled words.now bytes.now }
    requires ascends { Ascends words.now constraint_numbers_at (constraints_in words.now) }
    ensures { number_of result ≡ remove_refusal n words.now bytes.now reals.now }
{
    let c = words[sparse::CONSTRAINT_COUNT] as usize;
    if !is_live(words, sparse::CONSTRAINT_NUMBERS, c, n as u64) {
        return Err(Refusal::NoConstraint);
    }
    if gone_full(words, bytes, reals, Taken::Constraint(n)) {
        return Err(Refusal::GoneFull);
    }
    Ok(())
}

// "Remove edit: 18, 8, 25."
pub fn remove_edit_tests(words: &Words, bytes: &Bytes, reals: &Reals, n: u32) -> Result<(), Refusal>
    requires tabled { Tabled words.now bytes.now }
    requires words_bound { edits_in words.now ≤ most_constraints }
    requires ascends { Ascends words.now variable_numbers_at (variables_in words.now) }
    ensures { number_of result ≡ remove_edit_refusal n words.now bytes.now reals.now }
{
    if !is_edited(words, bytes, n as u64) {
        return Err(Refusal::NoEdit);
    }
    if gone_full(words, bytes, reals, Taken::Edit(n)) {
        return Err(Refusal::GoneFull);
    }
    Ok(())
}

// "Drop: 18, 26, 27, 25." 25 once for the whole drop.
pub fn drop_tests(words: &Words, bytes: &Bytes, reals: &Reals, g: u16) -> Result<(), Refusal>
    requires { Tabled words.now bytes.now }
    ensures { number_of result ≡ drop_refusal g words.now bytes.now reals.now }
{
    if g == 0 {
        return Err(Refusal::GroupZero);
    }
    if !group_lives(words, g) {
        return Err(Refusal::NoGroup);
    }
    if gone_full(words, bytes, reals, Taken::Group(g)) {
        return Err(Refusal::GoneFull);
    }
    Ok(())
}
