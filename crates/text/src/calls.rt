// What the words of a line must be for each call.
ghost use Rattle.std.specs.Prelude.{◌≡◌, option_map};
ghost use Rattle.steps.specs.Session.{resets, value_of, has_constraints, has_edits, clips, removes, removes_edit, drops, adds_edit, suggests};
ghost use Rattle.text.specs.Format.{of_id_budget, of_edit, of_reals, relation_of};
ghost use Rattle.text.specs.Lines.{as_call, as_related, head_of};

use crate::digits;
use changes::Change;
use changes::tags::Relation;
use changes::terms::Pack;

// 1E-8: what `reset` alone takes.
pub const USUAL_CUTOFF: f64 = 0.00000001;

// A call that changes nothing.
#[derive(Clone, Copy)]
pub enum Query {
    Value(u32),
    HasCon(u32),
    HasEdit(u32),
    Create(f64, f64, f64, f64),
    Clip(f64),
}

// Every call of document 01.
#[derive(Clone, Copy)]
pub enum Call {
    // the cutoff
    Reset(f64),
    // the budget
    Change(Change, u16),
    Ask(Query),
    Fetch,
}

// An add without its terms, and its budget.
#[derive(Clone, Copy)]
pub struct Head {
    pub change: Change,
    pub budget: u16,
}

// A call, and beside it the terms of an add.
#[derive(Clone, Copy)]
pub struct Line {
    pub call: Call,
    pub terms: Pack,
}

pub fn reset_call(cutoff: Option<f64>) -> Option<Call>
    ensures { result ≡ as_call (option_map resets cutoff) }
{
    Some(Call::Reset(cutoff?))
}

pub fn value_call(v: Option<u32>) -> Option<Call>
    ensures { result ≡ as_call (option_map value_of v) }
{
    Some(Call::Ask(Query::Value(v?)))
}

pub fn has_con_call(c: Option<u32>) -> Option<Call>
    ensures { result ≡ as_call (option_map has_constraints c) }
{
    Some(Call::Ask(Query::HasCon(c?)))
}

pub fn has_edit_call(v: Option<u32>) -> Option<Call>
    ensures { result ≡ as_call (option_map has_edits v) }
{
    Some(Call::Ask(Query::HasEdit(v?)))
}

pub fn clip_call(s: Option<f64>) -> Option<Call>
    ensures { result ≡ as_call (option_map clips s) }
{
    Some(Call::Ask(Query::Clip(s?)))
}

pub fn remove_call(c: Option<u32>, budget: Option<u16>) -> Option<Call>
    ensures { result ≡ as_call (of_id_budget removes c budget) }
{
    Some(Call::Change(Change::Remove(c?), budget?))
}

pub fn remove_edit_call(v: Option<u32>, budget: Option<u16>) -> Option<Call>
    ensures { result ≡ as_call (of_id_budget removes_edit v budget) }
{
    Some(Call::Change(Change::RemoveEdit(v?), budget?))
}

pub fn drop_call(group: Option<u16>, budget: Option<u16>) -> Option<Call>
    ensures { result ≡ as_call (of_id_budget drops group budget) }
{
    Some(Call::Change(Change::Drop(group?), budget?))
}

pub fn add_edit_call(v: Option<u32>, strength: Option<f64>, budget: Option<u16>) -> Option<Call>
    ensures { result ≡ as_call (of_edit adds_edit v strength budget) }
{
    Some(Call::Change(Change::AddEdit(v?, strength?), budget?))
}

pub fn suggest_call(v: Option<u32>, value: Option<f64>, budget: Option<u16>) -> Option<Call>
    ensures { result ≡ as_call (of_edit suggests v value budget) }
{
    Some(Call::Change(Change::Suggest(v?, value?), budget?))
}

pub fn create_call(a: Option<f64>, b: Option<f64>, c: Option<f64>, w: Option<f64>) -> Option<Call>
    ensures { result ≡ as_call (of_reals a b c w) }
{
    Some(Call::Ask(Query::Create(a?, b?, c?, w?)))
}

// The relation that a word names, with its strength.
pub fn relation_word(w: &[u8], strength: Option<f64>) -> Option<Relation>
    ensures { result ≡ as_related (relation_of w.now strength) }
{
    let s = strength?;
    if digits::same(w, b"le") {
        return Some(Relation::AtMost(s));
    }
    if digits::same(w, b"eq") {
        return Some(Relation::Equal(s));
    }
    if digits::same(w, b"ge") {
        return Some(Relation::AtLeast(s));
    }
    None
}

// An add without its terms.
pub fn add_call(
    group: Option<u16>,
    c: Option<u32>,
    budget: Option<u16>,
    relation: Option<Relation>,
    constant: Option<f64>,
) -> Option<Head>
    ensures { result ≡ head_of group c budget relation constant }
{
    let change = Change::Add(group?, c?, constant?, relation?);
    let budget = budget?;
    Some(Head { change, budget })
}
