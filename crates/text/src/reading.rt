// A line read as a call.
ghost use Rattle.std.specs.Prelude.{◌≡◌, ◌+◌, ◌≤◌, length};
ghost use Rattle.text.specs.Words.{words_of, word};
ghost use Rattle.text.specs.Format.{one_word, two_words, three_words, four_words, five_words, call_of};
ghost use Rattle.text.specs.Lines.{as_call, line_of, head_at, add_at, line_with};

use crate::calls::{Call, Head, Line};
use crate::{calls, digits, floats, packing, words};
use changes::terms::Pack;

fn read_one(s: &[u8]) -> Option<Call>
    ensures { result ≡ as_call (one_word (word (words_of s.now) 0)) }
{
    let name = words::word_at(s, 0);
    if digits::same(name, b"reset") {
        return Some(Call::Reset(calls::USUAL_CUTOFF));
    }
    if digits::same(name, b"fetch") {
        return Some(Call::Fetch);
    }
    None
}

fn read_two(s: &[u8]) -> Option<Call>
    ensures { result ≡ as_call (two_words (word (words_of s.now) 0) (word (words_of s.now) 1)) }
{
    let name = words::word_at(s, 0);
    let a = words::word_at(s, 1);
    if digits::same(name, b"value") {
        return calls::value_call(floats::id_word(a));
    }
    if digits::same(name, b"hascon") {
        return calls::has_con_call(floats::id_word(a));
    }
    if digits::same(name, b"hasedit") {
        return calls::has_edit_call(floats::id_word(a));
    }
    if digits::same(name, b"clip") {
        return calls::clip_call(floats::float_word(a));
    }
    if digits::same(name, b"reset") {
        return calls::reset_call(floats::float_word(a));
    }
    None
}

fn read_three(s: &[u8]) -> Option<Call>
    ensures { result ≡ as_call (three_words (word (words_of s.now) 0) (word (words_of s.now) 1) (word (words_of s.now) 2)) }
{
    let name = words::word_at(s, 0);
    let a = words::word_at(s, 1);
    let b = words::word_at(s, 2);
    if digits::same(name, b"remove") {
        return calls::remove_call(floats::id_word(a), floats::budget_word(b));
    }
    if digits::same(name, b"removeedit") {
        return calls::remove_edit_call(floats::id_word(a), floats::budget_word(b));
    }
    if digits::same(name, b"drop") {
        return calls::drop_call(floats::budget_word(a), floats::budget_word(b));
    }
    None
}

fn read_four(s: &[u8]) -> Option<Call>
    ensures { result ≡ as_call (four_words (word (words_of s.now) 0) (word (words_of s.now) 1) (word (words_of s.now) 2) (word (words_of s.now) 3)) }
{
    let name = words::word_at(s, 0);
    let a = words::word_at(s, 1);
    let b = words::word_at(s, 2);
    let c = words::word_at(s, 3);
    if digits::same(name, b"addedit") {
        return calls::add_edit_call(
            floats::id_word(a),
            floats::float_word(b),
            floats::budget_word(c),
        );
    }
    if digits::same(name, b"suggest") {
        return calls::suggest_call(
            floats::id_word(a),
            floats::float_word(b),
            floats::budget_word(c),
        );
    }
    None
}

fn read_five(s: &[u8]) -> Option<Call>
    ensures { result ≡ as_call (five_words (word (words_of s.now) 0) (word (words_of s.now) 1) (word (words_of s.now) 2) (word (words_of s.now) 3) (word (words_of s.now) 4)) }
{
    let name = words::word_at(s, 0);
    let a = words::word_at(s, 1);
    let b = words::word_at(s, 2);
    let c = words::word_at(s, 3);
    let d = words::word_at(s, 4);
    if digits::same(name, b"create") {
        return calls::create_call(
            floats::float_word(a),
            floats::float_word(b),
            floats::float_word(c),
            floats::float_word(d),
        );
    }
    None
}

// A line of n words, fewer than an add has.
fn read_short(s: &[u8], n: usize) -> Option<Call>
    requires n_value { n ≡ length (words_of s.now) }
    requires n_bound { n ≤ 6 }
    ensures { result ≡ as_call (call_of (words_of s.now)) }
{
    if n == 1 {
        return read_one(s);
    }
    if n == 2 {
        return read_two(s);
    }
    if n == 3 {
        return read_three(s);
    }
    if n == 4 {
        return read_four(s);
    }
    if n == 5 {
        return read_five(s);
    }
    None
}

// The words of an add before its terms, from place i on.
fn read_head(s: &[u8], i: usize, group: Option<u16>) -> Option<Head>
    requires { i ≤ 2 }
    ensures { result ≡ head_at group i (words_of s.now) }
{
    let strength = floats::float_word(words::word_at(s, i + 3));
    let relation = calls::relation_word(words::word_at(s, i + 2), strength);
    let c = floats::id_word(words::word_at(s, i));
    let b = floats::budget_word(words::word_at(s, i + 1));
    let k = floats::float_word(words::word_at(s, i + 4));
    calls::add_call(group, c, b, relation, k)
}

fn line_with(head: Option<Head>, terms: Option<Pack>) -> Option<Line>
    ensures { result ≡ line_with head terms }
{
    let h = head?;
    let terms = terms?;
    Some(Line {
        call: Call::Change(h.change, h.budget),
        terms,
    })
}

// The words of an add stand from place i on, in a line of n words.
fn read_add(s: &[u8], n: usize, i: usize, group: Option<u16>) -> Option<Line>
    requires n_value { n ≡ length (words_of s.now) }
    requires i_bound { i ≤ 2 }
    requires i_bound_2 { i + 6 ≤ n }
    ensures { result ≡ line_of (add_at group i (words_of s.now)) }
{
    let m = digits::decimal(words::word_at(s, i + 5), 4294967295)? as usize;
    if 2 * m != n - (i + 6) {
        return None;
    }
    line_with(read_head(s, i, group), packing::read_terms(s, i + 6, m))
}

// A line of n words, as many as an add has, or more. "`add` is group 1"
fn read_long(s: &[u8], n: usize) -> Option<Line>
    requires n_value { n ≡ length (words_of s.now) }
    requires le_n { 7 ≤ n }
    ensures { result ≡ line_of (call_of (words_of s.now)) }
{
    let name = words::word_at(s, 0);
    if digits::same(name, b"add") {
        return read_add(s, n, 1, Some(1));
    }
    if !digits::same(name, b"addg") {
        return None;
    }
    if n == 7 {
        return None;
    }
    let g = floats::budget_word(words::word_at(s, 1));
    read_add(s, n, 2, g)
}

// The call that a line names, if it is one.
pub fn read_line(s: &[u8]) -> Option<Line>
    ensures { result ≡ line_of (call_of (words_of s.now)) }
{
    let n = words::count_words(s);
    if 7 <= n {
        return read_long(s, n);
    }
    let call = read_short(s, n)?;
    let terms = changes::terms::none();
    Some(Line { call, terms })
}
