// A constraint as the text format has one: `REL STRENGTH GROUP CONSTANT N V1 K1 ...`.
ghost use Rattle.std.specs.Prelude.{◌≡◌, ◌≤◌, length};
ghost use Rattle.text.specs.Words.{words_of};

use changes::tags::Relation;
use changes::terms::Pack;
use text::{calls, digits, floats, packing, words};

#[derive(Clone, Copy)]
pub struct Given {
    pub relation: Relation,
    pub group: u16,
    pub constant: f64,
    pub terms: Pack,
}

// The words before the terms.
fn with_head(s: &[u8], terms: Pack) -> Option<Given> {
    let strength = floats::float_word(words::word_at(s, 1));
    let relation = calls::relation_word(words::word_at(s, 0), strength)?;
    let group = floats::budget_word(words::word_at(s, 2))?;
    let constant = floats::float_word(words::word_at(s, 3))?;
    Some(Given {
        relation,
        group,
        constant,
        terms,
    })
}

fn with_terms(s: &[u8], n: usize) -> Option<Given>
    requires n_value { n ≡ length (words_of s.now) }
    requires le_n { 5 ≤ n }
{
    let m = digits::decimal(words::word_at(s, 4), 4294967295)? as usize;
    if 2 * m != n - 5 {
        return None;
    }
    with_head(s, packing::read_terms(s, 5, m)?)
}

pub fn read_given(s: &[u8]) -> Option<Given> {
    let n = words::count_words(s);
    if n < 5 {
        return None;
    }
    with_terms(s, n)
}
