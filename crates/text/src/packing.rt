// The terms of an add, by value.
ghost use Rattle.std.specs.Prelude.{◌≡◌, ◌+◌, ◌*◌, ◌≤◌, length, drop};
ghost use Rattle.text.specs.Words.{words_of};
ghost use Rattle.text.specs.Format.{terms_of};
ghost use Rattle.changes.specs.terms.Terms.{no_pack};
ghost use Rattle.text.specs.Lines.{packed_from};

use crate::{floats, words};
use changes::terms::{Pack, Term};

// The m terms that end a line, behind its first words, if all can be read.
pub fn read_terms(s: &[u8], from: usize, m: usize) -> Option<Pack>
    requires from_bound { (from ≤ 16) × (m ≤ 4294967295) }
    requires s_len { length (words_of s.now) ≡ from + 2 * m }
    ensures { result ≡ packed_from no_pack (terms_of (drop from (words_of s.now))) }
{
    let mut t = changes::terms::none();
    for i in 0..m {
        let v = floats::id_word(words::word_at(s, from + 2 * i))?;
        let x = floats::float_word(words::word_at(s, from + 1 + 2 * i))?;
        let one = Term {
            variable: v,
            coefficient: x,
        };
        t = changes::terms::push(t, one);
    }
    Some(t)
}
