// "`show C`" as text: the number that a line asks for, and what it is answered.
pub mod answers;

ghost use Rattle.std.specs.Prelude.{◌≡◌};
ghost use Rattle.text.specs.Words.{words_of};
ghost use Rattle.text.specs.show_text.Show.{asks_for};

use crate::{digits, floats, words};

// No number for a line that asks for no constraint.
pub fn read_show(s: &[u8]) -> Option<u32>
    ensures { result ≡ asks_for (words_of s.now) }
{
    if words::count_words(s) != 2 {
        return None;
    }
    if digits::same(words::word_at(s, 0), b"show") {
        return floats::id_word(words::word_at(s, 1));
    }
    None
}
