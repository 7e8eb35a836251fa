// Where a number stands among words that ascend. "The table is in order; look it up by halving."
ghost use Rattle.std.specs.Prelude.{◌≡◌, ◌+◌, ◌≤◌};
ghost use Rattle.sparse.specs.Places.{words_size};
ghost use Rattle.sparse.specs.Lookup.{Ascends, place_from};

use crate::Words;

// Which of the n ascending words from place a on is x; n if none is. (No Option: those who know that x is there go on with the place as it is,
// and n is what `place_from`, which the theorems speak of, gives for none.)
pub fn look_up(words: &Words, a: usize, n: usize, x: u64) -> usize
    requires n_bound { a + n ≤ words_size }
    requires ascends { Ascends words.now a n }
    ensures value { result ≡ place_from words.now a n x }
    ensures upper_bound { result ≤ n }
{
    words[a..a + n]
        .binary_search_by(|word| word.cmp(&x))
        .unwrap_or(n)
}
