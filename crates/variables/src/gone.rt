// The variables that are gone: their numbers wait for the next fetch, by ascending number.
ghost use Rattle.std.specs.Prelude.{◌≡◌, cond, ◌≤◌, eqb, length, get_or};
ghost use Rattle.steps.specs.Changes.{keep_number};
ghost use Rattle.std.specs.Prelude.{Some, None};
ghost use Rattle.sparse.specs.Places.{most_gone, gone_count_at};
ghost use Rattle.variables.specs.Told.{gone_in, told_of, gone_spot, kept_gone, told_words};

use sparse::{GONE_COUNT, GONE_NUMBERS, Words};
use waist::moves::open;

// A number comes to place j, where x stands that is not below it, unless it is x.
fn spot_at(n: u64, x: u64, j: usize) -> Option<usize>
    ensures { result ≡ cond (eqb n x) None (Some j) }
{
    if n == x {
        return None;
    }
    Some(j)
}

// Where a number comes among the gone ones by ascending number; nowhere if it is one of them. (A loop: what is answered depends on what stands at the place.)
fn gone_spot(words: &Words, n: u64) -> Option<usize>
    requires { get_or words.now gone_count_at 0 ≤ most_gone }
    ensures { result ≡ gone_spot n words.now }
{
    let e = words[GONE_COUNT] as usize;
    for j in 0..e {
        let x = words[GONE_NUMBERS + j];
        if n <= x {
            return spot_at(n, x, j);
        }
    }
    Some(e)
}

// An entry that waits for the same number stays.
fn keep_number(words: &mut Words, n: u64)
    requires { length (keep_number n (gone_in words.old)) ≤ most_gone }
    ensures { words.new ≡ kept_gone n words.old }
{
    let f = gone_spot(words, n);
    let Some(j) = f else {
        return;
    };
    let k = words[GONE_COUNT];
    let e = k as usize;
    open(words, GONE_NUMBERS + j, GONE_NUMBERS + e, n);
    words[GONE_COUNT] = k + 1;
}

// "A variable that goes is listed once as gone in the next fetch of either kind, unless it was never reported."
pub fn tell_gone(words: &mut Words, n: u64, unreported: bool)
    requires { length (told_of unreported n (gone_in words.old)) ≤ most_gone }
    ensures { words.new ≡ told_words unreported n words.old }
{
    if unreported {
        return;
    }
    keep_number(words, n);
}
