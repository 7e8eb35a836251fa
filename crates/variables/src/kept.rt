// A new variable.
ghost use Rattle.std.specs.Prelude.{◌≡◌, ◌≤◌, ◌<◌, get_or};
ghost use Rattle.sparse.specs.Places.{most_variables, variable_count_at};
ghost use Rattle.variables.specs.Variables.{spot_in, kept_words, kept_bytes, kept_reals};

use sparse::{
    Bytes, CHANGED, OLD_VALUES, Reals, VARIABLE_COUNT, VARIABLE_NUMBERS, VARIABLE_PLACES,
    VARIABLE_USES, Words,
};
use waist::moves::open;

// Where a variable of this number stands by ascending number.
fn variable_spot(words: &Words, n: u64) -> usize
    requires { get_or words.now variable_count_at 0 ≤ most_variables }
    ensures value { result ≡ spot_in n words.now }
    ensures upper_bound { result ≤ get_or words.now variable_count_at 0 }
{
    let e = words[VARIABLE_COUNT] as usize;
    (0..e)
        .find(|v| n < words[VARIABLE_NUMBERS + *v])
        .unwrap_or(e)
}

// A new variable, of no use yet, whose symbol stands at place p. Its old value is NaN.
pub fn keep_variable(words: &mut Words, bytes: &mut Bytes, reals: &mut Reals, n: u64, p: u8)
    requires { get_or words.old variable_count_at 0 < most_variables }
    ensures words_after { words.new ≡ kept_words n words.old }
    ensures bytes_after { bytes.new ≡ kept_bytes n p words.old bytes.old }
    ensures reals_after { reals.new ≡ kept_reals n words.old reals.old }
{
    let k = words[VARIABLE_COUNT];
    let e = k as usize;
    let v = variable_spot(words, n);
    open(words, VARIABLE_NUMBERS + v, VARIABLE_NUMBERS + e, n);
    open(words, VARIABLE_USES + v, VARIABLE_USES + e, 0);
    open(bytes, VARIABLE_PLACES + v, VARIABLE_PLACES + e, p);
    open(bytes, CHANGED + v, CHANGED + e, 0);
    open(reals, OLD_VALUES + v, OLD_VALUES + e, 0.0 / 0.0);
    words[VARIABLE_COUNT] = k + 1;
}
