// One use of a variable less.
ghost use Rattle.std.specs.Prelude.{◌≡◌, ◌≤◌, ◌<◌, get_or};
ghost use Rattle.sparse.specs.Places.{most_variables, variable_count_at, variable_numbers_at};
ghost use Rattle.sparse.specs.Lookup.{Ascends};
ghost use Rattle.variables.specs.Less.{went_words, went_bytes, went_reals, loss, lost_use, less_of};

use crate::found::find_variable;
use sparse::{
    Bytes, CHANGED, OLD_VALUES, Reals, VARIABLE_COUNT, VARIABLE_NUMBERS, VARIABLE_PLACES,
    VARIABLE_USES, Words,
};
use waist::moves::close;

// "Gone variables and constraints free their places."
fn drop_variable(words: &mut Words, bytes: &mut Bytes, reals: &mut Reals, v: usize)
    requires variable_count_at_bound { get_or words.old variable_count_at 0 ≤ most_variables }
    requires v_bound { v < get_or words.old variable_count_at 0 }
    ensures words_after { words.new ≡ went_words v words.old }
    ensures bytes_after { bytes.new ≡ went_bytes v words.old bytes.old }
    ensures reals_after { reals.new ≡ went_reals v words.old reals.old }
{
    let k = words[VARIABLE_COUNT] - 1;
    let e = k as usize;
    close(words, VARIABLE_NUMBERS + v, VARIABLE_NUMBERS + e);
    close(words, VARIABLE_USES + v, VARIABLE_USES + e);
    close(bytes, VARIABLE_PLACES + v, VARIABLE_PLACES + e);
    close(bytes, CHANGED + v, CHANGED + e);
    close(reals, OLD_VALUES + v, OLD_VALUES + e);
    words[VARIABLE_COUNT] = k;
}

// A variable that went: the place of its symbol, and whether it was never reported.
#[derive(Clone, Copy)]
pub struct Gone {
    pub place: u8,
    pub unreported: bool,
}

fn lose_use(words: &mut Words, bytes: &mut Bytes, reals: &mut Reals, v: usize) -> Option<Gone>
    requires variable_count_at_bound { get_or words.old variable_count_at 0 ≤ most_variables }
    requires v_bound { v < get_or words.old variable_count_at 0 }
    ensures { loss words.new bytes.new reals.new result ≡ lost_use v (loss words.old bytes.old reals.old None) }
{
    let uses = words[VARIABLE_USES + v];
    if uses == 1 {
        let place = bytes[VARIABLE_PLACES + v];
        // One that was never reported has NaN, which alone differs from itself. `is_nan` was tried: the definitions say "differs from itself", and no law that a proof here may cite joins the two.
        let old = reals[OLD_VALUES + v];
        let unreported = old != old;
        drop_variable(words, bytes, reals, v);
        return Some(Gone { place, unreported });
    }
    words[VARIABLE_USES + v] = uses.saturating_sub(1);
    None
}

// One use of the variable less: at its last use it goes, and the place of its symbol is given back, and whether it was never reported.
pub fn use_less(words: &mut Words, bytes: &mut Bytes, reals: &mut Reals, n: u64) -> Option<Gone>
    requires variable_count_at_bound { get_or words.old variable_count_at 0 ≤ most_variables }
    requires ascends { Ascends words.old variable_numbers_at (get_or words.old variable_count_at 0) }
    ensures { loss words.new bytes.new reals.new result ≡ less_of n words.old bytes.old reals.old }
{
    let f = find_variable(words, n);
    let Some(v) = f else {
        return None;
    };
    lose_use(words, bytes, reals, v)
}
