// A variable by its number, and one use of it more.
ghost use Rattle.std.specs.Prelude.{◌≡◌, ◌+◌, ◌≤◌, ◌<◌, get_or};
ghost use Rattle.sparse.specs.Places.{most_variables, variable_count_at, variable_numbers_at, variable_uses_at};
ghost use Rattle.sparse.specs.Lookup.{Ascends};
ghost use Rattle.variables.specs.Variables.{Below, found_in, most_uses, used_words};

use sparse::lookup::look_up;
use sparse::{VARIABLE_COUNT, VARIABLE_NUMBERS, VARIABLE_USES, Words};

// The variable of this number, by its place among the variables, from 0.
pub fn find_variable(words: &Words, n: u64) -> Option<usize>
    requires variable_count_at_bound { get_or words.now variable_count_at 0 ≤ most_variables }
    requires ascends { Ascends words.now variable_numbers_at (get_or words.now variable_count_at 0) }
    ensures value { result ≡ found_in n words.now }
    ensures below { Below (get_or words.now variable_count_at 0) result }
{
    let e = words[VARIABLE_COUNT] as usize;
    let v = look_up(words, VARIABLE_NUMBERS, e, n);
    if v < e {
        return Some(v);
    }
    None
}

// One use more of the variable at place v.
pub fn count_use(words: &mut Words, v: usize)
    requires v_lt_most_variables { v < most_variables }
    requires v_bound { get_or words.old (variable_uses_at + v) 0 < most_uses }
    ensures { words.new ≡ used_words v words.old }
{
    words[VARIABLE_USES + v] = words[VARIABLE_USES + v] + 1;
}
