// Places of one set of tables named by the places of another: ids and numbers ascend in both, and one walk goes along both.
ghost use Rattle.std.specs.Prelude.{◌+◌, ◌≤◌};
ghost use Rattle.layout.specs.cells.Names.{last_place};
ghost use Rattle.sparse.specs.Places.{most_variables, words_size};
ghost use Rattle.stored.specs.Maps.{Names, Sought, TagHere, VariableHere, NumberPlace, TagPlaces, VariablePlaces};

use layout::cells::PLACE_ROOM;
use sparse::lookup::look_up;
use sparse::{Bytes, Words};

// The first of the places from `start` on, before e, whose number is no smaller than x; e if there is none.
pub fn seek(words: &Words, base: usize, start: usize, e: usize, x: u64) -> usize
    requires e_bound { base + e ≤ words_size }
    requires start_le_e { start ≤ e }
    ensures { Sought words.now base start e x result }
{
    (start..e).find(|q| x <= words[base + *q]).unwrap_or(e)
}

// The place q, if it has this id; 0 is none.
fn tag_at(words: &Words, e: usize, q: usize, id: u64) -> u8
    requires { e ≤ last_place + 1 }
    ensures { TagHere words.now e q id result }
{
    if q >= e {
        return 0;
    }
    if words[sparse::IDS + q] != id {
        return 0;
    }
    q as u8
}

// For each live place of `from`, the place of the same symbol in `to`; 0 if there is none.
pub fn tag_places(from: &Words, fbytes: &Bytes, to: &Words, bytes: &Bytes) -> [u8; PLACE_ROOM]
    requires names { Names from.now fbytes.now }
    requires names_2 { Names to.now bytes.now }
    ensures { TagPlaces from.now to.now result }
{
    let k = from[sparse::SYMBOL_COUNT] as usize;
    let e = to[sparse::SYMBOL_COUNT] as usize + 1;
    let mut r = [0u8; PLACE_ROOM];
    let mut q = 1;
    for p in 1..k + 1 {
        let id = from[sparse::IDS + p];
        q = seek(to, sparse::IDS, q, e, id);
        r[p] = tag_at(to, e, q, id);
    }
    r
}

// The place of the q-th variable's symbol, if it has this number; 0 is none.
fn variable_at(words: &Words, bytes: &Bytes, e: usize, q: usize, n: u64) -> u8
    requires { e ≤ most_variables }
    ensures { VariableHere words.now bytes.now e q n result }
{
    if q >= e {
        return 0;
    }
    if words[sparse::VARIABLE_NUMBERS + q] != n {
        return 0;
    }
    bytes[sparse::VARIABLE_PLACES + q]
}

// For each place of a variable's symbol in `from`, the place of the symbol of the same variable in `to`; 0 if there is none.
pub fn variable_places(from: &Words, fbytes: &Bytes, to: &Words, bytes: &Bytes) -> [u8; PLACE_ROOM]
    requires names { Names from.now fbytes.now }
    requires names_2 { Names to.now bytes.now }
    ensures { VariablePlaces from.now fbytes.now to.now bytes.now result }
{
    let v = from[sparse::VARIABLE_COUNT] as usize;
    let e = to[sparse::VARIABLE_COUNT] as usize;
    let mut r = [0u8; PLACE_ROOM];
    let mut q = 0;
    for i in 0..v {
        let n = from[sparse::VARIABLE_NUMBERS + i];
        q = seek(to, sparse::VARIABLE_NUMBERS, q, e, n);
        let p = usize::from(fbytes[sparse::VARIABLE_PLACES + i]);
        r[p] = variable_at(to, bytes, e, q, n);
    }
    r
}

// The place of the symbol of the variable of this number.
pub fn number_place(words: &Words, bytes: &Bytes, n: u64) -> u8
    requires { Names words.now bytes.now }
    ensures { NumberPlace words.now bytes.now n result }
{
    let e = words[sparse::VARIABLE_COUNT] as usize;
    let q = look_up(words, sparse::VARIABLE_NUMBERS, e, n);
    variable_at(words, bytes, e, q, n)
}
