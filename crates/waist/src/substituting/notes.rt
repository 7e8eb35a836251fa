// The changed set: a flag for each variable, and whether the set is to be cleared first.
ghost use Rattle.std.specs.Prelude.{◌≡◌, cond, ◌&&◌, ◌+◌, ◌≤◌, ◌<◌, get_or};
ghost use Rattle.laws.specs.Loops.{map_in};
ghost use Rattle.sparse.specs.Places.{most_rows, most_variables, variable_count_at, kinds_at, changed_at};
ghost use Rattle.layout.specs.cells.Names.{last_place};
ghost use Rattle.layout.specs.cells.Spots.{Spots};
ghost use Rattle.waist.specs.Kinds.{kind_byte};
ghost use Rattle.waist.specs.substituting.Held.{Held};
ghost use Rattle.waist.specs.substituting.Notes.{noted, flagged_in, var_changed_at, var_changed_if, is_external_kind, changes, note_rows};

use crate::kinds::Kind;
use layout::cells::LINES_ROOM;
use layout::cells::spots::spot_cell;
use sparse::{
    Bytes, CHANGED, KINDS, Keys, ROW_PLACES, SHOULD_CLEAR, VARIABLE_COUNT, VARIABLE_PLACES, Values,
    Words,
};

fn clear_changed(bytes: &mut Bytes, count: usize)
    requires { count ≤ most_variables }
    ensures { bytes.new ≡ map_in (λ _. 0) changed_at (changed_at + count) bytes.old }
{
    bytes[CHANGED..CHANGED + count].fill(0);
}

fn clear_changed_if(on: bool, bytes: &mut Bytes, count: usize)
    requires { count ≤ most_variables }
    ensures { bytes.new ≡ cond on (map_in (λ _. 0) changed_at (changed_at + count) bytes.old) bytes.old }
{
    if on {
        clear_changed(bytes, count);
    }
}

// The variable whose symbol stands at place p joins the set.
fn flag_place(bytes: &mut Bytes, count: usize, p: u8)
    requires { count ≤ most_variables }
    ensures { bytes.new ≡ flagged_in p count bytes.old }
{
    for v in 0..count {
        if bytes[VARIABLE_PLACES + v] != p {
            continue;
        }
        bytes[CHANGED + v] = 1;
    }
}

// A set that a fetch has reported is cleared first.
pub fn var_changed(words: &mut Words, bytes: &mut Bytes, p: u8)
    requires { get_or words.old variable_count_at 0 ≤ most_variables }
    ensures { noted words.new bytes.new ≡ var_changed_at p (noted words.old bytes.old) }
{
    let count = words[VARIABLE_COUNT] as usize;
    clear_changed_if(words[SHOULD_CLEAR] == 1, bytes, count);
    words[SHOULD_CLEAR] = 0;
    flag_place(bytes, count, p);
}

pub fn var_changed_if(on: bool, words: &mut Words, bytes: &mut Bytes, p: u8)
    requires { get_or words.old variable_count_at 0 ≤ most_variables }
    ensures { noted words.new bytes.new ≡ var_changed_if on p (noted words.old bytes.old) }
{
    if on {
        var_changed(words, bytes, p);
    }
}

// The kind of the symbol at place p, as the tables hold it.
pub fn kind_at(bytes: &Bytes, p: u8) -> u8
    ensures { result ≡ get_or bytes.now (kinds_at + p) 0 }
{
    bytes[KINDS + p as usize]
}

// What the substitution will say of the constant: k is the row's cell, y the constant of the row that is inserted.
fn is_noted(kind: Kind, k: f64, y: f64) -> bool
    ensures { result ≡ (is_external_kind (kind_byte kind) && changes k y) }
{
    kind.is_external() & (k != 0.0) & (y * k != 0.0)
}

// Before the lines are changed: an External row whose constant will change is noted.
pub fn note_rows(
    words: &mut Words,
    bytes: &mut Bytes,
    keys: &Keys,
    values: &Values,
    n: usize,
    lines: u8,
    count: u8,
    at: u8,
    spots: &[u16; LINES_ROOM],
    y: f64,
)
    requires lines_le_most_rows { lines ≤ most_rows }
    requires count_le_most_rows { count ≤ most_rows }
    requires at_le_last_place { at ≤ last_place }
    requires held { Held lines n keys.now values.now }
    requires spots { Spots keys.now n at spots.now }
    requires variable_count_at_bound { get_or words.old variable_count_at 0 ≤ most_variables }
    ensures { noted words.new bytes.new ≡ note_rows at y n keys.now values.now count (noted words.old bytes.old) }
{
    for i in 1..count + 1 {
        let p = bytes[ROW_PLACES + i as usize];
        let k = spot_cell(keys, values, n, at, spots, i as usize);
        let on = is_noted(Kind::from(kind_at(bytes, p)), k, y);
        var_changed_if(on, words, bytes, p);
    }
}
