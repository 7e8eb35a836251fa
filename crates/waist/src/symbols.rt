// Symbols that come and go in the sparse tables.
// The five tables are parameters of their own here: which of them are read alone their types say, and a `TablesMut` would need a clause for each.
ghost use Rattle.std.specs.Prelude.{◌≡◌, false, ◌+◌, ◌≤◌, ◌<◌, get_or};
ghost use Rattle.steps.specs.Number.{Mark};
ghost use Rattle.steps.specs.Work.{new_symbol, append_symbol, purge};
ghost use Rattle.layout.specs.Layout.{kind_of};
ghost use Rattle.layout.specs.cells.Names.{last_place};
ghost use Rattle.sparse.specs.Places.{symbol_count_at};
ghost use Rattle.sparse.specs.Sparse.{symbol_count, symbol_at};
ghost use Rattle.waist.specs.Kinds.{kind_byte};
ghost use Rattle.waist.specs.Working.{Sound, sparse};
ghost use Rattle.waist.specs.Dropping.{Free};
ghost use Rattle.waist.specs.Standing.{Standing, Makes, Unowned};
ghost use Rattle.waist.specs.Growing.{next_id, Grown};
ghost use Rattle.waist.specs.Purging.{Purged, Closes};
ghost use Rattle.waist.specs.PurgeCalls.{Bares};
ghost use Rattle.sparse.specs.Tables.{held, Same};

use crate::basis::drop_row;
use crate::choices::row_of;
use crate::columns::{drop_place, lower_places};
use crate::kinds::Kind;
use crate::moves::close;
use sparse::tables::TablesMut;
use sparse::{
    Bytes, CELL_COUNT, IDS, KINDS, Keys, NEXT_ID, OBJECTIVE, ROW_COUNT, ROW_PLACES, Reals,
    SYMBOL_COUNT, VARIABLE_COUNT, VARIABLE_PLACES, Values, Words,
};

// A new symbol of this kind takes the next id, and the place after the last: no row holds it yet.
pub fn append_symbol(
    words: &mut Words,
    keys: &Keys,
    bytes: &mut Bytes,
    reals: &mut Reals,
    values: &Values,
    kind: Kind,
) -> u8
    requires sound { Sound false (sparse words.old keys.now bytes.old reals.old values.now) }
    requires values_bound { symbol_count (sparse words.old keys.now bytes.old reals.old values.now) < last_place }
    requires values_bound_2 { next_id (sparse words.old keys.now bytes.old reals.old values.now) < 9223372036854775808 }
    ensures value { result ≡ 1 + symbol_count (sparse words.old keys.now bytes.old reals.old values.now) }
    ensures grown { Grown (kind_byte kind) (sparse words.old keys.now bytes.old reals.old values.now) (sparse words.new keys.now bytes.new reals.new values.now) }
    ensures makes { (a : Mark) → Standing false a (sparse words.old keys.now bytes.old reals.old values.now) → Makes false false a a (λ w. append_symbol (new_symbol (kind_of (kind_byte kind)) w) w) (sparse words.old keys.now bytes.old reals.old values.now) (sparse words.new keys.now bytes.new reals.new values.now) }
{
    let id = words[NEXT_ID];
    let k = words[SYMBOL_COUNT];
    let at = 1 + k;
    words[IDS + at as usize] = id;
    words[SYMBOL_COUNT] = at;
    words[NEXT_ID] = 1 + id;
    bytes[KINDS + at as usize] = kind.byte();
    reals[OBJECTIVE + at as usize] = 0.0;
    at as u8
}

// The row of the symbol at place p goes, if it has one.
fn drop_own_row(room: &mut TablesMut, p: u8)
    requires sound { Sound false (held room.old) }
    requires le_p { 1 ≤ p }
    requires p_bound { p ≤ get_or room.old.words.now symbol_count_at 0 }
    ensures does { Bares p (held room.old) (held room.new) }
    ensures same { Same room.old room.new }
{
    if let Some(i) = row_of(room.words, room.bytes, p) {
        drop_row(false, room, i as u8);
    }
}

// The symbol at place p, which is not basic, goes with its cells: the places past it come one place down.
fn close_symbol(room: &mut TablesMut, p: u8)
    requires sound { Sound false (held room.old) }
    requires le_p { 1 ≤ p }
    requires p_bound { p ≤ get_or room.old.words.now symbol_count_at 0 }
    requires free { Free p (held room.old) }
    requires unowned { Unowned p (held room.old) }
    ensures does { Closes p (held room.old) (held room.new) }
    ensures same { Same room.old room.new }
{
    let k = room.words[SYMBOL_COUNT];
    let r = room.words[ROW_COUNT] as usize;
    let n = room.words[CELL_COUNT] as usize;
    let v = room.words[VARIABLE_COUNT] as usize;
    let left = drop_place(room.keys, room.values, n, p);
    close(room.words, IDS + p as usize, IDS + k as usize);
    close(room.bytes, KINDS + p as usize, KINDS + k as usize);
    lower_places(room.bytes, ROW_PLACES + 1, ROW_PLACES + 1 + r, p);
    lower_places(room.bytes, VARIABLE_PLACES, VARIABLE_PLACES + v, p);
    close(room.reals, OBJECTIVE + p as usize, OBJECTIVE + k as usize);
    room.words[SYMBOL_COUNT] = k - 1;
    room.words[CELL_COUNT] = left as u64;
}

// A gone symbol's row, place and cells go: the symbol at place p, which is no variable's.
pub fn purge(room: &mut TablesMut, p: u8)
    requires sound { Sound false (held room.old) }
    requires le_p { 1 ≤ p }
    requires p_bound { p ≤ get_or room.old.words.now symbol_count_at 0 }
    requires unowned { Unowned p (held room.old) }
    ensures purged { Purged p (held room.old) (held room.new) }
    ensures makes { (a : Mark) → Standing false a (held room.old) → Makes false false a a (purge (symbol_at (held room.old) p).id) (held room.old) (held room.new) }
    ensures same { Same room.old room.new }
{
    drop_own_row(room, p);
    close_symbol(room, p);
}
