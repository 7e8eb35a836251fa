// The artificial objective: the line after the rows of the sparse tables, for as long as a temporary slack stands.
// The five tables are parameters of their own here: which of them are read alone their types say, and a `TablesMut` would need a clause for each.
ghost use Rattle.std.specs.Prelude.{◌≡◌, true, false, ◌+◌, ◌<◌, get_or};
ghost use Rattle.std.proofs.Math.Option.{none};
ghost use Rattle.std.specs.Float.{nan};
ghost use Rattle.steps.specs.Number.{Mark};
ghost use Rattle.steps.specs.Symbol.{Slack};
ghost use Rattle.steps.specs.Work.{with_artificial, new_symbol};
ghost use Rattle.steps.specs.Artificial.{stand_temporary};
ghost use Rattle.rows.specs.Reading.{row_of};
ghost use Rattle.rows.specs.Marks.{mark_of};
ghost use Rattle.layout.specs.cells.Names.{last_place};
ghost use Rattle.sparse.specs.Places.{most_rows, row_count_at, constants_at};
ghost use Rattle.sparse.specs.Sparse.{symbol_count, row_count};
ghost use Rattle.waist.specs.substituting.Loose.{SettledRow};
ghost use Rattle.waist.specs.Working.{work_of, Sound, sparse};
ghost use Rattle.waist.specs.Standing.{Standing, Makes};
ghost use Rattle.waist.specs.Growing.{next_id};
ghost use Rattle.waist.specs.ArtificialCopy.{Copies};
ghost use Rattle.waist.specs.ArtificialStands.{Holds};
ghost use Rattle.sparse.specs.Tables.{held, Same};

use crate::basis::keep_row;
use crate::kinds::Kind;
use crate::symbols::append_symbol;
use layout::cells::row::replace_row;
use layout::cells::search::find;
use layout::cells::{ROW_ROOM, ROW_SPAN};
use rows::number::Wrote;
use sparse::tables::TablesMut;
use sparse::{Bytes, CELL_COUNT, CONSTANTS, Keys, ROW_COUNT, Reals, SYMBOL_COUNT, Values, Words};

// "a copy is the artificial objective": the row, dense, goes to the line after the rows.
fn copy_row(
    words: &mut Words,
    keys: &mut Keys,
    bytes: &Bytes,
    reals: &mut Reals,
    values: &mut Values,
    row: &[f64; ROW_ROOM],
)
    requires sound { Sound false (sparse words.old keys.old bytes.now reals.old values.old) }
    requires settled_row { SettledRow (symbol_count (sparse words.old keys.old bytes.now reals.old values.old)) row.now }
    ensures { Copies row.now (sparse words.old keys.old bytes.now reals.old values.old) (sparse words.new keys.new bytes.now reals.new values.new) }
{
    let line = 1 + words[ROW_COUNT];
    let n = words[CELL_COUNT] as usize;
    let width = words[SYMBOL_COUNT] as usize;
    let size = replace_row(keys, values, n, line as u8, row, width);
    reals[CONSTANTS + line as usize] = row[0];
    words[CELL_COUNT] = size as u64;
}

// "a temporary slack is basic with this row, a copy is the artificial objective": the temporary's place.
pub fn stand_temporary(room: &mut TablesMut, row: &mut [f64; ROW_ROOM], before: Wrote) -> u8
    requires standing { Standing false (mark_of before) (held room.old) }
    requires values_bound { symbol_count (held room.old) < last_place }
    requires values_bound_2 { row_count (held room.old) + 2 < most_rows }
    requires values_bound_3 { next_id (held room.old) < 9223372036854775808 }
    requires settled_row { SettledRow (symbol_count (held room.old)) row.old }
    requires holds { Holds (work_of false (mark_of before) 0 (held room.old)) (row_of (symbol_count (held room.old)) row.old) }
    ensures value { result ≡ 1 + symbol_count (held room.old) }
    ensures makes { Makes false true (mark_of before) (mark_of before) (λ w. stand_temporary (new_symbol Slack w) (record { work = w; row = row_of (symbol_count (held room.old)) row.old })) (held room.old) (held room.new) }
    ensures same { Same room.old room.new }
{
    let p = append_symbol(
        room.words,
        room.keys,
        room.bytes,
        room.reals,
        room.values,
        Kind::Slack,
    );
    row[p as usize] = 0.0;
    keep_row(false, room, p, row);
    copy_row(
        room.words,
        room.keys,
        room.bytes,
        room.reals,
        room.values,
        row,
    );
    p
}

// "The copy goes."
pub fn close_artificial(
    words: &mut Words,
    keys: &Keys,
    bytes: &Bytes,
    reals: &Reals,
    values: &Values,
)
    requires { Sound true (sparse words.old keys.now bytes.now reals.now values.now) }
    ensures { (a : Mark) → Standing true a (sparse words.old keys.now bytes.now reals.now values.now) → Makes true false a a (with_artificial none) (sparse words.old keys.now bytes.now reals.now values.now) (sparse words.new keys.now bytes.now reals.now values.now) }
{
    let line = 1 + words[ROW_COUNT];
    let n = words[CELL_COUNT] as usize;
    let end = find(keys, n, line as u16 * ROW_SPAN);
    words[CELL_COUNT] = end as u64;
}

// The constant of the artificial objective.
pub fn artificial_constant(words: &Words, reals: &Reals) -> f64
    requires { get_or words.now row_count_at 0 < most_rows }
    ensures { result ≡ get_or reals.now (constants_at + (1 + get_or words.now row_count_at 0)) nan }
{
    let line = 1 + words[ROW_COUNT];
    reals[CONSTANTS + line as usize]
}
