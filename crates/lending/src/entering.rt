// What comes into the room: tableau and variables, and no stored record.
ghost use Rattle.std.specs.Prelude.{◌≡◌, ◌≤◌, length};
ghost use Rattle.layout.specs.cells.Names.{last_place};
ghost use Rattle.sparse.specs.Places.{most_variables, most_gone, words_size};
ghost use Rattle.sparse.specs.Form.{Counts};
ghost use Rattle.sparse.specs.Copy.{put_over};
ghost use Rattle.lending.specs.sparse_copy.Over.{tables, words_over};
ghost use Rattle.lending.specs.Entered.{bare_words, bare};
ghost use Rattle.sparse.specs.Tables.{held, lent, Same};

use crate::sparse_copy::put;
use sparse::Words;
use sparse::tables::{Tables, TablesMut};

// The words with no record counted. The counts are written after the rest, so that nothing is copied twice.
fn put_bare_words(to: &mut Words, from: &Words, k: usize, v: usize, g: usize)
    requires k_le_last_place { k ≤ last_place }
    requires v_le_most_variables { v ≤ most_variables }
    requires g_le_most_gone { g ≤ most_gone }
    requires to_len { length to.old ≡ words_size }
    requires from_len { length from.now ≡ words_size }
    ensures { to.new ≡ words_over (bare_words from.now) k v 0 g to.old }
{
    put::put_words(to, from, k, v, 0, g);
    to[sparse::CONSTRAINT_COUNT] = 0;
    to[sparse::EDIT_COUNT] = 0;
}

// The live part of the second five over the first, their records left out.
pub fn put_bare(room: &mut TablesMut, tables: &Tables)
    requires wwords_len { length room.old.words.now ≡ words_size }
    requires words_len { length tables.now.words.now ≡ words_size }
    requires counts { Counts (lent tables.now) }
    ensures does { held room.new ≡ put_over (bare (lent tables.now)) (held room.old) }
    ensures same { Same room.old room.new }
{
    let keys = tables.keys;
    let values = tables.values;
    let bytes = tables.bytes;
    let reals = tables.reals;
    let k = tables.words[sparse::SYMBOL_COUNT] as usize;
    let r = tables.words[sparse::ROW_COUNT] as usize;
    let n = tables.words[sparse::CELL_COUNT] as usize;
    let v = tables.words[sparse::VARIABLE_COUNT] as usize;
    let g = tables.words[sparse::GONE_COUNT] as usize;
    put_bare_words(room.words, tables.words, k, v, g);
    put::part(room.keys, keys, 0, n);
    put::part(room.values, values, 0, n);
    put::put_names(room.bytes, bytes, k, r, v);
    put::put_reals(room.reals, reals, k, r, v, 0, 0, 0);
}
