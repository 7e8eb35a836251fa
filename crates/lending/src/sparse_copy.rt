// The live part of sparse tables put over others: what stands past the counts stays as it is.
ghost use Rattle.std.specs.Prelude.{◌≡◌, ◌≤◌};
ghost use Rattle.sparse.specs.Form.{Counts};
ghost use Rattle.sparse.specs.Sparse.{constraint_count, terms_from};
ghost use Rattle.sparse.specs.Copy.{put_over};
ghost use Rattle.lending.specs.sparse_copy.Over.{tables};
ghost use Rattle.sparse.specs.Tables.{held, lent, Same};

use sparse::tables::{Tables, TablesMut};

pub mod put;

// The live part of the second five over the first; m is the count of all terms.
pub fn put_over(tables: &mut TablesMut, from: &Tables, m: usize)
    requires counts { Counts (lent from.now) }
    requires m_value { m ≡ terms_from (lent from.now) (constraint_count (lent from.now)) }
    ensures does { held tables.new ≡ put_over (lent from.now) (held tables.old) }
    ensures same { Same tables.old tables.new }
{
    let words = from.words;
    let keys = from.keys;
    let bytes = from.bytes;
    let reals = from.reals;
    let values = from.values;
    let k = words[sparse::SYMBOL_COUNT] as usize;
    let r = words[sparse::ROW_COUNT] as usize;
    let n = words[sparse::CELL_COUNT] as usize;
    let v = words[sparse::VARIABLE_COUNT] as usize;
    let c = words[sparse::CONSTRAINT_COUNT] as usize;
    let e = words[sparse::EDIT_COUNT] as usize;
    let g = words[sparse::GONE_COUNT] as usize;
    put::put_words(tables.words, words, k, v, c, g);
    put::part(tables.keys, keys, 0, n);
    put::part(tables.values, values, 0, n);
    put::put_names(tables.bytes, bytes, k, r, v);
    put::put_records(tables.bytes, bytes, c, e, m);
    put::put_reals(tables.reals, reals, k, r, v, c, e, m);
}
