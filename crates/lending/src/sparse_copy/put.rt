// The live part of each table over another's: k symbols, r rows, v variables, c constraints, e edits, m terms, n cells, g gone.
// They are no struct: each function asks for the bounds of those that it takes, and one struct would ask for all.
ghost use Rattle.std.specs.Prelude.{◌≡◌, ◌+◌, ◌≤◌, length};
ghost use Rattle.layout.specs.cells.Names.{last_place};
ghost use Rattle.sparse.specs.Places.{most_rows, most_variables, most_constraints, most_terms, most_gone};
ghost use Rattle.lending.specs.sparse_copy.Over.{put_part, words_over, names_over, records_over, reals_over};

use sparse::{Bytes, Reals, Words};

// The n places from a on.
pub fn part<T: Copy>(to: &mut [T], from: &[T], a: usize, n: usize)
    requires to { a + n ≤ length to.old }
    requires from { a + n ≤ length from.now }
    ensures { (d : T) → to.new ≡ put_part d from.now a n to.old }
{
    for i in a..a + n {
        to[i] = from[i];
    }
}

pub fn put_words(to: &mut Words, from: &Words, k: usize, v: usize, c: usize, g: usize)
    requires k_le_last_place { k ≤ last_place }
    requires v_le_most_variables { v ≤ most_variables }
    requires c_le_most_constraints { c ≤ most_constraints }
    requires g_le_most_gone { g ≤ most_gone }
    ensures { to.new ≡ words_over from.now k v c g to.old }
{
    part(to, from, sparse::NEXT_ID, sparse::GONE_COUNT + 1);
    part(to, from, sparse::IDS + 1, k);
    part(to, from, sparse::VARIABLE_NUMBERS, v);
    part(to, from, sparse::VARIABLE_USES, v);
    part(to, from, sparse::CONSTRAINT_NUMBERS, c);
    part(to, from, sparse::CONSTRAINT_GROUPS, c);
    part(to, from, sparse::GONE_NUMBERS, g);
}

pub fn put_names(to: &mut Bytes, from: &Bytes, k: usize, r: usize, v: usize)
    requires k_le_last_place { k ≤ last_place }
    requires r_le_most_rows { r ≤ most_rows }
    requires v_le_most_variables { v ≤ most_variables }
    ensures { to.new ≡ names_over from.now k r v to.old }
{
    part(to, from, sparse::KINDS + 1, k);
    part(to, from, sparse::ROW_PLACES + 1, r);
    part(to, from, sparse::VARIABLE_PLACES, v);
    part(to, from, sparse::CHANGED, v);
}

pub fn put_records(to: &mut Bytes, from: &Bytes, c: usize, e: usize, m: usize)
    requires c_le_most_constraints { c ≤ most_constraints }
    requires e_le_most_constraints { e ≤ most_constraints }
    requires m_le_most_terms { m ≤ most_terms }
    ensures { to.new ≡ records_over from.now c e m to.old }
{
    part(to, from, sparse::CONSTRAINT_MARKERS, c);
    part(to, from, sparse::CONSTRAINT_OTHERS, c);
    part(to, from, sparse::TERM_COUNTS, c);
    part(to, from, sparse::EDIT_VARIABLES, e);
    part(to, from, sparse::EDIT_MARKERS, e);
    part(to, from, sparse::EDIT_OTHERS, e);
    part(to, from, sparse::TERMS, m);
    part(to, from, sparse::RELATIONS, c);
}

pub fn put_reals(
    to: &mut Reals,
    from: &Reals,
    k: usize,
    r: usize,
    v: usize,
    c: usize,
    e: usize,
    m: usize,
)
    requires k_le_last_place { k ≤ last_place }
    requires r_le_most_rows { r ≤ most_rows }
    requires v_le_most_variables { v ≤ most_variables }
    requires c_le_most_constraints { c ≤ most_constraints }
    requires e_le_most_constraints { e ≤ most_constraints }
    requires m_le_most_terms { m ≤ most_terms }
    ensures { to.new ≡ reals_over from.now k r v c e m to.old }
{
    part(to, from, sparse::CONSTANTS + 1, r);
    part(to, from, sparse::OLD_VALUES, v);
    part(to, from, sparse::OBJECTIVE + 1, k);
    part(to, from, sparse::CUTOFF, 1);
    part(to, from, sparse::CONSTRAINT_STRENGTHS, c);
    part(to, from, sparse::EDIT_STRENGTHS, e);
    part(to, from, sparse::SUGGESTIONS, e);
    part(to, from, sparse::COEFFICIENTS, m);
    part(to, from, sparse::CONSTRAINT_CONSTANTS, c);
}
