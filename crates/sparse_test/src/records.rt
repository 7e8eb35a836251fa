// The records' part of the test: kinds, finite numbers, the cutoff, variables that are back.
ghost use Rattle.std.specs.Prelude.{◌≡◌, ◌+◌, ◌≤◌};
ghost use Rattle.steps.specs.Number.{cutoff_fits};
ghost use Rattle.layout.specs.cells.Names.{last_place};
ghost use Rattle.sparse.specs.Places.{most_rows, most_variables, most_constraints, most_terms, most_gone, gone_numbers_at};
ghost use Rattle.sparse.specs.Lookup.{Ascends};
ghost use Rattle.sparse_test.specs.Tested.{olds_fit, returned_fit, reals_fit};

use crate::stretch::{each, every, reals_finite};
use rows::places::old_fits;
use sparse::lookup::look_up;
use sparse::{Reals, Words};

// The greatest cutoff that reset takes.
const GREATEST_CUTOFF: f64 = 0.000001;

fn olds_fit(reals: &Reals, v: usize) -> bool
    requires { v ≤ most_variables }
    ensures { result ≡ olds_fit reals.now v }
{
    every(0, v, |i| old_fits(reals[sparse::OLD_VALUES + i]))
}

// "a variable whose number is among them has NaN for its old value": NaN alone differs from itself.
pub fn returned_fit(words: &Words, reals: &Reals, v: usize, g: usize) -> bool
    requires v_le_most_variables { v ≤ most_variables }
    requires g_le_most_gone { g ≤ most_gone }
    requires ascends { Ascends words.now gone_numbers_at g }
    ensures { result ≡ returned_fit words.now reals.now v g }
{
    // Mostly none are gone, and no variable needs to be looked up then.
    if g == 0 {
        return true;
    }
    each(0, v, |i| {
        let p = look_up(
            words,
            sparse::GONE_NUMBERS,
            g,
            words[sparse::VARIABLE_NUMBERS + i],
        );
        let old = reals[sparse::OLD_VALUES + i];
        !(p < g) | (old != old)
    })
}

// "above 0 and at most 1E-6": the cutoffs that reset takes. Neither NaN nor an infinity is one.
pub fn cutoff_fits(cutoff: f64) -> bool
    ensures { result ≡ cutoff_fits cutoff }
{
    (0.0 < cutoff) & (cutoff <= GREATEST_CUTOFF)
}

// m terms.
pub fn reals_fit(reals: &Reals, k: usize, r: usize, v: usize, c: usize, e: usize, m: usize) -> bool
    requires k_le_last_place { k ≤ last_place }
    requires r_le_most_rows { r ≤ most_rows }
    requires v_le_most_variables { v ≤ most_variables }
    requires c_le_most_constraints { c ≤ most_constraints }
    requires e_le_most_constraints { e ≤ most_constraints }
    requires m_le_most_terms { m ≤ most_terms }
    ensures { result ≡ reals_fit reals.now k r v c e m }
{
    reals_finite(reals, sparse::CONSTANTS + 1, r)
        & olds_fit(reals, v)
        & reals_finite(reals, sparse::OBJECTIVE + 1, k)
        & reals_finite(reals, sparse::CONSTRAINT_STRENGTHS, c)
        & reals_finite(reals, sparse::EDIT_STRENGTHS, e)
        & reals_finite(reals, sparse::SUGGESTIONS, e)
        & reals_finite(reals, sparse::COEFFICIENTS, m)
        & reals_finite(reals, sparse::CONSTRAINT_CONSTANTS, c)
        & cutoff_fits(reals[sparse::CUTOFF])
}
