// A live constraint as it was added, under its C name: in the places in which a line's reader hands one over.
// The tables are parameters of their own in each `knobharbor_*`: those are C names, and so the C interface has them.
ghost use Rattle.std.specs.Prelude.{◌≡◌};
ghost use Rattle.waist.specs.Working.{sparse};
ghost use Rattle.fetches.specs.shown.Shown.{line, show_of};

use crate::together::to_read;
use sparse::{Bytes, Keys, Reals, Values, Words};

pub fn knobharbor_show(
    words: &Words,
    keys: &Keys,
    bytes: &Bytes,
    reals: &Reals,
    values: &Values,
    number: u32,
    lwords: &mut crate::handed::Words,
    lreals: &mut crate::handed::Reals,
    variables: &mut crate::handed::Variables,
    coefficients: &mut crate::handed::Coefficients,
)
    ensures { line lwords.new lreals.new variables.new coefficients.new ≡ show_of number (sparse words.now keys.now bytes.now reals.now values.now) }
{
    let tables = &to_read(words, keys, bytes, reals, values);
    fetches::shown::show(tables, number, lwords, lreals, variables, coefficients)
}
