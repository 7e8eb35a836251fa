// C names of the library's calls, written by tools/exports: each is the library's function of that name, its clauses again.
ghost use Rattle.std.specs.Prelude.{◌≡◌};
ghost use Rattle.waist.specs.Working.{sparse};
ghost use Rattle.fetches.specs.shown.Shown.{line, show_of};

use sparse::{Bytes, Keys, Reals, Values, Words};

#[unsafe(no_mangle)]
pub extern "C" fn knobharbor_show(
    words: &Words,
    keys: &Keys,
    bytes: &Bytes,
    reals: &Reals,
    values: &Values,
    number: u32,
    lwords: &mut knobharbor::handed::Words,
    lreals: &mut knobharbor::handed::Reals,
    variables: &mut knobharbor::handed::Variables,
    coefficients: &mut knobharbor::handed::Coefficients,
)
    ensures { line lwords.new lreals.new variables.new coefficients.new ≡ show_of number (sparse words.now keys.now bytes.now reals.now values.now) }
{
    knobharbor::showing::knobharbor_show(
        words,
        keys,
        bytes,
        reals,
        values,
        number,
        lwords,
        lreals,
        variables,
        coefficients,
    )
}
