// C names of the library's calls, written by tools/exports: each is the library's function of that name, its clauses again.
ghost use Rattle.std.specs.Prelude.{◌≡◌, true, []};
ghost use Rattle.cable_lines.specs.Cable.{takes, closes};
ghost use Rattle.cable_lines.specs.State.{held_by};
ghost use Rattle.knobharbor.specs.handed.Handed.{handed, handed_by, read_by};

use cable_lines::state::State;
use knobharbor::handed::{Coefficients, Reals, Variables, Words};

#[unsafe(no_mangle)]
pub extern "C" fn knobharbor_read_line(
    line: &[u8],
    words: &mut Words,
    reals: &mut Reals,
    variables: &mut Variables,
    coefficients: &mut Coefficients,
)
    ensures { handed true words.new reals.new variables.new coefficients.new [] ≡ read_by line.now }
{
    knobharbor::service::knobharbor_read_line(line, words, reals, variables, coefficients)
}

#[unsafe(no_mangle)]
pub extern "C" fn knobharbor_cable_take(
    cable: &mut State,
    piece: &[u8],
    words: &mut Words,
    reals: &mut Reals,
    variables: &mut Variables,
    coefficients: &mut Coefficients,
) -> bool
    ensures { handed result words.new reals.new variables.new coefficients.new cable.new ≡ handed_by (takes (held_by cable.old) piece.now) }
{
    knobharbor::service::knobharbor_cable_take(cable, piece, words, reals, variables, coefficients)
}

#[unsafe(no_mangle)]
pub extern "C" fn knobharbor_cable_close(
    cable: &mut State,
    words: &mut Words,
    reals: &mut Reals,
    variables: &mut Variables,
    coefficients: &mut Coefficients,
) -> bool
    ensures { handed result words.new reals.new variables.new coefficients.new cable.new ≡ handed_by (closes (held_by cable.old)) }
{
    knobharbor::service::knobharbor_cable_close(cable, words, reals, variables, coefficients)
}
