// The service line's readers, of a line by itself and over the cable, under their C names: every place is lent, and what an answer does not say
// is zero there.
ghost use Rattle.std.specs.Prelude.{◌≡◌, true, []};
ghost use Rattle.cable_lines.specs.Cable.{takes, closes};
ghost use Rattle.cable_lines.specs.State.{held_by};
ghost use Rattle.knobharbor.specs.handed.Handed.{handed, handed_by, read_by};

use crate::handed::{Coefficients, Reals, Variables, Words};
use cable_lines::state::State;

pub fn knobharbor_read_line(
    line: &[u8],
    words: &mut Words,
    reals: &mut Reals,
    variables: &mut Variables,
    coefficients: &mut Coefficients,
)
    ensures { handed true words.new reals.new variables.new coefficients.new [] ≡ read_by line.now }
{
    crate::handed::read(line, words, reals, variables, coefficients)
}

pub fn knobharbor_cable_take(
    cable: &mut State,
    piece: &[u8],
    words: &mut Words,
    reals: &mut Reals,
    variables: &mut Variables,
    coefficients: &mut Coefficients,
) -> bool
    ensures { handed result words.new reals.new variables.new coefficients.new cable.new ≡ handed_by (takes (held_by cable.old) piece.now) }
{
    crate::handed::take(cable, piece, words, reals, variables, coefficients)
}

pub fn knobharbor_cable_close(
    cable: &mut State,
    words: &mut Words,
    reals: &mut Reals,
    variables: &mut Variables,
    coefficients: &mut Coefficients,
) -> bool
    ensures { handed result words.new reals.new variables.new coefficients.new cable.new ≡ handed_by (closes (held_by cable.old)) }
{
    crate::handed::close(cable, words, reals, variables, coefficients)
}
