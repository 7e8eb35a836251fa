// C names of the library's calls, written by tools/exports: each is the library's function of that name, its clauses again.
ghost use Rattle.std.specs.Prelude.{◌≡◌};
ghost use Rattle.writing.specs.Writes.{called, called_is};
ghost use Rattle.knobharbor.specs.Written.{writes_of};

#[unsafe(no_mangle)]
pub extern "C" fn knobharbor_write_line(
    buffer: &mut [u8],
    kind: u32,
    strength: f64,
    group: u16,
    constant: f64,
    vars: &[u32],
    coefs: &[f64],
) -> u32
    ensures { called_is result buffer.new ≡ called buffer.old (writes_of kind strength group constant vars.now coefs.now) }
{
    knobharbor::written::knobharbor_write_line(buffer, kind, strength, group, constant, vars, coefs)
}
