// The five tables as C lends them, each by itself, taken together: to be read, or to be written as well.
ghost use Rattle.std.specs.Prelude.{◌≡◌};
ghost use Rattle.waist.specs.Working.{sparse};
ghost use Rattle.sparse.specs.Tables.{held, lent};
ghost use Rattle.knobharbor.specs.Together.{Named};

use sparse::tables::{Tables, TablesMut};
use sparse::{Bytes, Keys, Reals, Values, Words};

pub fn to_read<'a>(
    words: &'a Words,
    keys: &'a Keys,
    bytes: &'a Bytes,
    reals: &'a Reals,
    values: &'a Values,
) -> Tables<'a>
    ensures { lent result ≡ sparse words.now keys.now bytes.now reals.now values.now }
{
    Tables {
        words,
        keys,
        bytes,
        reals,
        values,
    }
}

pub fn to_write<'a>(
    words: &'a mut Words,
    keys: &'a mut Keys,
    bytes: &'a mut Bytes,
    reals: &'a mut Reals,
    values: &'a mut Values,
) -> TablesMut<'a>
    ensures value { held result ≡ sparse words.old keys.old bytes.old reals.old values.old }
    ensures same { Named words.entry.ghost_name keys.entry.ghost_name bytes.entry.ghost_name reals.entry.ghost_name values.entry.ghost_name result }
{
    TablesMut {
        words,
        keys,
        bytes,
        reals,
        values,
    }
}
