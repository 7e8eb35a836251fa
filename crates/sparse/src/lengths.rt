// "18 | a lent table has the wrong length": tables lent as slices of arrays, each to be lent once.
ghost use Rattle.std.specs.Prelude.{◌≡◌};
ghost use Rattle.sparse.specs.lengths.Lengths.{lists, once_each};

use crate::{Bytes, Keys, Reals, Values, Words};

pub fn once(
    words: &[Words],
    keys: &[Keys],
    bytes: &[Bytes],
    reals: &[Reals],
    values: &[Values],
) -> bool
    ensures { result ≡ once_each (lists words.now keys.now bytes.now reals.now values.now) }
{
    (words.len() == 1)
        & (keys.len() == 1)
        & (bytes.len() == 1)
        & (reals.len() == 1)
        & (values.len() == 1)
}
