// The five tables together: as a caller lends them to be read, and as a call writes them.
ghost use Rattle.std.specs.Prelude.{◌≡◌, length};
ghost use Rattle.layout.specs.cells.Names.{cell_room};
ghost use Rattle.sparse.specs.Places.{words_size, bytes_size, reals_size};
ghost use Rattle.sparse.specs.Fits.{Lengths};
ghost use Rattle.sparse.specs.Tables.{lent, held};

use crate::{Bytes, Keys, Reals, Values, Words};

#[derive(Clone, Copy)]
pub struct Tables<'a> {
    pub words: &'a Words,
    pub keys: &'a Keys,
    pub bytes: &'a Bytes,
    pub reals: &'a Reals,
    pub values: &'a Values,
}

// What a function promises of these it says of their content (`held`), and that they are the same five arrays still (`Same`).
#[derive(Drop)]
pub struct TablesMut<'a> {
    pub words: &'a mut Words,
    pub keys: &'a mut Keys,
    pub bytes: &'a mut Bytes,
    pub reals: &'a mut Reals,
    pub values: &'a mut Values,
}

// An array behind a reference does not tell its length; lent as a slice of that length it does, at no cost.
fn long(words: &[u64], keys: &[u16], bytes: &[u8], reals: &[f64], values: &[f64])
    requires words_len { length words.now ≡ words_size }
    requires keys_len { length keys.now ≡ cell_room }
    requires bytes_len { length bytes.now ≡ bytes_size }
    requires reals_len { length reals.now ≡ reals_size }
    requires values_len { length values.now ≡ cell_room }
    ensures { Lengths (record { words = words.now; keys = keys.now; bytes = bytes.now; reals = reals.now; values = values.now }) }
{}

impl Tables<'_> {
    pub fn long(&self)
        ensures { Lengths (lent self.now) }
    {
        let words = self.words;
        let keys = self.keys;
        let bytes = self.bytes;
        let reals = self.reals;
        let values = self.values;
        long(words, keys, bytes, reals, values);
    }
}

impl TablesMut<'_> {
    pub fn long(&self)
        ensures { Lengths (held self.now) }
    {
        long(self.words, self.keys, self.bytes, self.reals, self.values);
    }

    pub fn lend(&self) -> Tables<'_>
        ensures { lent result ≡ held self.now }
    {
        Tables {
            words: self.words,
            keys: self.keys,
            bytes: self.bytes,
            reals: self.reals,
            values: self.values,
        }
    }
}
