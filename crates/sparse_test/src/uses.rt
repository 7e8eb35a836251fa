// Variables by the places of their symbols: the edits' order, and the uses.
ghost use Rattle.std.specs.Prelude.{◌≡◌, ◌+◌, ◌<◌, ◌≤◌, get_or, replicate};
ghost use Rattle.layout.specs.cells.Names.{place_room};
ghost use Rattle.sparse.specs.Places.{most_variables, most_constraints, most_terms, bytes_size};
ghost use Rattle.sparse_test.specs.Tally.{Most};
ghost use Rattle.sparse_test.specs.Tested.{index_in, number_in, edits_up, count_uses, no_uses, uses_are, uses_fit};
ghost use Rattle.sparse_test.specs.Index.{near, Indexed};

use crate::stretch::each;
use layout::cells::PLACE_ROOM;
use sparse::{Bytes, Words};

// Which variable's symbol stands at each place; 255 is none's.
pub fn no_index() -> [u8; PLACE_ROOM]
    ensures { result ≡ replicate place_room 255 }
{
    [255; PLACE_ROOM]
}

// From the last to the first: where two variables name one place, the first is found, as the meaning has it.
pub fn fill_index(index: &mut [u8; PLACE_ROOM], bytes: &Bytes, v: usize)
    requires v_le_most_variables { v ≤ most_variables }
    requires index_value { index.old ≡ replicate place_room 255 }
    ensures { Indexed index.new bytes.now v }
{
    for i in (0..v).rev() {
        index[usize::from(bytes[sparse::VARIABLE_PLACES + i])] = i as u8;
    }
}

fn nearest(v: usize, x: usize) -> usize
    ensures value { result ≡ near v x }
    ensures upper_bound { result ≤ v }
{
    if x < v { x } else { v }
}

// Which variable the byte at place j names.
fn index_at(index: &[u8; PLACE_ROOM], bytes: &Bytes, v: usize, j: usize) -> usize
    requires j_lt_bytes_size { j < bytes_size }
    requires indexed { Indexed index.now bytes.now v }
    ensures value { result ≡ index_in bytes.now v (get_or bytes.now j 0) }
    ensures upper_bound { result ≤ v }
{
    nearest(v, usize::from(index[usize::from(bytes[j])]))
}

fn number_at(words: &Words, index: &[u8; PLACE_ROOM], bytes: &Bytes, v: usize, j: usize) -> u64
    requires v_le_most_variables { v ≤ most_variables }
    requires j_lt_bytes_size { j < bytes_size }
    requires indexed { Indexed index.now bytes.now v }
    ensures { result ≡ number_in words.now bytes.now v (get_or bytes.now j 0) }
{
    let i = index_at(index, bytes, v, j);
    if i < v {
        words[sparse::VARIABLE_NUMBERS + i]
    } else {
        0
    }
}

pub fn edits_up(words: &Words, index: &[u8; PLACE_ROOM], bytes: &Bytes, v: usize, e: usize) -> bool
    requires v_le_most_variables { v ≤ most_variables }
    requires e_le_most_constraints { e ≤ most_constraints }
    requires indexed { Indexed index.now bytes.now v }
    ensures { result ≡ edits_up words.now bytes.now v e }
{
    each(1, e, |i| {
        let before = number_at(words, index, bytes, v, sparse::EDIT_VARIABLES + (i - 1));
        before < number_at(words, index, bytes, v, sparse::EDIT_VARIABLES + i)
    })
}

// ---- uses: each variable has as many as terms and edits name it

fn no_uses() -> [u64; 33]
    ensures { result ≡ no_uses }
{
    [0; 33]
}

// Counts n names from place a on, each with its variable; those that are none's last.
fn count_uses(
    counts: &mut [u64; 33],
    index: &[u8; PLACE_ROOM],
    bytes: &Bytes,
    v: usize,
    a: usize,
    n: usize,
)
    requires v_le_most_variables { v ≤ most_variables }
    requires n_le_most_terms { n ≤ most_terms }
    requires n_bound { a + n ≤ bytes_size }
    requires indexed { Indexed index.now bytes.now v }
    requires most { Most counts.old most_terms }
    ensures { counts.new ≡ count_uses bytes.now v a n counts.old }
{
    for j in 0..n {
        let i = index_at(index, bytes, v, a + j);
        counts[i] += 1;
    }
}

fn uses_are(counts: &[u64; 33], words: &Words, v: usize) -> bool
    requires { v ≤ most_variables }
    ensures { result ≡ uses_are words.now counts.now v }
{
    each(0, v, |i| words[sparse::VARIABLE_USES + i] == counts[i]) & (counts[v] == 0)
}

// m terms.
pub fn uses_fit(
    words: &Words,
    index: &[u8; PLACE_ROOM],
    bytes: &Bytes,
    v: usize,
    e: usize,
    m: usize,
) -> bool
    requires v_le_most_variables { v ≤ most_variables }
    requires e_le_most_constraints { e ≤ most_constraints }
    requires m_le_most_terms { m ≤ most_terms }
    requires indexed { Indexed index.now bytes.now v }
    ensures { result ≡ uses_fit words.now bytes.now v e m }
{
    let mut counts = no_uses();
    count_uses(&mut counts, index, bytes, v, sparse::TERMS, m);
    count_uses(&mut counts, index, bytes, v, sparse::EDIT_VARIABLES, e);
    uses_are(&counts, words, v)
}
