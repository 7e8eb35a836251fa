// Tests of a stretch of places: each passes, or its numbers ascend between two bounds.
ghost use Rattle.std.specs.Prelude.{◌≡◌, ℕ, ◌+◌, ◌<◌, ◌≤◌, Bool, List, get_or};
ghost use Rattle.laws.specs.Lists.{all_in};
ghost use Rattle.sparse.specs.Places.{bytes_size, reals_size};
ghost use Rattle.rows.specs.places.Shares.{finite_in};
ghost use Rattle.sparse_test.specs.Stretch.{up_in};

use rows::places::is_finite;
use sparse::{Bytes, Reals};

// A byte as a place of a table: it is below 256. Only crates above call it; here it is `usize::from`.
pub fn wide(x: u8) -> usize
    ensures value { result ≡ x }
    ensures upper_bound { result ≤ 255 }
{
    x as usize
}

// Whether each place from a on, up to e, passes. Misses are counted, not joined: a loop that counts is run over several places at once.
pub fn every<F: Fn(usize) -> bool>(a: usize, e: usize, test: F) -> bool
    requires { (i : ℕ) → a ≤ i → i < e → F.pre test i }
    ensures { (p : ℕ → Bool) → ((i : ℕ) (b : Bool) → a ≤ i → i < e → F.post test i b → b ≡ p i) → result ≡ all_in p a e }
{
    let mut misses = 0;
    for i in a..e {
        misses += usize::from(!test(i));
    }
    misses == 0
}

// The same, with the answers joined: bytes, of which more fit side by side than counts do, and tests that are no faster side by side.
pub(crate) fn each<F: Fn(usize) -> bool>(a: usize, e: usize, test: F) -> bool
    requires { (i : ℕ) → a ≤ i → i < e → F.pre test i }
    ensures { (p : ℕ → Bool) → ((i : ℕ) (b : Bool) → a ≤ i → i < e → F.post test i b → b ≡ p i) → result ≡ all_in p a e }
{
    let mut ok = true;
    for i in a..e {
        ok &= test(i);
    }
    ok
}

// Whether the n numbers ascend from low on and stay below high: those that ascend, the first and the last tell where all are.
pub fn up<F: Fn(usize) -> u64>(n: usize, at: F, low: u64, high: u64) -> bool
    requires { (i : ℕ) → i < n → F.pre at i }
    ensures { (l : List ℕ) (a : ℕ) → ((i : ℕ) (x : ℕ) → i < n → F.post at i x → x ≡ get_or l (a + i) 0) → result ≡ up_in l a n low high }
{
    if n == 0 {
        return true;
    }
    every(1, n, |i| at(i - 1) < at(i)) & (low <= at(0)) & (at(n - 1) < high)
}

// The same of bytes.
pub(crate) fn bytes_up(bytes: &Bytes, a: usize, n: usize, low: u8, high: u8) -> bool
    requires { a + n ≤ bytes_size }
    ensures { result ≡ up_in bytes.now a n low high }
{
    if n == 0 {
        return true;
    }
    each(1, n, |i| bytes[a + (i - 1)] < bytes[a + i])
        & (low <= bytes[a])
        & (bytes[a + (n - 1)] < high)
}

pub fn reals_finite(reals: &Reals, a: usize, n: usize) -> bool
    requires { a + n ≤ reals_size }
    ensures { result ≡ finite_in reals.now a n }
{
    every(0, n, |i| is_finite(reals[a + i]))
}
