// Stretches of one table put into another: a part, and two parts around a gap.
ghost use Rattle.std.specs.Prelude.{◌≡◌, ◌+◌, ◌≤◌, length, get_or};
ghost use Rattle.sparse.specs.Places.{words_size, bytes_size, reals_size};
ghost use Rattle.stored.specs.Parts.{Part, Region, Rest, source_size, target_size, all_of, without, opened};

use layout::cells::PLACE_ROOM;
use sparse::{Bytes, Reals, Words};

// The first `at` records stay; `drop` are left out after them, and `free` places are left for others; `rest` more follow.
#[derive(Clone, Copy)]
pub struct Plan {
    pub at: usize,
    pub drop: usize,
    pub free: usize,
    pub rest: usize,
}

impl Plan {
    // All n stay.
    pub fn all_of(n: usize) -> Plan
        ensures { result ≡ all_of n }
    {
        Plan {
            at: n,
            drop: 0,
            free: 0,
            rest: 0,
        }
    }

    // All n but the j-th stay.
    pub fn without_one(j: usize, n: usize) -> Plan
        requires { j + 1 ≤ n }
        ensures { result ≡ without j n }
    {
        Plan {
            at: j,
            drop: 1,
            free: 0,
            rest: n - (j + 1),
        }
    }

    // All n stay, and one is let in at the j-th place.
    pub fn with_one(j: usize, n: usize) -> Plan
        requires { j ≤ n }
        ensures { result ≡ opened j n }
    {
        Plan {
            at: j,
            drop: 0,
            free: 1,
            rest: n - j,
        }
    }
}

// ---- parts

fn part<T: Copy, const N: usize>(to: &mut [T; N], from: &[T; N], a: usize, b: usize, n: usize)
    requires n_bound { a + n ≤ N }
    requires n_bound_2 { b + n ≤ N }
    ensures { (z : T) → Part z (λ x. x) a b n from.now to.old to.new }
{
    for k in 0..n {
        to[b + k] = from[a + k];
    }
}

// Each place by its name in a map.
fn named_part(to: &mut Bytes, from: &Bytes, map: &[u8; PLACE_ROOM], a: usize, b: usize, n: usize)
    requires n_bound { a + n ≤ bytes_size }
    requires n_bound_2 { b + n ≤ bytes_size }
    ensures { Part 0 (λ x. get_or map.now x 0) a b n from.now to.old to.new }
{
    for k in 0..n {
        to[b + k] = map[usize::from(from[a + k])];
    }
}

// ---- around a gap: m places are the region's

pub fn split<T: Copy, const N: usize>(to: &mut [T; N], from: &[T; N], at: usize, m: usize, p: Plan)
    requires m_bound { at + m ≤ N }
    requires p_bound { source_size p ≤ m }
    requires p_bound_2 { target_size p ≤ m }
    ensures region { (z : T) → Region z (λ x. x) at p from.now to.old to.new }
    ensures rest { (z : T) → Rest z at m to.old to.new }
{
    part(to, from, at, at, p.at);
    part(to, from, at + (p.at + p.drop), at + (p.at + p.free), p.rest);
}

// The same, each place by its name in a map.
pub fn split_named(
    to: &mut Bytes,
    from: &Bytes,
    map: &[u8; PLACE_ROOM],
    at: usize,
    m: usize,
    p: Plan,
)
    requires m_bound { at + m ≤ bytes_size }
    requires p_bound { source_size p ≤ m }
    requires p_bound_2 { target_size p ≤ m }
    ensures region { Region 0 (λ x. get_or map.now x 0) at p from.now to.old to.new }
    ensures rest { Rest 0 at m to.old to.new }
{
    named_part(to, from, map, at, at, p.at);
    named_part(
        to,
        from,
        map,
        at + (p.at + p.drop),
        at + (p.at + p.free),
        p.rest,
    );
}
