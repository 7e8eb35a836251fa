// Two runs walked side by side, by ascending place: what the sum leaves, near-zero results dropped.
ghost use Rattle.std.specs.Prelude.{◌≡◌, ◌+◌, ◌≤◌, ◌<◌};
ghost use Rattle.steps.specs.Row.{insert_times};
ghost use Rattle.rows.specs.Marks.{mark_of, cell_of};
ghost use Rattle.rows.specs.Table.{inserted_value, inserted_mark};
ghost use Rattle.layout.specs.cells.Names.{cell_room, row_room, row_span, top_row, last_place};
ghost use Rattle.layout.specs.cells.Cells.{cells, put_if, packed};
ghost use Rattle.waist.specs.merging.Merge.{RunOf, front_of, own_value, own_cell, other_cell, merged_row, merged_mark};

use crate::merging::run::Run;
use layout::cells::row::put_if;
use layout::cells::{CELL_ROOM, ROW_ROOM, ROW_SPAN};
use rows::cell::{Left, cell_value, insert_cell, mark_cell};
use rows::number::{Wrote, nothing};

// How many cells a run has, and what was written of them.
#[derive(Clone, Copy)]
pub struct Merged {
    pub size: usize,
    pub wrote: Wrote,
}

// The place of cell j of a run that ends at e, or ROW_SPAN past it.
fn front<const N: usize>(keys: &[u16; N], j: usize, e: usize) -> u16
    requires { e ≤ N }
    ensures value { result ≡ front_of keys.now j e }
    ensures upper_bound { result ≤ row_span }
{
    if j < e {
        return keys[j] % ROW_SPAN;
    }
    ROW_SPAN
}

// A row's own cell at place p: "s's cell k goes".
fn own(x: f64, p: u16, at: u8) -> f64
    ensures { result ≡ own_value at p x }
{
    if p == at as u16 {
        return 0.0;
    }
    x
}

// "Insert a symbol": what o times k leaves where c stands.
fn inserted(cutoff: f64, k: f64, o: f64, c: f64) -> Left
    ensures { cell_of result ≡ insert_times cutoff k o c }
{
    if o == 0.0 {
        return Left::Kept(c);
    }
    insert_cell(cutoff, c, o * k)
}

// The sum at one place, laid down and marked.
fn put_sum(
    cutoff: f64,
    keys: &mut [u16; ROW_ROOM],
    vals: &mut [f64; ROW_ROOM],
    n: usize,
    key: u16,
    k: f64,
    o: f64,
    c: f64,
    bound: f64,
    before: Wrote,
) -> Merged
    requires { n < row_room }
    ensures size_after { cells keys.new vals.new result.size ≡ put_if key (inserted_value cutoff k c o) (cells keys.old vals.old n) }
    ensures wrote_value { mark_of result.wrote ≡ inserted_mark cutoff bound k (mark_of before) c o }
    ensures size_bound { result.size ≤ n + 1 }
{
    let l = inserted(cutoff, k, o, c);
    let next = put_if(keys, vals, n, key, cell_value(l));
    Merged {
        size: next,
        wrote: mark_cell(bound, before, l),
    }
}

// "Substitute s: s's cell k goes, then insert row times k.": row i's cells from place a up to e, without that of place `at`, and k times the loose run.
pub fn merge_run(
    cutoff: f64,
    keys: &[u16; CELL_ROOM],
    vals: &[f64; CELL_ROOM],
    a: usize,
    e: usize,
    i: u8,
    at: u8,
    other: &Run,
    k: f64,
    bound: f64,
    fresh: &mut Run,
) -> Wrote
    requires a_le_e { a ≤ e }
    requires e_le_cell_room { e ≤ cell_room }
    requires size_le_row_room { other.now.size ≤ row_room }
    requires i_lt_top_row { i < top_row }
    requires run_of { RunOf keys.now i a e }
    requires run_of_2 { RunOf other.now.keys 0 0 other.now.size }
    ensures run_after { cells fresh.new.keys fresh.new.vals fresh.new.size ≡ packed last_place i (merged_row cutoff k (own_cell keys.now vals.now a e i at) (other_cell other.now.keys other.now.vals other.now.size)) (cells fresh.old.keys fresh.old.vals 0) }
    ensures wrote_value { mark_of result ≡ merged_mark cutoff bound k (own_cell keys.now vals.now a e i at) (other_cell other.now.keys other.now.vals other.now.size) }
    ensures size_le_last_place { fresh.new.size ≤ last_place }
{
    let m = other.size;
    let base = i as u16 * ROW_SPAN;
    let mut s = a;
    let mut j = 0;
    let mut n = 0;
    let mut w = nothing();
    // Two walks, each at its own pace: no range counts both.
    while s + j < e + m {
        let p = front(keys, s, e);
        let q = front(&other.keys, j, m);
        if p < q {
            let x = own(vals[s], p, at);
            n = put_if(&mut fresh.keys, &mut fresh.vals, n, base + p, x);
            s += 1;
            continue;
        }
        if q < p {
            let r = put_sum(
                cutoff,
                &mut fresh.keys,
                &mut fresh.vals,
                n,
                base + q,
                k,
                other.vals[j],
                0.0,
                bound,
                w,
            );
            n = r.size;
            w = r.wrote;
            j += 1;
            continue;
        }
        let x = own(vals[s], p, at);
        let r = put_sum(
            cutoff,
            &mut fresh.keys,
            &mut fresh.vals,
            n,
            base + q,
            k,
            other.vals[j],
            x,
            bound,
            w,
        );
        n = r.size;
        w = r.wrote;
        s += 1;
        j += 1;
    }
    fresh.size = n;
    w
}
