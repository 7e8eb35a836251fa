// A cell's new content, and what was written of it.
ghost use Rattle.std.specs.Prelude.{◌≡◌};
ghost use Rattle.steps.specs.Number.{worse};
ghost use Rattle.steps.specs.Row.{stored, cell_value, cell_mark, goes_if_near_zero, insert_cell, scale_cell, factor_mark};
ghost use Rattle.rows.specs.Marks.{mark_of, cell_of};

use crate::number::{Wrote, is_finite, joined, magnitude, mark_write, near_zero, nothing};

// What an operation leaves at a cell's place: the cell as it was, or a cell written.
#[derive(Clone, Copy)]
pub enum Left {
    Kept(f64),
    Written(f64),
}

pub fn stored(c: f64) -> f64
    ensures { result ≡ stored c }
{
    if c == 0.0 { 0.0 } else { c }
}

fn goes_if_near_zero(cutoff: f64, c: f64) -> f64
    ensures { result ≡ goes_if_near_zero cutoff c }
{
    if near_zero(cutoff, c) { 0.0 } else { c }
}

pub fn insert_cell(cutoff: f64, old: f64, k: f64) -> Left
    ensures { cell_of result ≡ insert_cell cutoff old k }
{
    if old == 0.0 {
        if near_zero(cutoff, k) {
            Left::Kept(old)
        } else {
            Left::Written(k)
        }
    } else {
        Left::Written(goes_if_near_zero(cutoff, old + k))
    }
}

pub fn scale_cell(factor: f64, c: f64) -> Left
    ensures { cell_of result ≡ scale_cell factor c }
{
    if c == 0.0 {
        Left::Kept(c)
    } else {
        Left::Written(c * factor)
    }
}

pub fn cell_value(c: Left) -> f64
    ensures { result ≡ cell_value (cell_of c) }
{
    match c {
        Left::Kept(x) => x,
        Left::Written(x) => stored(x),
    }
}

pub fn cell_mark(bound: f64, c: Left) -> Wrote
    ensures { mark_of result ≡ cell_mark bound (cell_of c) }
{
    match c {
        Left::Kept(_) => nothing(),
        Left::Written(x) => mark_write(bound, x),
    }
}

// What was written so far, and a cell.
pub fn mark_cell(bound: f64, w: Wrote, c: Left) -> Wrote
    ensures { mark_of result ≡ worse (mark_of w) (cell_mark bound (cell_of c)) }
{
    joined(w, cell_mark(bound, c))
}

pub fn factor_mark(cell: f64, factor: f64) -> Wrote
    ensures { mark_of result ≡ factor_mark cell factor }
{
    Wrote {
        finite: is_finite(factor),
        whole: magnitude(cell) == 1.0,
    }
}
