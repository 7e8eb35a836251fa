// The operations on one row: place 0 the constant, places 1 to `width` the cells, the places past them the lender's.
ghost use Rattle.std.specs.Prelude.{◌≡◌, ◌<◌, length, slice_index_or, slice_set};
ghost use Rattle.std.specs.Float.{nan};
ghost use Rattle.std.specs.Float.Ieee.{ne};
ghost use Rattle.steps.specs.Number.{zero64};
ghost use Rattle.layout.specs.cells.Names.{row_room};
ghost use Rattle.rows.specs.Marks.{mark_of};
ghost use Rattle.rows.specs.Table.{inserted_value, inserted_mark, scaled_value, scaled_mark, insert_symbol_at, insert_symbol_mark, insert_cells_in, insert_cells_mark, insert_row_in, insert_row_mark, insert_row_changed, scale_cells_in, scale_cells_mark, solve_row_in, solve_row_mark, solve_for_symbols_in, solve_for_symbols_mark, reverse_sign_in, substitute_row_in, substitute_row_mark, substitute_row_changed, substitute_cells_in, substitute_cells_mark, shift_constant_in, shift_constant_mark};

use crate::cell::{cell_mark, cell_value, factor_mark, insert_cell, mark_cell, scale_cell, stored};
use crate::number::{CELL_BOUND, CONSTANT_BOUND, Wrote, joined, mark_write, nothing};
use layout::cells::ROW_ROOM;

// What an insertion wrote, and whether it changed the constant: two facts that both always hold, no value that may be missing.
#[derive(Clone, Copy)]
pub struct Inserted {
    pub changed: bool,
    pub wrote: Wrote,
}

pub fn insert_symbol(cutoff: f64, row: &mut [f64; ROW_ROOM], at: usize, k: f64, bound: f64) -> Wrote
    requires { at < row_room }
    ensures result_value { mark_of result ≡ insert_symbol_mark cutoff at k bound row.old }
    ensures row_after { row.new ≡ insert_symbol_at cutoff at k row.old }
{
    let c = insert_cell(cutoff, row[at], k);
    row[at] = cell_value(c);
    cell_mark(bound, c)
}

// The cell at place i gets o times k. An absent o is passed over before anything is computed: most cells of a layout are.
fn insert_at(
    cutoff: f64,
    row: &mut [f64; ROW_ROOM],
    i: usize,
    o: f64,
    k: f64,
    bound: f64,
    before: Wrote,
) -> Wrote
    requires { i < row_room }
    ensures result_value { mark_of result ≡ inserted_mark cutoff bound k (mark_of before) (slice_index_or row.old i nan) o }
    ensures row_after { row.new ≡ slice_set row.old i (inserted_value cutoff k (slice_index_or row.old i nan) o) }
{
    if o == 0.0 {
        return before;
    }
    let c = insert_cell(cutoff, row[i], o * k);
    row[i] = cell_value(c);
    mark_cell(bound, before, c)
}

pub fn insert_cells(
    cutoff: f64,
    row: &mut [f64; ROW_ROOM],
    other: &[f64; ROW_ROOM],
    k: f64,
    width: usize,
    bound: f64,
) -> Wrote
    requires { width < row_room }
    ensures result_value { mark_of result ≡ insert_cells_mark cutoff bound k width other.now row.old }
    ensures row_after { row.new ≡ insert_cells_in cutoff k width other.now row.old }
{
    let mut w = nothing();
    for i in 1..width + 1 {
        w = insert_at(cutoff, row, i, other[i], k, bound, w);
    }
    w
}

pub fn insert_row(
    cutoff: f64,
    row: &mut [f64; ROW_ROOM],
    other: &[f64; ROW_ROOM],
    k: f64,
    width: usize,
) -> Inserted
    requires { width < row_room }
    ensures changed_value { result.changed ≡ insert_row_changed k other.now }
    ensures wrote_value { mark_of result.wrote ≡ insert_row_mark cutoff k width other.now row.old }
    ensures row_after { row.new ≡ insert_row_in cutoff k width other.now row.old }
{
    let p = other[0] * k;
    let total = row[0] + p;
    row[0] = total;
    let w = insert_cells(cutoff, row, other, k, width, CELL_BOUND);
    Inserted {
        changed: p != 0.0,
        wrote: joined(mark_write(CONSTANT_BOUND, total), w),
    }
}

fn scale_at(row: &mut [f64; ROW_ROOM], i: usize, factor: f64, before: Wrote) -> Wrote
    requires { i < row_room }
    ensures result_value { mark_of result ≡ scaled_mark factor (mark_of before) (slice_index_or row.old i nan) }
    ensures row_after { row.new ≡ slice_set row.old i (scaled_value factor (slice_index_or row.old i nan)) }
{
    if row[i] == 0.0 {
        return before;
    }
    let c = scale_cell(factor, row[i]);
    row[i] = cell_value(c);
    mark_cell(CELL_BOUND, before, c)
}

fn scale_cells(row: &mut [f64; ROW_ROOM], factor: f64, width: usize) -> Wrote
    requires { width < row_room }
    ensures result_value { mark_of result ≡ scale_cells_mark factor width row.old }
    ensures row_after { row.new ≡ scale_cells_in factor width row.old }
{
    let mut w = nothing();
    for i in 1..width + 1 {
        w = scale_at(row, i, factor, w);
    }
    w
}

pub fn solve_for(row: &mut [f64; ROW_ROOM], at: usize, width: usize) -> Wrote
    requires at_lt_row_room { at < row_room }
    requires width_lt_row_room { width < row_room }
    ensures result_value { mark_of result ≡ solve_row_mark at width row.old }
    ensures row_after { row.new ≡ solve_row_in at width row.old }
{
    let cell = row[at];
    let factor = -1.0 / cell;
    let total = row[0] * factor;
    row[0] = total;
    row[at] = 0.0;
    let w = scale_cells(row, factor, width);
    joined(
        factor_mark(cell, factor),
        joined(mark_write(CONSTANT_BOUND, total), w),
    )
}

pub fn solve_for_symbols(
    cutoff: f64,
    row: &mut [f64; ROW_ROOM],
    leaving: usize,
    entering: usize,
    width: usize,
) -> Wrote
    requires leaving_lt_row_room { leaving < row_room }
    requires entering_lt_row_room { entering < row_room }
    requires width_lt_row_room { width < row_room }
    ensures result_value { mark_of result ≡ solve_for_symbols_mark cutoff leaving entering width row.old }
    ensures row_after { row.new ≡ solve_for_symbols_in cutoff leaving entering width row.old }
{
    let v = insert_symbol(cutoff, row, leaving, -1.0, CELL_BOUND);
    let w = solve_for(row, entering, width);
    joined(v, w)
}

pub fn reverse_sign(row: &mut [f64; ROW_ROOM], width: usize)
    requires { width < row_room }
    ensures { row.new ≡ reverse_sign_in width row.old }
{
    row[0] = -row[0];
    for i in 1..width + 1 {
        row[i] = stored(-row[i]);
    }
}

pub fn substitute_row(
    cutoff: f64,
    row: &mut [f64; ROW_ROOM],
    at: usize,
    other: &[f64; ROW_ROOM],
    width: usize,
) -> Inserted
    requires at_lt_row_room { at < row_room }
    requires width_lt_row_room { width < row_room }
    ensures changed_value { result.changed ≡ substitute_row_changed at other.now row.old }
    ensures wrote_value { mark_of result.wrote ≡ substitute_row_mark cutoff at width other.now row.old }
    ensures row_after { row.new ≡ substitute_row_in cutoff at width other.now row.old }
{
    let k = row[at];
    if k == 0.0 {
        let w = nothing();
        return Inserted {
            changed: false,
            wrote: w,
        };
    }
    row[at] = 0.0;
    insert_row(cutoff, row, other, k, width)
}

// In an objective, which has no constant.
pub fn substitute_cells(
    cutoff: f64,
    row: &mut [f64; ROW_ROOM],
    at: usize,
    other: &[f64; ROW_ROOM],
    width: usize,
    bound: f64,
) -> Wrote
    requires at_lt_row_room { at < row_room }
    requires width_lt_row_room { width < row_room }
    ensures result_value { mark_of result ≡ substitute_cells_mark cutoff bound at width other.now row.old }
    ensures row_after { row.new ≡ substitute_cells_in cutoff at width other.now row.old }
{
    let k = row[at];
    if k == 0.0 {
        return nothing();
    }
    row[at] = 0.0;
    insert_cells(cutoff, row, other, k, width, bound)
}

pub fn shift_constant(row: &mut [f64; ROW_ROOM], d: f64) -> Inserted
    ensures changed_value { result.changed ≡ ne d zero64 }
    ensures wrote_value { mark_of result.wrote ≡ shift_constant_mark d row.old }
    ensures row_after { row.new ≡ shift_constant_in d row.old }
{
    let total = row[0] + d;
    row[0] = total;
    let w = mark_write(CONSTANT_BOUND, total);
    Inserted {
        changed: d != 0.0,
        wrote: w,
    }
}
