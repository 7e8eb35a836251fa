// Tests place by place that know no table's layout: finite numbers, cells under marks, and shares that are taken one by one.
ghost use Rattle.std.specs.Prelude.{◌≡◌, ◌+◌, ◌-◌, ◌<◌, ◌≤◌, ◌||◌, length, is_nan};
ghost use Rattle.steps.specs.Number.{is_finite};
ghost use Rattle.layout.specs.cells.Names.{row_room};
ghost use Rattle.rows.specs.places.Shares.{shares, take, none_left, finite_in};
ghost use Rattle.rows.specs.places.Marked.{Marks, Hits, fits_in, hits_in};

use layout::cells::ROW_ROOM;

// a product with 0.0 is 0.0 of what is finite, and NaN of what is not (In a loop over numbers, where the compiler tests several at once, the two
// comparisons of number's `is_finite` took 1.7 times as long; a core without an f64 unit multiplies slower than it compares. So there are both.)
pub fn is_finite(x: f64) -> bool
    ensures { result ≡ is_finite x }
{
    x * 0.0 == 0.0
}

// "a variable's old value may be NaN"
pub fn old_fits(x: f64) -> bool
    ensures { result ≡ is_finite x || is_nan x }
{
    is_finite(x) | (x != x)
}

pub fn real_finite(row: &[f64; 17], a: usize, n: usize) -> bool
    requires { a + n ≤ 17 }
    ensures { result ≡ finite_in row.now a n }
{
    let mut ok = true;
    for i in 0..n {
        ok &= is_finite(row[a + i]);
    }
    ok
}

// ---- cells under marks: 1.0 where a cell has to be absent, 0.0 where it has to be finite

// the product is 0.0 just then
fn cell_hit(x: f64, m: f64) -> usize
    ensures hits { Hits m x result }
    ensures upper_bound { result ≤ 1 }
{
    if x * m == 0.0 { 1 } else { 0 }
}

// Counted, not joined: a loop that counts is run over several cells at once.
fn row_hits(row: &[f64; ROW_ROOM], marks: &[f64; ROW_ROOM], a: usize, e: usize) -> usize
    requires e_le_row_room { e ≤ row_room }
    requires marks { Marks marks.now }
    ensures { result ≡ hits_in row.now marks.now a e }
{
    let mut hits = 0;
    for j in a..e {
        hits += cell_hit(row[j], marks[j]);
    }
    hits
}

pub fn row_fits(row: &[f64; ROW_ROOM], marks: &[f64; ROW_ROOM], a: usize, e: usize) -> bool
    requires a_le_e { a ≤ e }
    requires e_le_row_room { e ≤ row_room }
    requires marks { Marks marks.now }
    ensures { result ≡ fits_in row.now marks.now a e }
{
    row_hits(row, marks, a, e) == e - a
}

// ---- shares

fn less_one(x: u64) -> u64
    ensures { result ≡ x - 1 }
{
    if x == 0 { 0 } else { x - 1 }
}

// one of the shares at place p, if there is one left
pub fn take_share(left: &mut [u64], p: usize, ok: bool) -> bool
    requires { p < length left.old }
    ensures { shares left.new result ≡ take p (shares left.old ok) }
{
    let x = left[p];
    left[p] = less_one(x);
    ok & (0 < x)
}

pub fn none_left(left: &[u64], n: usize) -> bool
    requires { n ≤ length left.now }
    ensures { result ≡ none_left left.now n }
{
    let mut ok = true;
    for i in 0..n {
        ok &= left[i] == 0;
    }
    ok
}
