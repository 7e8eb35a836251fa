// By one place within a table: a place closed up, and a place opened. (By ranges: `layout::cells::slide` says why not by `copy_within`.)
ghost use Rattle.std.specs.Prelude.{◌≡◌, ◌≤◌, ◌<◌, length};
ghost use Rattle.rows.specs.moves.Close.{closed, opened};

// Place i goes: those after it, up to e, come one place down. Place e keeps what it has.
pub fn close<T: Copy>(xs: &mut [T], i: usize, e: usize)
    requires i_le_e { i ≤ e }
    requires e_bound { e < length xs.old }
    ensures { (d : T) → xs.new ≡ closed d i e xs.old }
{
    for j in i..e {
        xs[j] = xs[j + 1];
    }
}

// Place e, which is free, is filled: x comes to place i, and those from there on go one place up.
pub fn open<T: Copy>(xs: &mut [T], i: usize, e: usize, x: T)
    requires i_le_e { i ≤ e }
    requires e_bound { e < length xs.old }
    ensures { xs.new ≡ opened i e x xs.old }
{
    for j in (i..e).rev() {
        xs[j + 1] = xs[j];
    }
    xs[i] = x;
}
