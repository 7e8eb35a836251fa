// Like terms summed: variables ascending, each with its coefficient, in two lent tables of which `count` places are in use.
// A coefficient stands as what it is above ZERO, so that one below 0 is below ZERO.
ghost use Rattle.std.specs.Prelude.{◌≡◌, ◌+◌, ◌≤◌, ◌<◌};
ghost use Rattle.laws.specs.Loops.{delete, insert_at};
ghost use Rattle.grammar.specs.Sums.{add_to, signed};
ghost use Rattle.reader.specs.sums.Places.{Place};
ghost use Rattle.reader.specs.sums.Held.{held, Bounded, moved};

pub const ZERO: u64 = 9007199254740992;
// A variable takes three bytes of a line of 4,096, the mark before it among them; the first has none before it.
pub type Numbers = [u32; 1366];

pub type Sums = [u64; 1366];

// The sign and the product of the multipliers that stand over a part.
#[derive(Clone, Copy)]
pub struct Factor {
    pub minus: bool,
    pub product: u64,
}

// The first place in use that holds a number not below v; `count` if there is none.
fn place_of(numbers: &Numbers, count: usize, v: u32) -> usize
    requires { count ≤ 1366 }
    ensures { Place numbers.now count v result }
{
    (0..count).find(|i| v <= numbers[*i]).unwrap_or(count)
}

// A place is opened: what stands from there on, up to the free place e, moves up by one.
fn open<T: Copy>(table: &mut [T; 1366], i: usize, e: usize, x: T)
    requires i_le_e { i ≤ e }
    requires e_bound { e < 1366 }
    ensures { table.new ≡ insert_at i x (delete e table.old) }
{
    for j in (i..e).rev() {
        table[j + 1] = table[j];
    }
    table[i] = x;
}

// What is summed so far with the size more, or less under a minus. (No `Factor`: one caller's size is a product times a number.)
pub fn with(sum: u64, minus: bool, size: u64) -> u64
    requires { (size ≤ sum) × (sum + size ≤ 18446744073709551615) }
    ensures { result ≡ moved minus size sum }
{
    if minus { sum - size } else { sum + size }
}

// One more term; the number of places in use then.
pub fn add_term(numbers: &mut Numbers, sums: &mut Sums, count: usize, v: u32, f: Factor) -> usize
    requires count_bound { count < 1366 }
    requires size_bound { f.product ≤ 1048576 }
    requires bounded { Bounded 4294967296 (held numbers.old sums.old count) }
    ensures result_after { held numbers.new sums.new result ≡ add_to v (signed f.minus f.product) (held numbers.old sums.old count) }
    ensures upper_bound { result ≤ count + 1 }
{
    let i = place_of(numbers, count, v);
    if i < count && numbers[i] == v {
        sums[i] = with(sums[i], f.minus, f.product);
        return count;
    }
    open(numbers, i, count, v);
    open(sums, i, count, with(ZERO, f.minus, f.product));
    count + 1
}
