// A line that grows in a lent buffer of 200 bytes, zero past the line. Each function answers the next place; 201 once the line is too long.
ghost use Rattle.std.specs.Prelude.{◌≡◌, [], ◌∷◌, length, replicate};
ghost use Rattle.grammar.specs.plain.Decimal.{decimal_in, decimal};
ghost use Rattle.writing.specs.Buffer.{Adds};

// "Its lent buffer is 200 bytes"
pub const ROOM: usize = 200;

// A place where nothing is put: all that follows stays there, and the whole line is measured once, at its end.
const PAST: usize = 201;

pub fn clear(out: &mut [u8])
    ensures { out.new ≡ replicate (length out.old) 0 }
{
    out.fill(0);
}

pub fn put(out: &mut [u8], at: usize, b: u8) -> usize
    ensures { Adds out.old out.new at result (b ∷ []) }
{
    if at < out.len() {
        out[at] = b;
        return at + 1;
    }
    PAST
}

// A number of at most k digits in decimal. (No twin of the one in `text`: this stops where the line is full, and that one has room.)
fn put_digits(out: &mut [u8], at: usize, n: u64, k: usize) -> usize
    ensures { Adds out.old out.new at result (decimal_in k n) }
{
    if k == 0 {
        return at;
    }
    if n < 10 {
        return put(out, at, 48 + n as u8);
    }
    let next = put_digits(out, at, n / 10, k - 1);
    put(out, next, 48 + (n % 10) as u8)
}

pub fn put_number(out: &mut [u8], at: usize, n: u64) -> usize
    ensures { Adds out.old out.new at result (decimal n) }
{
    put_digits(out, at, n, 20)
}
