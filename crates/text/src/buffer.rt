// What every answer is put together from, in the program's buffer from a place on; each function answers the next place.
ghost use Rattle.std.specs.Prelude.{◌≡◌, ◌+◌, ◌<◌, ◌≤◌, [], ◌∷◌, length};
ghost use Rattle.text.specs.Answers.{number_text};
ghost use Rattle.text.specs.Put.{Put};

use crate::writing;

pub type Out = [u8; 8192];

pub fn put_byte(out: &mut Out, at: usize, b: u8) -> usize
    requires { at < 8192 }
    ensures put { Put out.old out.new at result (b ∷ []) }
    ensures upper_bound { result ≤ at + 1 }
{
    writing::put_byte(out, at, b)
}

pub fn put_text(out: &mut Out, at: usize, text: &[u8]) -> usize
    requires { at + length text.now ≤ 8192 }
    ensures put { Put out.old out.new at result text.now }
    ensures upper_bound { result ≤ at + length text.now }
{
    writing::put_text(out, at, text)
}

pub fn put_number(out: &mut Out, at: usize, n: u64) -> usize
    requires { at + 20 ≤ 8192 }
    ensures put { Put out.old out.new at result (number_text n) }
    ensures upper_bound { result ≤ at + 20 }
{
    writing::put_number(out, at, n)
}
