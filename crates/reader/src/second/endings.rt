// What stands behind a line's `@`: "a whole strength up to 1,001,001,000 (required), a comma and a group from 1 to 65,535".
// A number may have any digits: one out of range is handed on as one too many, so that its refusal comes after all of T-01's.
ghost use Rattle.std.specs.Prelude.{◌≡◌, ◌≤◌, length};
ghost use Rattle.reader.specs.second.Numbers.{capped, DigitsAre};
ghost use Rattle.reader.specs.second.Tails.{GroupIs, EndingIs};

use crate::fault::Fault;
use crate::scan::{byte_at, digit_at, skip};

// "a whole strength up to 1,001,001,000 (required)"
pub const REQUIRED: u64 = 1001001000;

// "a group from 1 to 65,535"
pub const MOST_GROUP: u64 = 65535;

#[derive(Clone, Copy)]
pub struct Ending {
    pub strength: u64,
    pub group: u64,
}

fn cap(n: u64, most: u64) -> u64
    requires { most ≤ 4294967295 }
    ensures { result ≡ capped most n }
{
    if most < n { most + 1 } else { n }
}

// A number and the place behind its digits. Unlike `number_at` it reads on behind the digit that passes the bound.
fn digits_at(s: &[u8], at: usize, most: u64) -> Result<(u64, usize), Fault>
    requires { (9 ≤ most) × (most ≤ 4294967295) }
    ensures { DigitsAre s.now most at result }
{
    let Some(first) = digit_at(s, at) else {
        return Err(Fault::Astray(at));
    };
    let mut n = first;
    let mut i = at + 1;
    while let Some(d) = digit_at(s, i) {
        n = cap(n * 10 + d, most);
        i += 1;
    }
    Ok((n, i))
}

// Behind the comma: the group is the line's last.
fn group_at(s: &[u8], at: usize) -> Result<u64, Fault>
    requires { at ≤ length s.now }
    ensures { GroupIs s.now at result }
{
    let i = skip(s, at);
    let (group, end) = digits_at(s, i, MOST_GROUP)?;
    if end == s.len() {
        return Ok(group);
    }
    Err(Fault::Astray(end))
}

// Behind the `@`.
pub fn ending_at(s: &[u8], at: usize) -> Result<Ending, Fault>
    requires { at ≤ length s.now }
    ensures { EndingIs s.now at result }
{
    let i = skip(s, at);
    let (strength, next) = digits_at(s, i, REQUIRED)?;
    let mark = skip(s, next);
    if byte_at(s, mark) == b',' {
        let group = group_at(s, mark + 1)?;
        return Ok(Ending { strength, group });
    }
    Err(Fault::Astray(mark))
}
