// A line's two sides and the relation between them.
// "Spaces are free around marks, never after `v`."
ghost use Rattle.std.specs.Prelude.{◌≡◌, ◌≤◌, length};
ghost use Rattle.grammar.specs.Sums.{nothing};
ghost use Rattle.grammar.specs.Reader.{first, left, run_from};
ghost use Rattle.reader.specs.Parts.{sums_of, Rests, Unjoined};
ghost use Rattle.reader.specs.Sides.{StartIs, HalfIs, RelatedIs};
ghost use Rattle.reader.specs.Ends.{LeftIs, RightIs, SidesIs, Reached, EndIs, line_of, Counted};

use crate::fault::Fault;
use crate::parts::{Over, Place, sum};
use crate::scan::{byte_at, skip};
use crate::sums::{Factor, Numbers, Sums, ZERO};

#[derive(Clone, Copy)]
pub enum Mark {
    AtMost,
    Equal,
    AtLeast,
}

// Where a line's first part begins. "Spaces are free around marks": at a line's start only where a mark stands there.
fn start_of(s: &[u8]) -> Result<usize, Fault>
    ensures { StartIs s.now result }
{
    let i = skip(s, 0);
    if i == 0 {
        return Ok(0);
    }
    let b = byte_at(s, i);
    if b == b'-' {
        return Ok(i);
    }
    if b == b'(' {
        return Ok(i);
    }
    Err(Fault::Astray(i))
}

// Behind `<` or `>`: the relation, and the place behind it.
fn equals_at(s: &[u8], at: usize, m: Mark) -> Result<(Mark, usize), Fault>
    requires { at ≤ length s.now }
    ensures { HalfIs s.now at m result }
{
    if byte_at(s, at) == b'=' {
        return Ok((m, at + 1));
    }
    Err(Fault::Astray(at))
}

// "one of `<=`, `=`, `>=`"
fn relation_at(s: &[u8], at: usize) -> Result<(Mark, usize), Fault>
    requires at_in_bounds { at ≤ length s.now }
    requires unjoined { Unjoined s.now at }
    ensures { RelatedIs s.now at result }
{
    let b = byte_at(s, at);
    if b == b'=' {
        return Ok((Mark::Equal, at + 1));
    }
    if b == b'<' {
        return equals_at(s, at + 1, Mark::AtMost);
    }
    if b == b'>' {
        return equals_at(s, at + 1, Mark::AtLeast);
    }
    Err(Fault::Astray(at))
}

fn left_side(s: &[u8], numbers: &mut Numbers, sums: &mut Sums) -> Result<Place, Fault>
    requires { length s.now ≤ 4096 }
    ensures { LeftIs s.now numbers.new sums.new result }
{
    let at = start_of(s)?;
    let p = Place {
        at,
        bare: true,
        count: 0,
        constant: ZERO,
    };
    let factor = Factor {
        minus: false,
        product: 1,
    };
    sum(s, numbers, sums, p, Over { factor, left: 16 })
}

// "The reading is the constraint of the left side minus the right": the right side's parts are summed under a minus.
// The relation, and the sums of the left side less those of the right, up to what stands behind them.
fn right_side(
    s: &[u8],
    numbers: &mut Numbers,
    sums: &mut Sums,
    q: Place,
) -> Result<(Mark, Place), Fault>
    requires s_len_bound { length s.now ≤ 4096 }
    requires rests { Rests s.now 0 numbers.old sums.old q }
    requires unjoined { Unjoined s.now q.at }
    ensures { RightIs s.now q.at (sums_of numbers.old sums.old q) numbers.new sums.new result }
{
    let (m, at) = relation_at(s, q.at)?;
    let p = q.behind(at, true);
    let factor = Factor {
        minus: true,
        product: 1,
    };
    let e = sum(s, numbers, sums, p, Over { factor, left: 16 })?;
    Ok((m, e))
}

pub fn both_sides(s: &[u8], numbers: &mut Numbers, sums: &mut Sums) -> Result<(Mark, Place), Fault>
    requires { length s.now ≤ 4096 }
    ensures { SidesIs s.now numbers.new sums.new result }
{
    let q = left_side(s, numbers, sums)?;
    right_side(s, numbers, sums, q)
}

// A line may end behind a part with no space behind a digit.
fn end_of(s: &[u8], m: Mark, e: Place) -> Result<(Mark, Place), Fault>
    requires { Reached s.now e }
    ensures { EndIs s.now m e result }
{
    if e.bare && e.at == s.len() {
        return Ok((m, e));
    }
    Err(Fault::Astray(e.at))
}

// A line read to its end.
pub fn whole_line(s: &[u8], numbers: &mut Numbers, sums: &mut Sums) -> Result<(Mark, Place), Fault>
    requires { length s.now ≤ 4096 }
    ensures nothing_value { run_from s.now 0 first left nothing ≡ line_of numbers.new sums.new result }
    ensures counted { Counted result }
{
    let (m, e) = both_sides(s, numbers, sums)?;
    end_of(s, m, e)
}
