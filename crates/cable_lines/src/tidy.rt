// What stands behind the line's bytes is cleared, so that a line that has begun is held in one way alone.
ghost use Rattle.std.specs.Prelude.{◌≡◌};
ghost use Rattle.cable_lines.specs.State.{held_by};
ghost use Rattle.cable_lines.specs.Bytes.{bytes_of};

use crate::state::{LIMIT, State};

pub fn tidy(s: &mut State)
    ensures { s.new ≡ bytes_of (held_by s.old) }
{
    let n = s[LIMIT];
    if n <= 200 {
        s[n as usize..LIMIT].fill(0);
        return;
    }
    s[LIMIT] = 201;
    s[..LIMIT].fill(0);
}
