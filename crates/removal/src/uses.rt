// "Use counts fall; a variable at zero goes with its row and cells and leaves the changed set; the next fetch lists it as gone if it was reported."
ghost use Rattle.std.specs.Prelude.{◌≡◌, false, [], ◌∷◌, ◌≤◌};
ghost use Rattle.steps.specs.Number.{Mark};
ghost use Rattle.steps.specs.Remove.{drop_use, drop_uses};
ghost use Rattle.layout.specs.Layout.{term_room};
ghost use Rattle.sparse.specs.Sparse.{read};
ghost use Rattle.waist.specs.Standing.{Standing, Makes};
ghost use Rattle.removal.specs.Tag.{Stands};
ghost use Rattle.removal.specs.Room.{Room};
ghost use Rattle.removal.specs.Uses.{use_of, uses_from};
ghost use Rattle.sparse.specs.Tables.{held, Same};

use layout::TERM_ROOM;
use sparse::tables::TablesMut;
use variables::gone::tell_gone;
use variables::less::use_less;
use waist::symbols::purge;

// One use of the variable less: one that goes is told, and purged.
fn drop_use(room: &mut TablesMut, n: u64)
    requires stands { Stands (held room.old) }
    requires room { Room (use_of n ∷ []) (read (held room.old)).changes }
    ensures does { (a : Mark) → Standing false a (held room.old) → Makes false false a a (drop_use (use_of n)) (held room.old) (held room.new) }
    ensures same { Same room.old room.new }
{
    let g = use_less(room.words, room.bytes, room.reals, n);
    let Some(lost) = g else {
        return;
    };
    tell_gone(room.words, n, lost.unreported);
    purge(room, lost.place);
}

// "Use counts fall; a variable at zero goes with its row and cells": the variables of the first `count` numbers.
pub fn drop_uses(room: &mut TablesMut, numbers: &[u32; TERM_ROOM], count: usize)
    requires stands { Stands (held room.old) }
    requires count_le_term_room { count ≤ term_room }
    requires room { Room (uses_from numbers.now count 0) (read (held room.old)).changes }
    ensures does { (a : Mark) → Standing false a (held room.old) → Makes false false a a (drop_uses (uses_from numbers.now count 0)) (held room.old) (held room.new) }
    ensures same { Same room.old room.new }
{
    for j in 0..count {
        drop_use(room, u64::from(numbers[j]));
    }
}
