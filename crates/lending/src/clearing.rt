// The room of a call that takes no steps.
ghost use Rattle.std.specs.Prelude.{◌≡◌};
ghost use Rattle.lending.specs.sparse_copy.Over.{cleared, tables};
ghost use Rattle.sparse.specs.Tables.{held, Same};

use crate::room;
use sparse::tables::TablesMut;

// "working room, where lent, is all zero after every call"
pub fn clear_room(room: &mut TablesMut)
    ensures does { held room.new ≡ cleared (held room.old) }
    ensures same { Same room.old room.new }
{
    room.long();
    room::clear(room);
}
