// The slots of a mirrored group. Members 0 and 1 are a pair, and so are 2 and 3; with 2 rows an extent:
//
//              member 0   member 1   member 2   member 3
//     row 0    slot 0     slot 0     slot 2     slot 2
//     row 1    slot 1     slot 1     slot 3     slot 3
ghost use Rattle.std.specs.Prelude.{◌≡◌, ◌<◌};
ghost use Rattle.ar_mirror.specs.Slots.{one_of, other_of, row_of, mirror_slots_of, partner_of};

use ar_disks::{Geometry, Members, Place};

// The same row of the two members of a pair.
#[derive(Clone, Copy)]
pub(crate) struct Pair {
    pub(crate) one: Place,
    pub(crate) other: Place,
    pub(crate) row: u16,
}

// The place of a slot.
pub(crate) fn pair_of(geometry: Geometry, members: &Members, slot: u16) -> Pair
    requires { slot < mirror_slots_of geometry }
    ensures one { result.one ≡ one_of geometry members.now slot }
    ensures other { result.other ≡ other_of geometry members.now slot }
    ensures row { result.row ≡ row_of geometry slot }
{
    let rows = geometry.rows();
    let first = 2 * (slot / rows) as u8;
    Pair {
        one: members.at(first),
        other: members.at(first + 1),
        row: slot % rows,
    }
}

// The other member position of the pair.
pub(crate) fn partner(position: u8) -> u8
    requires { position < 4 }
    ensures partner { result ≡ partner_of position }
    ensures exists { result < 4 }
{
    match position {
        0 => 1,
        1 => 0,
        2 => 3,
        _ => 2,
    }
}
