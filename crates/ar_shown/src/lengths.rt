// The lengths of an array's units, of which it knows the number of sectors without a look at their blocks.
ghost use Rattle.std.specs.Prelude.{◌≡◌, ◌<◌};
ghost use Rattle.ar_answers.specs.Pictures.{addr_at};
ghost use Rattle.ar_shown.specs.Lengths.{lengths_from, lengths_in, unit_size};

use ar_core::Array;
use ar_disks::{Addr, Disk, Host};

/// Returns the sectors of each unit, by its host and its LUN; None: there is no unit.
pub(crate) fn lengths_of<D: Disk>(array: &Array<D>) -> [[Option<u32>; 8]; 4]
    ensures { result ≡ lengths_in array.now.store.book }
{
    [
        lengths_from(array, 0),
        lengths_from(array, 8),
        lengths_from(array, 16),
        lengths_from(array, 24),
    ]
}

// The sectors of eight units. That of LUN L of host H has place 8 H + L.
fn lengths_from<D: Disk>(array: &Array<D>, place: u8) -> [Option<u32>; 8]
    requires { place < 25 }
    ensures { result ≡ lengths_from array.now.store.book place }
{
    [
        unit_size(array, place),
        unit_size(array, place + 1),
        unit_size(array, place + 2),
        unit_size(array, place + 3),
        unit_size(array, place + 4),
        unit_size(array, place + 5),
        unit_size(array, place + 6),
        unit_size(array, place + 7),
    ]
}

// The sectors of the unit with a place, if there is one.
fn unit_size<D: Disk>(array: &Array<D>, place: u8) -> Option<u32>
    requires { place < 32 }
    ensures { result ≡ unit_size array.now.store.book place }
{
    array.sectors(addr_at(place))
}

// The address with a place.
fn addr_at(place: u8) -> Addr
    requires place { place < 32 }
    ensures { result ≡ addr_at place }
{
    let Some(host) = Host::new(place / 8) else {
        unreachable!()
    };
    Addr {
        host,
        lun: place % 8,
    }
}
