// The shape of a disk, by which a set accepts it: its geometry and its number of extents.
ghost use Rattle.std.specs.Prelude.{◌≡◌};
ghost use Rattle.ar_extents.specs.Changes.{has_shape, same_geometry};

use ar_disks::{Disk, Geometry};

// Whether the disk has this shape.
pub(crate) fn has_shape<D: Disk>(disk: &D, geometry: Geometry, extents: u16) -> bool
    ensures { result ≡ has_shape geometry extents (D.state disk.now) }
{
    is_same(disk.geometry(), geometry) && disk.extents() == extents
}

fn is_same(one: Geometry, other: Geometry) -> bool
    ensures { result ≡ same_geometry one other }
{
    match one {
        Geometry::Paper => matches!(other, Geometry::Paper),
        Geometry::Small => matches!(other, Geometry::Small),
    }
}
