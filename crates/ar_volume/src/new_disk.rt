// A disk that is given to an array, or given back by it.
use ar_disks::Disk;
use std::fmt;
use std::marker::Model;

/// A disk that an event carries. Contracts see its state; its fault count can still grow.
#[derive(Drop)]
pub struct NewDisk<D: Disk> {
    disk: D,
}

impl<D: Disk> Model for NewDisk<D> {
    ghost use Rattle.ar_disks.specs.Disk.{DiskState};
    ghost use Rattle.ar_extents.specs.Set.{CanCount};

    ghost Value = { DiskState };

    ghost view = { λ n. D.state n.disk };

    ghost invariant = { λ n. CanCount (D.state n.disk) };
}

impl<D: Disk> NewDisk<D> {
    ghost use Rattle.std.specs.Prelude.{◌≡◌};
    ghost use Rattle.ar_extents.specs.Set.{CanCount};

    /// Wraps `disk`, whose fault count must be below its maximum.
    pub fn new(disk: D) -> NewDisk<D>
        requires { CanCount (D.state disk) }
        ensures { result ≡ D.state disk }
    {
        NewDisk { disk }
    }

    /// Returns the disk.
    pub fn into_disk(self) -> D
        ensures is { D.state result ≡ self }
        ensures counting { CanCount (D.state result) }
    {
        self.disk
    }
}

impl<D: Disk> fmt::Debug for NewDisk<D> {
    // A message doesn't print the contents of a disk.
    fn fmt<W: fmt::Write>(&self, f: &mut fmt::Formatter<W>) -> fmt::Result {
        f.write_str("NewDisk")
    }
}
