// Health: at most one disk is down, or the set has failed permanently.
//
//     Whole --fault--> Out d --replace d--> Rebuilding d 0 --extent done--> Rebuilding d 1 .. --last--> Whole
//                        |                        |  fault of d: Out d
//                        +--- fault of another ---+--------------------> Broken
ghost use Rattle.std.specs.Prelude.{◌≡◌};

use ar_disks::Place;

/// The health of a set: which disk is down, if any.
#[derive(Clone, Copy, Debug, PartialEq, Eq)]
pub enum Health {
    /// Healthy: all disks are present.
    Whole,
    /// This disk has failed: none of its extents is used.
    Out(u8),
    /// This disk was replaced: its extents below the second number are rebuilt, the others aren't used yet.
    Rebuilding(u8, u16),
    /// Two disks were down at once: data loss. No extent is used any more.
    Broken,
}

impl Health {
    ghost use Rattle.ar_extents.specs.Health.{is_lost, is_missing, after_fault};

    // Whether an extent isn't used.
    pub(crate) fn is_lost(self, place: Place) -> bool
        ensures { result ≡ is_lost self place.disk place.extent }
    {
        match self {
            Health::Whole => false,
            Health::Out(disk) => place.disk == disk,
            Health::Rebuilding(disk, done) => place.disk == disk && place.extent >= done,
            Health::Broken => true,
        }
    }

    // Whether an extent is missing. In a failed set none is.
    pub(crate) fn is_missing(self, place: Place) -> bool
        ensures { result ≡ is_missing self place.disk place.extent }
    {
        match self {
            Health::Broken => false,
            _ => self.is_lost(place),
        }
    }

    // The health after `disk` has faulted or was taken out.
    pub(crate) fn after_fault(self, disk: u8) -> Health
        ensures { result ≡ after_fault self disk }
    {
        match self {
            Health::Whole => Health::Out(disk),
            Health::Out(down) | Health::Rebuilding(down, _) if down == disk => Health::Out(disk),
            _ => Health::Broken,
        }
    }
}
