// The disks of an array: 4 to 12 of one shape, with a flag for each extent. A disk in use can still count a fault, so
// that every fault shows in the counts.
ghost use Rattle.std.specs.Prelude.{◌≡◌, ◌≤◌, length};

use crate::Health;
use crate::log::AccessLog;
use crate::marks::Marks;
use ar_disks::{Disk, Geometry, Place};
use std::marker::Model;

mod access;
mod changes;
mod parts;
mod space;
mod start;

pub use start::fault_of;

/// Disks of one shape, with their health, the flags of their unassigned (`loose`) extents and, for contracts alone, a
/// log of all accesses.
#[derive(Drop)]
pub struct DiskSet<D: Disk> {
    geometry: Geometry,
    extents: u16,
    disks: Vec<D>,
    health: Health,
    loose: Vec<Marks>,
    log: AccessLog,
}

impl<D: Disk> Model for DiskSet<D> {
    ghost use Rattle.std.specs.Prelude.{map};
    ghost use Rattle.ar_extents.specs.Set.{SetState, IsValidSet};

    ghost Value = { SetState };

    ghost view = { λ s. record {
      geometry = s.geometry;
      extents = s.extents;
      disks = map D.state s.disks.items;
      health = s.health;
      loose = s.loose.items;
      log = s.log.accesses;
    } };

    ghost invariant = { λ s. IsValidSet (record {
      geometry = s.geometry;
      extents = s.extents;
      disks = map D.state s.disks.items;
      health = s.health;
      loose = s.loose.items;
      log = s.log.accesses;
    }) };
}

impl<D: Disk> DiskSet<D> {
    ghost use Rattle.ar_extents.specs.Health.{is_missing, HealthFits};
    ghost use Rattle.ar_extents.specs.Set.{IsValidSet};

    /// The geometry of all disks.
    pub fn geometry(&self) -> Geometry
        ensures { result ≡ self.now.geometry }
    {
        self.geometry
    }

    /// The number of extents of each disk, 1 to 1,024.
    pub fn extents(&self) -> u16
        ensures same { result ≡ self.now.extents }
        ensures at_least { 1 ≤ result }
        ensures at_most { result ≤ 1024 }
    {
        self.extents
    }

    /// The number of disks, 4 to 12.
    pub fn count(&self) -> u8
        ensures same { result ≡ length self.now.disks }
        ensures at_least { 4 ≤ result }
        ensures at_most { result ≤ 12 }
    {
        self.disks.len() as u8
    }

    /// Which disk is down, if any.
    pub fn health(&self) -> Health
        ensures same { result ≡ self.now.health }
        ensures fits { HealthFits result (length self.now.disks) self.now.extents }

        // The invariant of the type, for callers that need it.
        ensures kept { IsValidSet self.now }
    {
        self.health
    }

    /// Whether an extent is missing: its disk has failed, or the extent isn't rebuilt yet. In a failed set none is.
    pub fn missing(&self, place: Place) -> bool
        ensures { result ≡ is_missing self.now.health place.disk place.extent }
    {
        self.health.is_missing(place)
    }
}
