// What the service itself counts: logins that it refuses, changes of the inventory of each host's units, and units made
// at each address. Its threads count without a lock.
ghost use Rattle.std.specs.Prelude.{◌≤◌};

use ar_status::RefusedLogins;
use std::sync::atomic::{AtomicU16, AtomicU64, Ordering};

// What was counted of a host's units.
#[derive(Drop)]
struct HostTally {
    // How many were made and removed.
    changes: AtomicU64,
    // How many were made at each LUN, also before the start.
    makes: [AtomicU16; 8],
}

/// What was counted since the start.
#[derive(Drop)]
pub struct Tallies {
    refused_iscsi: AtomicU64,
    refused_operators: AtomicU64,
    hosts: [HostTally; 4],
}

impl Tallies {
    /// Nothing was counted yet, but how many units were made at each address, host by host and LUN by LUN.
    pub fn new(makes: &[u16; 32]) -> Tallies {
        Tallies {
            refused_iscsi: AtomicU64::new(0),
            refused_operators: AtomicU64::new(0),
            hosts: [
                tally_of(makes, 0),
                tally_of(makes, 8),
                tally_of(makes, 16),
                tally_of(makes, 24),
            ],
        }
    }

    /// Counts an initiator's login that was refused.
    pub fn refuse_iscsi(&self) {
        self.refused_iscsi.fetch_add(1, Ordering::SeqCst);
    }

    /// Counts an operator that was refused.
    pub fn refuse_operator(&self) {
        self.refused_operators.fetch_add(1, Ordering::SeqCst);
    }

    /// Counts a unit that was made.
    pub fn make_unit(&self, host: u8, lun: u8) {
        if let Some(tally) = self.hosts.get(usize::from(host)) {
            if let Some(makes) = tally.makes.get(usize::from(lun)) {
                makes.fetch_add(1, Ordering::SeqCst);
            }
            tally.changes.fetch_add(1, Ordering::SeqCst);
        }
    }

    /// Counts a unit that was removed.
    pub fn drop_unit(&self, host: u8) {
        if let Some(tally) = self.hosts.get(usize::from(host)) {
            tally.changes.fetch_add(1, Ordering::SeqCst);
        }
    }

    /// Returns how often the inventory of a host's units has changed.
    pub fn inventory_changes(&self, host: u8) -> u64 {
        match self.hosts.get(usize::from(host)) {
            Some(tally) => tally.changes.load(Ordering::SeqCst),
            None => 0,
        }
    }

    /// Returns how many units were made at an address before the one that is there, modulo 2^16.
    pub fn generation(&self, host: u8, lun: u8) -> u16 {
        match self.hosts.get(usize::from(host)) {
            Some(tally) => match tally.makes.get(usize::from(lun)) {
                Some(makes) => makes.load(Ordering::SeqCst).wrapping_sub(1),
                None => 0,
            },
            None => 0,
        }
    }

    /// Returns the generations of all units, host by host and LUN by LUN.
    pub fn generations(&self) -> [u16; 32] {
        let mut generations = [0; 32];
        for (place, generation) in generations.iter_mut().enumerate() {
            *generation = self.generation((place / 8) as u8, (place % 8) as u8);
        }
        generations
    }

    /// Returns how many logins were refused.
    pub fn refused(&self) -> RefusedLogins {
        RefusedLogins {
            iscsi: self.refused_iscsi.load(Ordering::SeqCst),
            operators: self.refused_operators.load(Ordering::SeqCst),
        }
    }
}

// That of the host whose numbers begin at this place.
fn tally_of(makes: &[u16; 32], first: usize) -> HostTally
    requires { first ≤ 24 }
{
    HostTally {
        changes: AtomicU64::new(0),
        makes: [
            AtomicU16::new(makes[first]),
            AtomicU16::new(makes[first + 1]),
            AtomicU16::new(makes[first + 2]),
            AtomicU16::new(makes[first + 3]),
            AtomicU16::new(makes[first + 4]),
            AtomicU16::new(makes[first + 5]),
            AtomicU16::new(makes[first + 6]),
            AtomicU16::new(makes[first + 7]),
        ],
    }
}
