// A served array, and what its doors and threads share beside it.
ghost use Rattle.std.specs.Prelude.{◌≡◌, ◌<◌};
ghost use Rattle.ar_operated.specs.LoggedIn.{hosts_logged_in, is_logged_in};

use crate::Spares;
use ar_attached::{Initiators, Tallies};
use ar_disks::Host;
use ar_fuses::{Fuse, disk_totals, lost_disks};
use ar_inventory::UnitNames;
use ar_latency::CommandLatencies;
use ar_sessions::Desk;
use ar_shown::Beside;
use ar_status::{Activity, ArrayName, EventLog, SessionNumbers};
use std::alloc::Global;
use std::sync::atomic::AtomicBool;
use std::sync::ledger::Ledger;
use std::sync::{Mutex, Wait};
use std::time::{Clock, Instant};

/// An array that hosts and operators use at the same time, and others watch.
#[derive(Drop)]
pub struct OperatedArray<'a, R: Wait, A: Drop, L: Ledger, M> {
    pub rt: &'a R,
    pub alloc: Global,
    pub array: &'a Mutex<A>,
    pub desk: &'a Mutex<Desk<L>>,
    /// The iSCSI sessions.
    pub initiators: &'a Mutex<Initiators>,
    /// Disks that replace those that fail. Whoever takes this lock and others takes it first.
    pub spares: &'a Mutex<Spares>,
    /// The fuses of its disks, by number.
    pub fuses: &'a [Fuse; 12],
    /// Makes its new disks.
    pub disks: M,
    /// What has happened to it. Whoever takes both locks takes this one first.
    pub log: &'a Mutex<EventLog>,
    /// What the service counts itself.
    pub tallies: &'a Tallies,
    /// What hosts did lately. Whoever takes this lock and others takes it last.
    pub activity: &'a Mutex<Activity>,
    /// The array's name.
    pub name: ArrayName,
    /// Distinguishes it from others in the serial numbers of its units, if initiators see them.
    pub number: Option<u32>,
    /// A name by which HTTP clients may ask for the service, beside those of 127.0.0.1.
    pub http_host: Option<&'a str>,
    /// When the service began, if the clock could be read.
    pub began: Option<Instant>,
    /// Says how much memory there is; None: nothing is warned of.
    pub system: Option<&'a HostRuntime>,
    /// Set once the service is to end. All doors look at it.
    pub stop: &'a AtomicBool,
    /// Set once all sessions of hosts have ended, up to when the array is maintained.
    pub ended: &'a AtomicBool,
}

/// What is read of a service before its array is locked.
#[derive(Clone, Copy)]
pub struct Outside {
    pub sessions: SessionNumbers,
    /// How long commands took, since the start.
    pub latencies: CommandLatencies,
    /// The spare disks that are left.
    pub spares: u8,
}

impl<'a, R: Wait, A: Drop, L: Ledger, M> OperatedArray<'a, R, A, L, M> {
    /// What tells its units from all others in their serial numbers, if initiators see them.
    pub fn names(&self) -> Option<UnitNames> {
        match self.number {
            Some(array) => Some(UnitNames {
                array,
                generations: self.tallies.generations(),
            }),
            None => None,
        }
    }

    /// How many spare disks are left.
    pub fn spares_left(&self) -> u8 {
        self.spares.lock(self.rt).left()
    }

    /// The seconds that a rebuild still takes by its pace, if one goes on and that can be told.
    pub fn rebuild_seconds_left(&self) -> Option<u64> {
        self.activity.lock(self.rt).rebuild_seconds_left()
    }
}

impl<'a, R: Wait + Clock, A: Drop, L: Ledger, M> OperatedArray<'a, R, A, L, M> {
    /// Seconds since the service began; 0 where the clock can't be read.
    pub fn seconds(&self) -> u64 {
        match self.began {
            Some(began) => seconds_since(self.rt, began),
            None => 0,
        }
    }

    /// What is read of the service before its array is locked. It takes one lock at a time.
    pub fn outside(&self) -> Outside {
        let (hosts, latencies) = seen_at(&self.desk.lock(self.rt));
        let discovery = self.initiators.lock(self.rt).discoveries();
        Outside {
            sessions: SessionNumbers { hosts, discovery },
            latencies,
            spares: self.spares_left(),
        }
    }

    /// What is shown beside the array. It is read with the array's lock held, under which accesses are counted.
    pub fn beside(&self, outside: Outside, seconds: u64) -> Beside {
        Beside {
            name: self.name,
            seconds,
            lost: lost_disks(self.fuses),
            disks: disk_totals(self.fuses),
            sessions: outside.sessions,
            spares: outside.spares,
            refused: self.tallies.refused(),
            latencies: outside.latencies,
            samples: self.activity.lock(self.rt).samples(),
        }
    }
}

// Which hosts are logged in, and how long commands took.
fn seen_at<L: Ledger>(desk: &Desk<L>) -> ([bool; 4], CommandLatencies)
    ensures { result.0 ≡ hosts_logged_in desk.now }
{
    (hosts_logged_in(desk), desk.latencies())
}

// Which hosts are logged in.
fn hosts_logged_in<L: Ledger>(desk: &Desk<L>) -> [bool; 4]
    ensures { result ≡ hosts_logged_in desk.now }
{
    [
        is_logged_in(desk, 0),
        is_logged_in(desk, 1),
        is_logged_in(desk, 2),
        is_logged_in(desk, 3),
    ]
}

// Whether a host is logged in.
fn is_logged_in<L: Ledger>(desk: &Desk<L>, number: u8) -> bool
    requires { number < 4 }
    ensures { result ≡ is_logged_in desk.now number }
{
    match Host::new(number) {
        Some(host) => desk.counts(host).is_some(),
        None => false,
    }
}

// Whole seconds since, or 0 where the clock can't be read.
fn seconds_since<R: Clock>(rt: &R, since: Instant) -> u64 {
    match since.elapsed(rt) {
        Ok(elapsed) => elapsed.as_secs(),
        Err(_) => 0,
    }
}
