// What has happened to an array, found by comparing looks at it: how it was seen last, and the events that lead from
// each look to the next.
ghost use Rattle.std.specs.Prelude.{◌≡◌, ◌-◌, ◌++◌, [], ◌∷◌, map};
ghost use Rattle.std.specs.List.{range_with_len};
ghost use Rattle.ar_status.specs.declared.events.EventKind.TheVariants.{DiskAdded};
ghost use Rattle.ar_status.specs.Changes.{listed_with, between, events_in, falls_to, recovers_from};

use crate::{ArrayHealth, EventKind, RecentEvent, RecentEvents};

/// The latest events of an array, and how it was seen last.
#[derive(Clone, Copy)]
pub struct EventLog {
    health: ArrayHealth,
    disks: u8,
    events: RecentEvents,
}

impl EventLog {
    /// Begins with an array that is seen in this health, with this number of disks.
    pub fn new(health: ArrayHealth, disks: u8) -> EventLog
        ensures health { result.health ≡ health }
        ensures disks { result.disks ≡ disks }
        ensures events { events_in result.events ≡ [] }
    {
        EventLog {
            health,
            disks,
            events: RecentEvents::new(),
        }
    }

    /// Compares a look with the last one: adds the fewest events that lead from one health to the other, and then the
    /// disks that are new, in order. `seconds` is when it was taken, after the start of the service.
    pub fn see(&mut self, seconds: u64, health: ArrayHealth, disks: u8)
        ensures health { self.new.health ≡ health }
        ensures disks { self.new.disks ≡ disks }
        ensures events { events_in self.new.events ≡ listed_with seconds
            (between self.old.health health ++ map DiskAdded (range_with_len self.old.disks (disks - self.old.disks)))
            (events_in self.old.events) }
    {
        add_change(&mut self.events, seconds, self.health, health);
        add_disks(&mut self.events, seconds, self.disks, disks);
        self.health = health;
        self.disks = disks;
    }

    /// Adds an event that no look shows.
    pub fn add(&mut self, seconds: u64, kind: EventKind)
        ensures health { self.new.health ≡ self.old.health }
        ensures disks { self.new.disks ≡ self.old.disks }
        ensures events { events_in self.new.events ≡ listed_with seconds (kind ∷ []) (events_in self.old.events) }
    {
        add(&mut self.events, seconds, kind);
    }

    /// Returns the latest events.
    pub fn events(&self) -> RecentEvents
        ensures { result ≡ self.now.events }
    {
        self.events
    }
}

// Adds an event.
fn add(events: &mut RecentEvents, seconds: u64, kind: EventKind)
    ensures { events_in events.new ≡ listed_with seconds (kind ∷ []) (events_in events.old) }
{
    events.add(RecentEvent { seconds, kind });
}

// Adds the events that lead from a health to another.
fn add_change(events: &mut RecentEvents, seconds: u64, old: ArrayHealth, new: ArrayHealth)
    ensures { events_in events.new ≡ listed_with seconds (between old new) (events_in events.old) }
{
    match (old, new) {
        // A failed array stays failed.
        (ArrayHealth::Broken, _) => {}
        (_, ArrayHealth::Broken) => add(events, seconds, EventKind::ArrayFailed),
        (ArrayHealth::Out { disk: was }, ArrayHealth::Out { disk }) if was == disk => {}
        (ArrayHealth::Out { disk: was }, ArrayHealth::Rebuilding { disk, .. }) if was == disk => {
            add(events, seconds, EventKind::DiskReplaced { disk });
        }
        // The replaced disk has failed.
        (ArrayHealth::Rebuilding { disk: was, .. }, ArrayHealth::Out { disk }) if was == disk => {
            add(events, seconds, EventKind::DiskFailed { disk });
        }
        (ArrayHealth::Rebuilding { disk: was, done }, ArrayHealth::Rebuilding { disk, done: more })
            if was == disk => {
            // Fewer extents are done if the disk has failed and was replaced again.
            if more < done {
                add_fall(events, seconds, new);
            }
        }
        _ => {
            add_recovery(events, seconds, old);
            add_fall(events, seconds, new);
        }
    }
}

// Adds the events that lead from a health to that of an array with all disks.
fn add_recovery(events: &mut RecentEvents, seconds: u64, old: ArrayHealth)
    ensures { events_in events.new ≡ listed_with seconds (recovers_from old) (events_in events.old) }
{
    match old {
        ArrayHealth::Whole | ArrayHealth::Broken => {}
        ArrayHealth::Out { disk } => {
            add(events, seconds, EventKind::DiskReplaced { disk });
            add(events, seconds, EventKind::DiskRebuilt { disk });
        }
        ArrayHealth::Rebuilding { disk, .. } => {
            add(events, seconds, EventKind::DiskRebuilt { disk });
        }
    }
}

// Adds the events that lead to a health from that of an array with all disks.
fn add_fall(events: &mut RecentEvents, seconds: u64, new: ArrayHealth)
    ensures { events_in events.new ≡ listed_with seconds (falls_to new) (events_in events.old) }
{
    match new {
        ArrayHealth::Whole => {}
        ArrayHealth::Out { disk } => add(events, seconds, EventKind::DiskFailed { disk }),
        ArrayHealth::Rebuilding { disk, .. } => {
            add(events, seconds, EventKind::DiskFailed { disk });
            add(events, seconds, EventKind::DiskReplaced { disk });
        }
        ArrayHealth::Broken => add(events, seconds, EventKind::ArrayFailed),
    }
}

// Adds the disks from a number to before another.
fn add_disks(events: &mut RecentEvents, seconds: u64, from: u8, to: u8)
    ensures { events_in events.new
        ≡ listed_with seconds (map DiskAdded (range_with_len from (to - from))) (events_in events.old) }
{
    for disk in from..to {
        add(events, seconds, EventKind::DiskAdded { disk });
    }
}
