// The latest events, the newest first. A new one replaces the oldest, so that the list has a fixed size and is copied
// under a lock without an allocation.
ghost use Rattle.std.specs.Prelude.{◌≡◌, ◌≤◌, [], ◌∷◌, length, take};

use serde::{Described, Serialize, Serializer};

/// How many events are listed.
pub const EVENTS_MAX: usize = 50;

/// What has happened.
#[derive(Clone, Copy, Debug, PartialEq, Eq, Serialize)]
#[serde(tag = "kind", rename_all = "snake_case")]
pub enum EventKind {
    DiskFailed { disk: u8 },
    DiskReplaced { disk: u8 },
    /// The replaced disk has all its extents again.
    DiskRebuilt { disk: u8 },
    DiskAdded { disk: u8 },
    /// Two disks were missing at once.
    ArrayFailed,
    UnitMade { host: u8, lun: u8 },
    UnitGrown { host: u8, lun: u8 },
    UnitDropped { host: u8, lun: u8 },
}

/// An event, and how many seconds after the start of the service it happened.
#[derive(Clone, Copy, Debug, PartialEq, Eq, Serialize)]
pub struct RecentEvent {
    pub seconds: u64,
    #[serde(flatten)]
    pub kind: EventKind,
}

/// The last 50 events.
#[derive(Clone, Copy)]
pub struct RecentEvents {
    // The first `count` are events, the newest first.
    list: [RecentEvent; EVENTS_MAX],
    count: usize,
    ghost within: { count ≤ 50 },
    ghost places: { length list ≡ 50 },
}

impl RecentEvents {
    // What stands in the places without an event.
    const NO_EVENT: RecentEvent = RecentEvent {
        seconds: 0,
        kind: EventKind::ArrayFailed,
    };

    /// No event has happened.
    pub fn new() -> RecentEvents
        ensures { take result.count result.list ≡ [] }
    {
        RecentEvents {
            list: [RecentEvents::NO_EVENT; EVENTS_MAX],
            count: 0,
        }
    }

    /// Adds an event as the newest. Of 50 the oldest is dropped.
    pub fn add(&mut self, event: RecentEvent)
        ensures { take self.new.count self.new.list ≡ take 50 (event ∷ take self.old.count self.old.list) }
    {
        self.list.copy_within(..EVENTS_MAX - 1, 1);
        self.list[0] = event;
        self.count = (self.count + 1).min(EVENTS_MAX);
    }

    /// Returns the events, the newest first.
    pub fn as_slice(&self) -> &[RecentEvent]
        ensures { result.now ≡ take self.now.count self.now.list }
    {
        &self.list[..self.count]
    }
}

impl Described for RecentEvents {}

impl Serialize for RecentEvents {
    fn serialize<S: Serializer>(&self, out: &mut S) -> Result<(), S::Error> {
        self.as_slice().serialize(out)
    }
}
