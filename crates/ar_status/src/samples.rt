// What hosts did lately: a sample for each spell of five seconds, for ten minutes. The list has a fixed size, and is
// copied under a lock without an allocation.
ghost use Rattle.std.specs.Prelude.{◌≡◌, ◌≤◌, [], ◌∷◌, length, take};

use crate::ArrayStatus;
use crate::rebuild_pace::RebuildPace;
use ar_latency::{CommandLatencies, LatencyCounters};
use serde::{Described, Serialize, Serializer};

/// How many samples are listed.
pub const SAMPLES_MAX: usize = 120;

/// The seconds of a spell, at least.
pub const SPELL: u64 = 5;

/// What hosts did in a spell.
#[derive(Clone, Copy, Debug, PartialEq, Eq, Serialize)]
pub struct Sample {
    /// When it ended, in seconds after the start of the service.
    pub seconds: u64,
    /// How many seconds it took.
    pub spell: u64,
    pub commands: u64,
    /// Bytes that were read or written.
    pub bytes: u64,
    /// The bucket of the command that took longest (`LATENCY_BOUNDS`); None: none was timed.
    pub slowest: Option<u8>,
}

/// The last 120 samples.
#[derive(Clone, Copy)]
pub struct RecentSamples {
    // The first `count` are samples, the newest first.
    list: [Sample; SAMPLES_MAX],
    count: usize,
    ghost within: { count ≤ 120 },
    ghost places: { length list ≡ 120 },
}

impl RecentSamples {
    // What stands in the places without a sample.
    const NO_SAMPLE: Sample = Sample {
        seconds: 0,
        spell: 0,
        commands: 0,
        bytes: 0,
        slowest: None,
    };

    /// No spell has ended.
    pub fn new() -> RecentSamples
        ensures { take result.count result.list ≡ [] }
    {
        RecentSamples {
            list: [RecentSamples::NO_SAMPLE; SAMPLES_MAX],
            count: 0,
        }
    }

    /// Adds a sample as the newest. Of 120 the oldest is dropped.
    pub fn add(&mut self, sample: Sample)
        ensures { take self.new.count self.new.list ≡ take 120 (sample ∷ take self.old.count self.old.list) }
    {
        self.list.copy_within(..SAMPLES_MAX - 1, 1);
        self.list[0] = sample;
        self.count = (self.count + 1).min(SAMPLES_MAX);
    }

    /// Returns the samples, the newest first.
    pub fn as_slice(&self) -> &[Sample]
        ensures { result.now ≡ take self.now.count self.now.list }
    {
        &self.list[..self.count]
    }
}

impl Described for RecentSamples {}

impl Serialize for RecentSamples {
    fn serialize<S: Serializer>(&self, out: &mut S) -> Result<(), S::Error> {
        self.as_slice().serialize(out)
    }
}

// What was counted when a spell began.
#[derive(Clone, Copy)]
struct Counted {
    seconds: u64,
    commands: u64,
    bytes: u64,
    latencies: CommandLatencies,
}

/// The samples of an array, the spell that goes on, and how fast it is rebuilt.
#[derive(Clone, Copy)]
pub struct Activity {
    samples: RecentSamples,
    // None: no look was taken.
    since: Option<Counted>,
    pace: RebuildPace,
}

impl Activity {
    /// No look was taken.
    pub fn new() -> Activity {
        Activity {
            samples: RecentSamples::new(),
            since: None,
            pace: RebuildPace::new(),
        }
    }

    /// Adds a sample, if the spell that goes on has taken five seconds by this look, and notes how far a rebuild is.
    pub fn look(&mut self, status: &ArrayStatus) {
        let now = Counted::of(status);
        self.pace.look(now.seconds, status.health, status.extents);
        let Some(since) = self.since else {
            self.since = Some(now);
            return;
        };
        if now.seconds.saturating_sub(since.seconds) >= SPELL {
            self.samples.add(now.sample_since(&since));
            self.since = Some(now);
        }
    }

    /// The seconds that a rebuild still takes by its pace, if one goes on and that can be told.
    pub fn rebuild_seconds_left(&self) -> Option<u64> {
        self.pace.seconds_left()
    }

    /// Returns the samples.
    pub fn samples(&self) -> RecentSamples {
        self.samples
    }
}

impl Counted {
    fn of(status: &ArrayStatus) -> Counted {
        let mut commands = 0_u64;
        let mut bytes = 0_u64;
        for host in status.hosts {
            commands = commands.saturating_add(host.commands);
            bytes = bytes.saturating_add(host.read_bytes);
            bytes = bytes.saturating_add(host.written_bytes);
        }
        Counted {
            seconds: status.uptime_seconds,
            commands,
            bytes,
            latencies: status.latencies,
        }
    }

    // The sample of a spell that began with `was`.
    fn sample_since(&self, was: &Counted) -> Sample {
        Sample {
            seconds: self.seconds,
            spell: self.seconds.saturating_sub(was.seconds),
            commands: self.commands.saturating_sub(was.commands),
            bytes: self.bytes.saturating_sub(was.bytes),
            slowest: slowest(&was.latencies, &self.latencies),
        }
    }
}

// The last bucket to which commands came.
fn slowest(was: &CommandLatencies, now: &CommandLatencies) -> Option<u8> {
    let mut slowest = None;
    for place in 0..12_u8 {
        if has_grown(&was.read, &now.read, place)
            || has_grown(&was.write, &now.write, place)
            || has_grown(&was.synchronize_cache, &now.synchronize_cache, place)
            || has_grown(&was.other, &now.other, place)
        {
            slowest = Some(place);
        }
    }
    slowest
}

// Whether commands came to a bucket.
fn has_grown(was: &LatencyCounters, now: &LatencyCounters, place: u8) -> bool {
    let place = usize::from(place);
    match (was.buckets.get(place), now.buckets.get(place)) {
        (Some(was), Some(now)) => *now > *was,
        _ => false,
    }
}
