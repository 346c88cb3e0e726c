// Histograms of the times of commands.
ghost use Rattle.std.specs.Prelude.{◌≡◌, ◌≤◌};
ghost use Rattle.ar_latency.specs.Latency.{bucket_of, latencies_after, latency_after, operation_of};

use serde::Serialize;

/// The upper bounds of all buckets but the last, in microseconds. A command is in the first whose bound it doesn't
/// exceed.
pub const LATENCY_BOUNDS: [u64; 11] = [
    50, 100, 250, 500, 1_000, 2_500, 10_000, 50_000, 250_000, 1_000_000, 10_000_000,
];

/// What a command does, as far as its time is concerned.
#[derive(Clone, Copy, Debug, PartialEq, Eq)]
pub enum TimedOperation {
    Read,
    Write,
    SynchronizeCache,
    Other,
}

/// How long the commands of one operation took. The numbers saturate.
#[derive(Clone, Copy, Debug, PartialEq, Eq, Serialize)]
pub struct LatencyCounters {
    /// Commands by bucket. The last one has no bound.
    pub buckets: [u64; 12],
    /// The time that all of them took, in microseconds.
    pub sum_micros: u64,
}

/// How long commands took, by operation.
#[derive(Clone, Copy, Debug, PartialEq, Eq, Serialize)]
pub struct CommandLatencies {
    pub read: LatencyCounters,
    pub write: LatencyCounters,
    pub synchronize_cache: LatencyCounters,
    /// Of all other operations.
    pub other: LatencyCounters,
}

impl TimedOperation {
    /// Returns what a command block asks for. (SBC-3: READ, WRITE and SYNCHRONIZE CACHE of each length)
    pub fn of(cdb: &[u8; 16]) -> TimedOperation
        ensures { result ≡ operation_of cdb.now }
    {
        match cdb[0] {
            // 6, 10, 12 and 16 bytes long
            0x08 | 0x28 | 0xA8 | 0x88 => TimedOperation::Read,
            0x0A | 0x2A | 0xAA | 0x8A => TimedOperation::Write,
            0x35 | 0x91 => TimedOperation::SynchronizeCache,
            _ => TimedOperation::Other,
        }
    }
}

impl LatencyCounters {
    /// No command has come yet.
    pub const NONE: LatencyCounters = LatencyCounters {
        buckets: [0; 12],
        sum_micros: 0,
    };

    // Counts a command that took this many microseconds.
    fn note(&mut self, micros: u64)
        ensures { self.new ≡ latency_after micros self.old }
    {
        let bucket = bucket_of(micros);
        self.buckets[bucket] = self.buckets[bucket].saturating_add(1);
        self.sum_micros = self.sum_micros.saturating_add(micros);
    }
}

impl CommandLatencies {
    /// No command has come yet.
    pub const NONE: CommandLatencies = CommandLatencies {
        read: LatencyCounters::NONE,
        write: LatencyCounters::NONE,
        synchronize_cache: LatencyCounters::NONE,
        other: LatencyCounters::NONE,
    };

    /// Counts a command that took this many microseconds.
    pub fn note(&mut self, operation: TimedOperation, micros: u64)
        ensures { self.new ≡ latencies_after operation micros self.old }
    {
        match operation {
            TimedOperation::Read => self.read.note(micros),
            TimedOperation::Write => self.write.note(micros),
            TimedOperation::SynchronizeCache => self.synchronize_cache.note(micros),
            TimedOperation::Other => self.other.note(micros),
        }
    }
}

// The bucket of a time in microseconds.
fn bucket_of(micros: u64) -> usize
    ensures bucket { result ≡ bucket_of micros }
    ensures last { result ≤ 11 }
{
    LATENCY_BOUNDS
        .iter()
        .filter(|bound| **bound < micros)
        .count()
}
