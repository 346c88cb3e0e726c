// The histograms of the metrics: their buckets are cumulative, and their times in seconds.
use crate::metrics::write_head;
use ar_latency::{CommandLatencies, LatencyCounters};
use std::io;
use std::io::Write;

/// The bounds of the buckets (`LATENCY_BOUNDS`) in seconds, and the end.
const BOUNDS: [&str; 12] = [
    "0.00005", "0.0001", "0.00025", "0.0005", "0.001", "0.0025", "0.01", "0.05", "0.25", "1", "10",
    "+Inf",
];

/// Microseconds of a second.
const SECOND: u64 = 1_000_000;

/// Writes how long commands took, by operation.
pub(crate) fn write_latencies<W: Write>(
    out: &mut W,
    latencies: &CommandLatencies,
) -> io::Result<()> {
    let operations = [
        ("read", latencies.read),
        ("write", latencies.write),
        ("synchronize_cache", latencies.synchronize_cache),
        ("other", latencies.other),
    ];
    write_head(
        out,
        "command_seconds",
        "histogram",
        "How long commands took.",
    )?;
    for (operation, counters) in operations {
        write_histogram(out, operation, &counters)?;
    }
    Ok(())
}

// Writes the samples of one operation.
fn write_histogram<W: Write>(
    out: &mut W,
    operation: &str,
    counters: &LatencyCounters,
) -> io::Result<()> {
    let mut count = 0_u64;
    for (bound, bucket) in BOUNDS.iter().zip(&counters.buckets) {
        count = count.saturating_add(*bucket);
        writeln!(
            out,
            "autoraid_command_seconds_bucket{{operation=\"{operation}\",le=\"{bound}\"}} {count}"
        )?;
    }
    let (seconds, micros) = (counters.sum_micros / SECOND, counters.sum_micros % SECOND);
    writeln!(
        out,
        "autoraid_command_seconds_sum{{operation=\"{operation}\"}} {seconds}.{micros:06}"
    )?;
    writeln!(
        out,
        "autoraid_command_seconds_count{{operation=\"{operation}\"}} {count}"
    )
}
