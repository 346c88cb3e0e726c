//! How long commands take, by what they do: histograms whose bounds are fixed, so that they have a fixed size and are
//! copied without an allocation.
#![tactic(auto)]

mod latency;

pub use latency::{CommandLatencies, LATENCY_BOUNDS, LatencyCounters, TimedOperation};
