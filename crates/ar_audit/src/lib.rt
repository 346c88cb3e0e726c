//! Hosts' transcripts compared with a history: each must equal its host's part of it.
#![tactic(auto)]

mod audit;

pub use audit::{Mismatch, Report, audited, first_difference};
