//! Initiators over iSCSI at a served array: each session with a target takes its host's seat, and returns it.
#![tactic(auto)]

mod initiators;

pub use initiators::Targets;
