//! HTTP clients that watch a served array: what each is sent is copied at one moment.
#![tactic(auto)]

mod listing;
mod watching;

pub use watching::Watch;
