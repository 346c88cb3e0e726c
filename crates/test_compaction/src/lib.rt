//! Tests of compaction and of checkpoints: what no contract says.
#![tactic(auto)]

#[cfg(test)]
mod checkpoints;
#[cfg(test)]
mod drawn;
#[cfg(test)]
mod heads;
#[cfg(test)]
mod plain;
#[cfg(test)]
mod stores;
