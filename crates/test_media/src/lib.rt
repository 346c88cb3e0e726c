//! Tests of files in memory, of regular files and of files in two copies: what no contract says.
#![tactic(auto)]

#[cfg(test)]
mod copies;
#[cfg(test)]
mod copying;
#[cfg(test)]
mod memory;
#[cfg(test)]
mod regular;
#[cfg(test)]
mod steps;
