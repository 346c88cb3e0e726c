//! Tests of the kept array: worked examples by way of hosts' seats, transcripts that were tampered with, memory that is
//! refused, and a drawn run of four hosts beside plain units.
#![tactic(auto)]

#[cfg(test)]
mod calls;
#[cfg(test)]
mod counts;
#[cfg(test)]
mod drawn;
#[cfg(test)]
mod forged;
#[cfg(test)]
mod memory;
#[cfg(test)]
mod rig;
#[cfg(test)]
mod rows;
