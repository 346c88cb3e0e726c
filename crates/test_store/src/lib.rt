//! Tests of the store and of what is done in it, with one rig: where blocks go (`placing`), demotion and cleaning
//! (`moves`), added disks and balancing (`balance`), replacement and rebuilding (`mirrors`, `parity`, `survivors`),
//! which disks are refused, disks that are lost at each of their calls, and how stores begin.
#![tactic(auto)]

#[cfg(test)]
mod balance;
#[cfg(test)]
mod calls;
#[cfg(test)]
mod fixtures;
#[cfg(test)]
mod losses;
#[cfg(test)]
mod mirrors;
#[cfg(test)]
mod moves;
#[cfg(test)]
mod parity;
#[cfg(test)]
mod parts;
#[cfg(test)]
mod placing;
#[cfg(test)]
mod refusals;
#[cfg(test)]
mod start;
#[cfg(test)]
mod survivors;
