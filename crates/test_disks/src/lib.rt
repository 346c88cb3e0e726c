//! Tests of blocks and disks, of sets of disks, and of both kinds of groups, with disks that are lost at any of their
//! calls.
#![tactic(auto)]

#[cfg(test)]
mod calls;
#[cfg(test)]
mod disks;
#[cfg(test)]
mod extents;
#[cfg(test)]
mod fixtures;
#[cfg(test)]
mod mirror;
#[cfg(test)]
mod parity;
#[cfg(test)]
mod parts;
#[cfg(test)]
mod rig;
#[cfg(test)]
mod sectors;
#[cfg(test)]
mod slots;
