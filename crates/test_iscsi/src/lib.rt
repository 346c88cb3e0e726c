//! Tests of sessions with an iSCSI target, byte for byte, over a port that is no array. What is expected is in the
//! tables of RFC 7143.
#![tactic(auto)]

#[cfg(test)]
mod cuts;
#[cfg(test)]
mod digests;
#[cfg(test)]
mod fake;
#[cfg(test)]
mod fields;
#[cfg(test)]
mod garbage;
#[cfg(test)]
mod observed;
#[cfg(test)]
mod pdus;
#[cfg(test)]
mod scarce;
#[cfg(test)]
mod sessions;
#[cfg(test)]
mod unsolicited;
