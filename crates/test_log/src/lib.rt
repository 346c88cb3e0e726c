//! Tests of logs and journals: what no contract says.
#![tactic(auto)]

#[cfg(test)]
mod bytes;
#[cfg(test)]
mod copies;
#[cfg(test)]
mod rig;
#[cfg(test)]
mod scarce;
#[cfg(test)]
mod zeroed_scarce;
