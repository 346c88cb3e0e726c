//! Tests of sessions on a kept array: one after another over memory, at once behind a gate, and over sockets of this
//! machine with work in the background beside them. What is expected stands in the tables of the wire format and of the
//! commands.
#![tactic(auto)]

#[cfg(test)]
mod background;
#[cfg(test)]
mod drawn;
#[cfg(test)]
mod frames;
#[cfg(test)]
mod gates;
#[cfg(test)]
mod rig;
#[cfg(test)]
mod scarce;
#[cfg(test)]
mod sockets;
#[cfg(test)]
mod turns;
