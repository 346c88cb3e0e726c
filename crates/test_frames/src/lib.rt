//! Tests of sessions and of the client over memory, over streams that fail, and over a port that is no array. What is
//! expected stands in the tables of the wire format.
#![tactic(auto)]

#[cfg(test)]
mod client;
#[cfg(test)]
mod fakes;
#[cfg(test)]
mod gates;
#[cfg(test)]
mod largest;
#[cfg(test)]
mod links;
#[cfg(test)]
mod sessions;
