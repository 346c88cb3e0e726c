//! Tests of the status service over memory: each path byte for byte, and what is no proper request. What is expected is
//! written from RFC 9110 and 9112, from Prometheus' text format 0.0.4 and from the fields of `ArrayStatus`.
#![tactic(auto)]

#[cfg(test)]
mod losses;
#[cfg(test)]
mod paths;
#[cfg(test)]
mod refusals;
#[cfg(test)]
mod rig;
#[cfg(test)]
mod samples;
#[cfg(test)]
mod streams;
