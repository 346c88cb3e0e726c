//! Tests of the benchmark's workloads: what they have to copy and to add, worked by hand, the bare loop, rounds on an
//! array, and the report's lines. And of hosts that verify: that they find what is wrong.
#![tactic(auto)]

#[cfg(test)]
mod rounds;
#[cfg(test)]
mod shadow;
#[cfg(test)]
mod workloads;
