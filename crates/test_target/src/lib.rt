//! Tests of the device server over a port that is no array: command blocks and their answers, byte for byte. What is
//! expected is in the tables of SPC-3, SBC-2 and SBC-3.
#![tactic(auto)]

#[cfg(test)]
mod answers;
#[cfg(test)]
mod discards;
#[cfg(test)]
mod fake;
#[cfg(test)]
mod inventories;
