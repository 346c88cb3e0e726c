//! Tests of an operator's conversation over memory: what each word is answered with, each fault of a line, each end,
//! and disks that fail while the array works. What is expected is in the tables of scripts' lines and answers.
#![tactic(auto)]

#[cfg(test)]
mod ends;
#[cfg(test)]
mod faults;
#[cfg(test)]
mod fuses;
#[cfg(test)]
mod rig;
#[cfg(test)]
mod words;
