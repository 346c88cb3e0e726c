//! Tests of the array and its scripts that must be code: drawn events against plain lists of sectors, disks that are
//! lost at any of their calls, and input, output and arrays that fail. What a script can say is said by the scenarios
//! of `tests/scenarios`.
#![tactic(auto)]

#[cfg(test)]
mod calls;
#[cfg(test)]
mod churn;
#[cfg(test)]
mod counters;
#[cfg(test)]
mod discards;
#[cfg(test)]
mod first_run;
#[cfg(test)]
mod flushed;
#[cfg(test)]
mod fuses;
#[cfg(test)]
mod generated;
#[cfg(test)]
mod longest;
#[cfg(test)]
mod mixed;
#[cfg(test)]
mod scarce;
#[cfg(test)]
mod scripts;
#[cfg(test)]
mod starts;
