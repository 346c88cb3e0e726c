//! Tests of logs, and of logs over zeros: drawn runs that stop at every call, crash in every way, crash again while
//! they recover, fill up, and decay.
#![tactic(auto)]

#[cfg(test)]
mod crash;
#[cfg(test)]
mod decay;
#[cfg(test)]
mod draw;
#[cfg(test)]
mod room;
#[cfg(test)]
mod run;
#[cfg(test)]
mod zeroed_calls;
#[cfg(test)]
mod zeroed_crash;
#[cfg(test)]
mod zeroed_decay;
#[cfg(test)]
mod zeroed_run;
