//! Runs scripts on an array. The lines that were executed are the first of the script, each once and in order, and each
//! is one event of the array, one query or nothing. The answers are text, which `ar_answers` writes. `ar_language`
//! parses the lines.
#![tactic(auto)]

mod filled;
mod run;
mod runner;

pub use ar_answers::Setup;
pub use run::{Ended, run_on, run_script};
pub use runner::{Runner, start_array};
