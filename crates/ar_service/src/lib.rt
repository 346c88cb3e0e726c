//! A served array as a whole: its units, the doors of hosts, operators, initiators and HTTP clients, sessions and
//! maintenance, and the audit at the end.
#![tactic(auto)]

mod audit;
mod doors;
mod service;

pub use doors::run_operated;
pub use service::{Begun, TcpStops, begin_lasting, end_lasting, serve, serve_array};
