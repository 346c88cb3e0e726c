//! The workloads of the benchmark: what each does to an array, what the scheme has to copy and to add for it, and a
//! bare loop that makes the same copies and sums without an array.
#![tactic(auto)]

mod bare;
mod cost;
mod data;
mod fault;
mod figures;
mod script;
mod stage;
mod workload;

pub use bare::Bare;
pub use cost::{Moves, Round};
pub use data::Data;
pub use fault::WorkloadFault;
pub use figures::{Figures, Machine, name_of};
pub use script::{Lines, Scripted, setup_of};
pub use stage::{Sink, Size, Stage};
pub use workload::{Access, Plan, Stands, Workload};
