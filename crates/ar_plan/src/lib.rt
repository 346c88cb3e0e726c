//! The plan of a service, piece by piece: the units that it begins with, the doors that it opens, the lines that say
//! so, and what it reports at its end.
#![tactic(auto)]

mod announced;
mod closing;
mod opening;
mod plan;
mod runtime;
mod units;

pub use announced::{Announced, Announcer, OperatorPlace, announced_of};
pub use closing::{closing_of, closing_with, has_lost_data};
pub use opening::{SideDoors, TARGET_THREADS, doors_after};
pub use plan::{Closing, HttpPort, NewUnit, OperatorListener, Plan, ServiceFault};
pub use runtime::ServiceRuntime;
pub use units::{commit, create_missing, create_units, refused};
