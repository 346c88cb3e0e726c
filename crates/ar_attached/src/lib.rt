//! What a service knows of its iSCSI sessions, and what it counts itself: logins that it refuses, and units that are
//! made and removed.
#![tactic(auto)]

mod attached;
mod initiator_name;
mod port;
mod tallies;

pub use attached::{Attached, Initiators};
pub use initiator_name::InitiatorName;
pub use port::IscsiPort;
pub use tallies::Tallies;
