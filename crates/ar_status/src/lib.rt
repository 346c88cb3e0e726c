//! A served array over HTTP, for browsers and for Prometheus: from plain numbers to responses. It uses no thread, no
//! socket and no array: any `Read` and `Write` will do, and anything that is `Watched`.
#![tactic(auto)]

mod answer;
mod changes;
mod disks;
mod events;
mod histograms;
mod host;
mod inventory;
mod metrics;
mod name;
mod page;
mod rebuild_pace;
mod response;
mod samples;
mod serve;
mod status;

pub use answer::{Answer, answer_to};
pub use changes::EventLog;
pub use disks::{DiskCounters, DiskList};
pub use events::{EVENTS_MAX, EventKind, RecentEvent, RecentEvents};
pub use host::asks_us;
pub use inventory::{
    ArrayInventory, DiskUsage, HostSession, InitiatorSession, SectorUsage, UnitUsage,
};
pub use metrics::write_metrics;
pub use name::{ArrayName, NAME_MAX};
pub use page::PAGE;
pub use response::{Look, respond};
pub use samples::{Activity, RecentSamples, SAMPLES_MAX, SPELL, Sample};
pub use serve::{HEAD_MAX, Watched, serve_connection, serve_named};
pub use status::{
    ArrayCounters, ArrayHealth, ArrayStatus, HostCounters, MaintenanceSteps, OperationCounters,
    RefusedLogins, ReplyCounters, SessionNumbers, StoreHealth, StoreNumbers,
};
