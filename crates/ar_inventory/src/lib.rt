//! How an array's sectors, units and disks are used, copied at one moment: for operators as lines, and as HTTP clients
//! are sent it.
#![tactic(auto)]

mod inventory;
mod sent;

pub use inventory::{DiskState, DiskUsage, Inventory, SectorUsage, UnitNames, UnitUsage};
pub use sent::{Sessions, inventory_of};
