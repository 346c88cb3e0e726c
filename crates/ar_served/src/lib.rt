//! An array with its history, as all that serve it see it: its trait (`ServedArray`), that of an array that operators
//! use (`OperableArray`), hosts' seats, and entries, counts and operations as plain data. Crates that serve stand on
//! these, and on no array that implements them.
#![tactic(auto)]

mod counts;
mod entry;
mod operation;
mod places;
mod seat;
mod served_array;
mod store_status;

pub use counts::{Counts, HostCounts, OperationCounts, ReplyCounts, TaskCounts, is_idle};
pub use entry::{Entry, Exchange};
pub use operation::{Operation, OperationOf, Task};
pub use places::reserve_place;
pub use seat::Seat;
pub use served_array::{OperableArray, ServedArray};
pub use store_status::{StoreState, StoreStatus};
