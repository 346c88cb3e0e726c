//! Hosts' sessions on one array, each in a thread of its own, with maintenance in the background. The array and its
//! history (`ServedArray`) are behind one lock, which each command and each maintenance step holds. A host has one
//! session at a time: a login takes the host's right to issue commands (`Seat`) from the pool of those that are free
//! (`Desk`), and the end of the session puts it back.
#![tactic(auto)]

mod background;
mod desk;
mod discarding;
mod flushing;
mod notes;
mod pool;
mod port;
mod refusing;
mod sessions;
mod timing;

pub use background::run_background;
pub use desk::{Desk, Receipt, SeatDesk, SeatSlot, SessionCounts};
pub use pool::{Handler, MOST_AT_ONCE, SharedDoor, Starter, run_pool, start_pool};
pub use port::LockPort;
pub use sessions::{ConnectionEnd, NoMemory, run_beside_background, run_sessions};
pub use timing::CommandTime;
