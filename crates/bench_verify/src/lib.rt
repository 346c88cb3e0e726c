//! A host that knows what it wrote: it sends drawn commands to its units over a session, and compares each reply with a
//! plain list of the write that each sector holds. It uses no thread and no socket: any `Source` and `Sink` will do.
#![tactic(auto)]

mod content;
mod draw;
mod finding;
mod order;
mod shadow;
mod verifier;

pub use content::{Origin, SECTOR_LEN};
pub use finding::{Finding, ReplyStatus};
pub use order::{Form, Order, Span};
pub use shadow::{Mismatch, Shadow};
pub use verifier::{Counts, Plan, Verifier};
