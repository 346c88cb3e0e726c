//! The rebuild of a replaced disk, one extent a step. An extent is used again only once every row of it is written, so
//! no other call reads a row that isn't rebuilt; the array is healthy after the last one.
//!
//!     replaced disk    [ done | done | next | not done | not done ]       health: Rebuilding d 2
//!                                       ^-- rows copied from the mirror partner, or XORed from the rest of the stripe
#![tactic(auto)]

mod extent;
mod laws;
mod rows;
mod step;

pub use laws::{rebuild_accesses, rebuild_ends};
pub use step::{Rebuild, rebuild_one};
