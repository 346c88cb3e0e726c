//! A script from the command line: it is run, echoed or typed at a terminal, and its array may be drawn.
#![tactic(auto)]

mod dialogue;
mod drawing;
mod play;

pub use drawing::DrawingFault;
pub use play::{PlayFault, run};
