//! Images of units: what a unit of a store holds is written out, or filled from an image.
#![tactic(auto)]

mod fault;
mod images;

pub use fault::{ImageCause, ImageFault};
pub use images::{export, import};
