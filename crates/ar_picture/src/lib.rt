//! Pictures of a disk array, made from plain data: a text map for a terminal, and an SVG.
#![tactic(auto)]

mod cell;
mod column;
mod folds;
mod groups;
mod layout;
mod legend;
mod palette;
mod picture;
mod svg;
mod text;

pub use cell::{Cell, Content};
pub use folds::Fold;
pub use picture::{Class, Group, Health, Held, Picture, UNITS_MAX, Unit};
pub use svg::write_svg;
pub use text::write_map;
