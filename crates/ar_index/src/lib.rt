//! A search tree over the groups: bit sets have the numbers of those with a hole, by class, and of those that are free,
//! and a tree has the oldest mirrored block of each group, so the lowest group of a kind and the oldest block are found
//! without a scan of the groups.
#![tactic(auto)]

mod bits;
mod choices;
mod mask;
mod nodes;
mod tree;

/// A count of steps that only contracts see: loop iterations, items of iterators and recursive calls.
pub use ar_disks::AccessCount as Steps;
pub use choices::{Age, Choices};
pub use mask::{clear_bit, lowest_bit, set_bit};
pub use tree::Tree;
