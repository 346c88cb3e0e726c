//! Relocation blocks and the disks that store them. A write changes its own place alone, whatever it returns, and a
//! failed disk stays failed.
#![tactic(auto)]

mod accesses;
mod address;
mod block;
mod bytes;
mod completion;
mod disk;
mod fuse;
mod geometry;
mod laws;
mod memory;
mod scratch;

pub use accesses::AccessCount;
pub use address::{Addr, Host, Key, MAX_LUN, Members, Place};
pub use block::Block;
pub use bytes::{add_both_into, add_into, zero};
pub use completion::Completion;
pub use disk::Disk;
pub use fuse::FuseDisk;
pub use geometry::{Geometry, SECTOR_LEN};
pub use laws::xor_laws;
pub use memory::MemDisk;
pub use scratch::Scratch;
