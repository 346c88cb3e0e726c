//! Disks in memory on fuses: each counts its accesses, and fails at the one that its fuse doesn't pass.
#![tactic(auto)]

mod fused;

pub use fused::{DiskCounts, Fuse, FusedDisk, disk_counts, disk_totals, disks_out, lost_disks};
