// The disks that records add.
use ar_disks::Geometry;
use ar_fuses::FusedDisk;
use ar_operator::{DiskMaker, FusedMaker};
use ar_recovery::DiskSource;
use std::alloc::Global;

/// The disks that records add, each on the fuse of its number.
#[derive(Clone, Copy)]
pub(crate) struct FusedSource<'a>(FusedMaker<'a>);

impl<'a> FusedSource<'a> {
    /// Disks that this makes.
    pub fn new(maker: FusedMaker<'a>) -> FusedSource<'a> {
        FusedSource(maker)
    }
}

impl<'a> DiskSource<FusedDisk<'a>> for FusedSource<'a> {
    fn make(
        &mut self,
        alloc: Global,
        number: u8,
        geometry: Geometry,
        extents: u16,
    ) -> Option<FusedDisk<'a>> {
        self.0.make(alloc, number, geometry, extents).ok()
    }
}
