// New arrays, and new disks of theirs, on fuses.
ghost use Rattle.std.specs.Prelude.{◌≡◌, ◌≤◌, IfOk, IfErr, OnOk, None};
ghost use Rattle.ar_extents.specs.Changes.{start_fault};
ghost use Rattle.ar_volume.specs.Start.{IsStarted};
ghost use Rattle.ar_answers.specs.Setups.{disks_of, new_disk};

use crate::DiskMaker;
use ar_answers::{Setup, new_disk};
use ar_core::{Array, CAPACITY_LIMIT};
use ar_disks::{Geometry, MemDisk};
use ar_fuses::{Fuse, FusedDisk};
use ar_language::Fault;
use std::alloc::{AllocError, Global};

/// Makes disks that are on the fuses of their numbers. A disk that the array takes begins with its fuse off.
#[derive(Clone, Copy)]
pub struct FusedMaker<'a> {
    fuses: &'a [Fuse; 12],
}

impl<'a> FusedMaker<'a> {
    pub fn new(fuses: &'a [Fuse; 12]) -> FusedMaker<'a> {
        FusedMaker { fuses }
    }

    // The fuse of a disk. No array has a disk of a number above 11, or takes one.
    fn fuse(&self, number: u8) -> &'a Fuse {
        let fuses = self.fuses;
        let fuses = &fuses[..];
        &fuses[usize::from(number % 12)]
    }
}

impl<'a> DiskMaker<FusedDisk<'a>> for FusedMaker<'a> {
    fn make(
        &mut self,
        alloc: Global,
        number: u8,
        geometry: Geometry,
        extents: u16,
    ) -> Result<FusedDisk<'a>, AllocError> {
        let disk = new_disk(alloc, geometry, extents)?;
        Ok(FusedDisk::new(disk, self.fuse(number)))
    }

    fn dress(&mut self, number: u8, disk: MemDisk) -> FusedDisk<'a> {
        FusedDisk::new(disk, self.fuse(number))
    }

    fn added(&mut self, number: u8) {
        self.fuse(number).renew();
    }

    // No other disk is rebuilt, where one is replaced.
    fn replaced(&mut self, number: u8) {
        let fuses = self.fuses;
        for fuse in fuses {
            fuse.set_latest(false);
        }
        let fuse = self.fuse(number);
        fuse.renew();
        fuse.set_latest(true);
    }

    fn taken_out(&mut self, number: u8) {
        self.fuse(number).take_out();
    }
}

/// Makes a new array on new disks, each on the fuse of its number. `Start` is returned as `start_array` returns it.
pub fn start_fused<'a>(
    alloc: Global,
    setup: Setup,
    fuses: &'a [Fuse; 12],
) -> Result<Array<FusedDisk<'a>>, Fault>
    ensures refused { IfErr result (λ fault. fault ≡ Fault.Start) }
    ensures few { OnOk result (setup.cache ≤ 65536) }
    ensures taken { OnOk result (start_fault (disks_of setup) ≡ None) }
    ensures started { IfOk result (IsStarted (disks_of setup) setup.cache) }
{
    if setup.cache > CAPACITY_LIMIT {
        return Err(Fault::Start);
    }
    let disks = fused_disks(alloc, setup, FusedMaker::new(fuses)).map_err(|_| Fault::Start)?;
    let array = Array::start(alloc, disks, setup.cache).map_err(|_| Fault::Start)?;
    Ok(array)
}

// The disks of a setup, each on the fuse of its number.
fn fused_disks<'a>(
    alloc: Global,
    setup: Setup,
    mut maker: FusedMaker<'a>,
) -> Result<Vec<FusedDisk<'a>>, AllocError>
    ensures { IfOk result (λ disks. disks.items ≡ disks_of setup) }
{
    let mut disks = Vec::new(alloc);
    for number in 0..setup.disks {
        disks.push(maker.make(alloc, number, setup.geometry, setup.extents)?)?;
    }
    Ok(disks)
}
