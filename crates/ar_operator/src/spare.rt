// New disks that are made before the array's lock is taken: to allocate one of 256 MiB takes about a second.
ghost use Rattle.std.specs.Prelude.{◌≡◌};
ghost use Rattle.ar_answers.specs.Setups.{new_disk};

use crate::DiskMaker;
use crate::early::early_refusal;
use ar_answers::new_disk;
use ar_conversation::OperatorOrder;
use ar_core::Array;
use ar_disks::{Disk, Geometry, MemDisk};
use ar_language::Action;
use std::alloc::{AllocError, Global};

/// The shape of the new disk that an order is done with.
#[derive(Clone, Copy)]
pub struct WantedDisk {
    geometry: Geometry,
    extents: u16,
}

impl WantedDisk {
    /// The shape of each disk of an array.
    pub fn of<D: Disk>(array: &Array<D>) -> WantedDisk {
        WantedDisk {
            geometry: array.geometry(),
            extents: array.extents(),
        }
    }
}

/// Returns which new disk an order wants. None: it wants none, or is refused.
pub fn wanted_disk<D: Disk>(array: &Array<D>, order: OperatorOrder) -> Option<WantedDisk> {
    let OperatorOrder::Act(action) = order else {
        return None;
    };
    match action {
        Action::AddDisk | Action::Replace(_) => {}
        _ => return None,
    }
    match early_refusal(array, action) {
        Some(_) => None,
        None => Some(WantedDisk::of(array)),
    }
}

/// A new disk that no array has yet.
#[derive(Drop)]
pub struct SpareDisk {
    wanted: WantedDisk,
    disk: MemDisk,
    ghost new: { disk ≡ new_disk wanted.geometry wanted.extents },
}

impl SpareDisk {
    /// Makes a disk. Fails only when out of memory.
    pub fn make(alloc: Global, wanted: WantedDisk) -> Result<SpareDisk, AllocError> {
        let disk = new_disk(alloc, wanted.geometry, wanted.extents)?;
        Ok(SpareDisk { wanted, disk })
    }
}

/// A maker with a disk, perhaps, that was made before: it gives that where it has the shape that is asked for.
#[derive(Drop)]
pub struct Prepared<'a, M> {
    maker: &'a mut M,
    spare: &'a mut Option<SpareDisk>,
}

impl<'a, M> Prepared<'a, M> {
    /// A maker with a spare disk.
    pub fn new(maker: &'a mut M, spare: &'a mut Option<SpareDisk>) -> Prepared<'a, M> {
        Prepared { maker, spare }
    }
}

impl<'a, D: Disk, M: DiskMaker<D>> DiskMaker<D> for Prepared<'a, M> {
    fn make(
        &mut self,
        alloc: Global,
        number: u8,
        geometry: Geometry,
        extents: u16,
    ) -> Result<D, AllocError> {
        if let Some(SpareDisk { wanted, disk }) = self.spare.take() {
            if wanted.geometry == geometry && wanted.extents == extents {
                return Ok(self.maker.dress(number, disk));
            }
            // The array has another shape.
            drop(disk);
        }
        self.maker.make(alloc, number, geometry, extents)
    }

    fn dress(&mut self, number: u8, disk: MemDisk) -> D {
        self.maker.dress(number, disk)
    }

    fn added(&mut self, number: u8) {
        self.maker.added(number);
    }

    fn replaced(&mut self, number: u8) {
        self.maker.replaced(number);
    }

    fn taken_out(&mut self, number: u8) {
        self.maker.taken_out(number);
    }
}
