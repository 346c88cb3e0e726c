// The start of a set: 4 to 12 disks of one shape, with 1 to 1,024 extents each.
ghost use Rattle.std.specs.Prelude.{◌≡◌, ◌<◌, All, map, true, None, length, replicate, unwrap_or, IfOk, IfErr, OnOk};
ghost use Rattle.ar_extents.specs.declared.refusal.StartFault.TheVariants.{NoMemory};
ghost use Rattle.ar_extents.specs.Set.{CanCount};
ghost use Rattle.ar_extents.specs.Changes.{start_fault, started, are_alike, has_shape};
ghost use Rattle.std.specs.List.{list_all};

use super::DiskSet;
use crate::log::AccessLog;
use crate::marks::Marks;
use crate::shape::has_shape;
use crate::{Health, StartFault};
use ar_disks::{Disk, Geometry};
use std::alloc::{AllocError, Global};

impl<D: Disk> DiskSet<D> {
    /// A healthy set of these disks, every extent unassigned. Each `StartFault` gives the disks back.
    pub fn start(alloc: Global, disks: Vec<D>) -> Result<DiskSet<D>, (StartFault, Vec<D>)>
        requires { All CanCount (map D.state disks.items) }
        ensures taken { OnOk result (start_fault (map D.state disks.items) ≡ None) }
        ensures started { IfOk result (λ set. set ≡ started (map D.state disks.items)) }
        ensures refused { IfErr result (λ back. back.0 ≡ unwrap_or (start_fault (map D.state disks.items)) NoMemory) }
        ensures handed_back { IfErr result (λ back. back.1 ≡ disks) }
    {
        if let Some(fault) = fault_of(&disks) {
            return Err((fault, disks));
        }
        let geometry = disks[0].geometry();
        let extents = disks[0].extents();
        let Ok(loose) = all_loose(alloc, disks.len(), extents) else {
            return Err((StartFault::NoMemory, disks));
        };
        Ok(DiskSet {
            geometry,
            extents,
            disks,
            health: Health::Whole,
            loose,
            log: AccessLog::new(),
        })
    }
}

/// Why a set doesn't start with these disks: their number, or their shapes. A failed disk is no reason.
pub fn fault_of<D: Disk>(disks: &[D]) -> Option<StartFault>
    ensures { result ≡ start_fault (map D.state disks.now) }
{
    if disks.len() < 4 || disks.len() > 12 {
        return Some(StartFault::BadCount);
    }
    if are_alike(disks) {
        return None;
    }
    Some(StartFault::WrongSize)
}

// Whether all disks have the shape of the first, with 1 to 1,024 extents.
fn are_alike<D: Disk>(disks: &[D]) -> bool
    requires { 0 < length disks.now }
    ensures { result ≡ are_alike (map D.state disks.now) }
{
    let geometry = disks[0].geometry();
    let extents = disks[0].extents();
    if extents == 0 || extents > 1024 {
        return false;
    }
    all_have_shape(disks, geometry, extents)
}

fn all_have_shape<D: Disk>(disks: &[D], geometry: Geometry, extents: u16) -> bool
    ensures { result ≡ list_all (λ disk. has_shape geometry extents (D.state disk)) disks.now }
{
    disks.iter().all(|disk| has_shape(disk, geometry, extents))
}

// The flags of `count` disks of `extents` extents, all unassigned. Fails if out of memory.
fn all_loose(alloc: Global, count: usize, extents: u16) -> Result<Vec<Marks>, AllocError>
    ensures { IfOk result (λ loose. loose.items ≡ replicate count (replicate extents true)) }
{
    let mut loose = Vec::with_capacity(alloc, count)?;
    for _ in 0..count {
        loose.push(Marks::new(alloc, extents)?)?;
    }
    Ok(loose)
}
