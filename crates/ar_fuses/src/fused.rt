// Disks in memory that can be told to fail while the array runs. A fuse is set under the array's lock, as every access
// to a disk is made, so that loads and stores suffice.
ghost use Rattle.std.specs.Prelude.{◌≡◌, ◌+◌, ◌*◌, ◌≤◌, IsTrue, true, false, length};
ghost use Rattle.std.specs.Bool.{OnTrue, OnFalse};
ghost use Rattle.ar_disks.specs.Block.{with_sectors};
ghost use Rattle.ar_disks.specs.Geometry.{block_len_of};
ghost use Rattle.ar_disks.specs.Disk.{HasPlace, Reads, ReadsPart, Writes, block_at, counted};

use ar_disks::{Disk, Geometry, MemDisk};
use std::marker::Model;
use std::sync::atomic::{AtomicBool, AtomicU64, Ordering};

// A fuse that lets every access pass.
const OFF: u64 = u64::MAX;

/// How many accesses a disk still passes, and how it was lost. It is off at first: the disk passes all.
#[derive(Drop)]
pub struct Fuse {
    left: AtomicU64,
    // An access has faulted.
    is_blown: AtomicBool,
    // An operator has taken the disk out.
    is_out: AtomicBool,
    // The disk was the last to be put in the place of another, and may not be rebuilt yet.
    is_latest: AtomicBool,
    // The accesses to the disk, and those of them that faulted.
    accesses: AtomicU64,
    errors: AtomicU64,
    // Those to the disks whose places it took.
    former_accesses: AtomicU64,
    former_errors: AtomicU64,
}

/// What was counted of a disk.
#[derive(Clone, Copy, Debug, PartialEq, Eq)]
pub struct DiskCounts {
    /// The rows, or parts of them, that were read or written, with those that failed.
    pub accesses: u64,
    /// The accesses that failed.
    pub errors: u64,
}

impl Fuse {
    /// A fuse that is off.
    pub fn new() -> Fuse {
        Fuse {
            left: AtomicU64::new(OFF),
            is_blown: AtomicBool::new(false),
            is_out: AtomicBool::new(false),
            is_latest: AtomicBool::new(false),
            accesses: AtomicU64::new(0),
            errors: AtomicU64::new(0),
            former_accesses: AtomicU64::new(0),
            former_errors: AtomicU64::new(0),
        }
    }

    /// Twelve fuses that are off, one for each disk that an array may have.
    pub fn twelve() -> [Fuse; 12] {
        [
            Fuse::new(),
            Fuse::new(),
            Fuse::new(),
            Fuse::new(),
            Fuse::new(),
            Fuse::new(),
            Fuse::new(),
            Fuse::new(),
            Fuse::new(),
            Fuse::new(),
            Fuse::new(),
            Fuse::new(),
        ]
    }

    /// Lets this many more accesses pass, or all if None.
    pub fn set(&self, accesses: Option<u64>) {
        self.left.store(accesses.unwrap_or(OFF), Ordering::SeqCst);
    }

    /// Whether an operator has taken the disk out, and no access to it had faulted before.
    pub fn is_out(&self) -> bool {
        self.is_out.load(Ordering::SeqCst)
    }

    /// Whether the disk is lost.
    pub fn is_lost(&self) -> bool {
        self.is_out() || self.is_blown.load(Ordering::SeqCst)
    }

    /// Begins with a new disk, its fuse off and nothing counted of it.
    pub fn renew(&self) {
        self.set(None);
        self.is_blown.store(false, Ordering::SeqCst);
        self.is_out.store(false, Ordering::SeqCst);
        let (accesses, errors) = (&self.accesses, &self.errors);
        self.former_accesses
            .fetch_add(accesses.swap(0, Ordering::SeqCst), Ordering::SeqCst);
        self.former_errors
            .fetch_add(errors.swap(0, Ordering::SeqCst), Ordering::SeqCst);
    }

    /// Notes that an operator has taken the disk out, unless it was lost before.
    pub fn take_out(&self) {
        if !self.is_lost() {
            self.is_out.store(true, Ordering::SeqCst);
        }
    }

    /// Notes whether the disk was the last that was put in the place of another.
    pub fn set_latest(&self, is_latest: bool) {
        self.is_latest.store(is_latest, Ordering::SeqCst);
    }

    fn counts(&self) -> DiskCounts {
        DiskCounts {
            accesses: self.accesses.load(Ordering::SeqCst),
            errors: self.errors.load(Ordering::SeqCst),
        }
    }

    // The same with the disks whose places it took.
    fn totals(&self) -> DiskCounts {
        let DiskCounts { accesses, errors } = self.counts();
        DiskCounts {
            accesses: accesses.saturating_add(self.former_accesses.load(Ordering::SeqCst)),
            errors: errors.saturating_add(self.former_errors.load(Ordering::SeqCst)),
        }
    }

    // Counts one access and uses it up; false if none is left.
    fn passes(&self) -> bool {
        self.accesses.fetch_add(1, Ordering::SeqCst);
        match self.left.load(Ordering::SeqCst) {
            OFF => true,
            0 => {
                self.errors.fetch_add(1, Ordering::SeqCst);
                self.is_blown.store(true, Ordering::SeqCst);
                false
            }
            left => {
                self.left.store(left - 1, Ordering::SeqCst);
                true
            }
        }
    }
}

/// A disk in memory with a fuse that others can set: it fails at the access that the fuse doesn't pass.
#[derive(Drop)]
pub struct FusedDisk<'a> {
    disk: MemDisk,
    fuse: &'a Fuse,
    gone: bool,
    faults: u64,
}

impl<'a> Model for FusedDisk<'a> {
    ghost use Rattle.ar_disks.specs.Disk.{DiskState};

    ghost Value = { DiskState };

    ghost view = { λ f. record f.disk { gone = f.gone; faults = f.faults } };
}

impl<'a> FusedDisk<'a> {
    /// The disk `disk` on a fuse. It has not failed yet and has counted no fault.
    pub fn new(disk: MemDisk, fuse: &'a Fuse) -> FusedDisk<'a>
        ensures { result ≡ disk }
    {
        FusedDisk {
            disk,
            fuse,
            gone: false,
            faults: 0,
        }
    }

    // Uses up one access of the fuse, or fails the disk and counts an access and a fault if none is left or it had
    // failed before.
    fn passes(&mut self) -> bool
        ensures passed { OnTrue result (self.new ≡ self.old) }
        ensures there { IsTrue result → self.old.gone ≡ false }
        ensures blown { OnFalse result (self.new
            ≡ record self.old { gone = true; faults = counted self.old.faults; accesses = self.old.accesses + 1 }) }
    {
        if !self.gone && self.fuse.passes() {
            return true;
        }
        self.disk.count_access();
        self.gone = true;
        self.faults = self.faults.saturating_add(1);
        false
    }
}

impl<'a> Disk for FusedDisk<'a> {
    ghost state = { λ fused. fused };

    fn geometry(&self) -> Geometry {
        self.disk.geometry()
    }

    fn extents(&self) -> u16 {
        self.disk.extents()
    }

    fn read(&mut self, ext: u16, row: u16, into: &mut [u8]) -> bool
        requires place { HasPlace self.old ext row }
        requires whole { length into.old ≡ block_len_of self.old.geometry }
        ensures read { Reads self.old self.new ext row result into.new }
    {
        self.passes() && self.disk.read(ext, row, into)
    }

    fn write(&mut self, ext: u16, row: u16, from: &[u8]) -> bool
        requires place { HasPlace self.old ext row }
        requires whole { length from.now ≡ block_len_of self.old.geometry }
        ensures written { Writes self.old self.new ext row result from.now }
    {
        self.passes() && self.disk.write(ext, row, from)
    }

    fn read_part(&mut self, ext: u16, row: u16, first: usize, into: &mut [u8]) -> bool
        requires place { HasPlace self.old ext row }
        requires within { 512 * first + length into.old ≤ block_len_of self.old.geometry }
        ensures read { ReadsPart self.old self.new ext row first result into.new }
    {
        self.passes() && self.disk.read_part(ext, row, first, into)
    }

    fn write_part(&mut self, ext: u16, row: u16, first: usize, from: &[u8]) -> bool
        requires place { HasPlace self.old ext row }
        requires within { 512 * first + length from.now ≤ block_len_of self.old.geometry }
        ensures written { Writes self.old self.new ext row result
            (with_sectors (block_at self.old ext row) first from.now) }
    {
        self.passes() && self.disk.write_part(ext, row, first, from)
    }

    fn faults(&self) -> u64 {
        self.faults
    }
}

/// Returns the two disks that an array has lost which has failed, by their numbers: those that an operator took out or
/// whose access faulted or, where that is one, it and the one that was rebuilt. The fuses have it from the disks, since
/// an array that has failed names none.
pub fn lost_disks(fuses: &[Fuse; 12]) -> Option<[u8; 2]> {
    let (mut first, mut second, mut latest) = (None, None, None);
    let mut number = 0_u8;
    for fuse in fuses {
        if fuse.is_latest.load(Ordering::SeqCst) {
            latest = Some(number);
        }
        if fuse.is_lost() {
            if first.is_none() {
                first = Some(number);
            } else if second.is_none() {
                second = Some(number);
            }
        }
        number = number.saturating_add(1);
    }
    match (first, second, latest) {
        (Some(one), Some(other), _) => Some([one, other]),
        (Some(one), None, Some(other)) => Some([one.min(other), one.max(other)]),
        _ => None,
    }
}

/// Returns what was counted of each disk, by its number, since it was put in its place. Where the array has no disk,
/// both counts are 0. They are counted under the array's lock: with it held, they are those of one moment.
pub fn disk_counts(fuses: &[Fuse; 12]) -> [DiskCounts; 12] {
    let none = DiskCounts {
        accesses: 0,
        errors: 0,
    };
    let mut counts = [none; 12];
    for (count, fuse) in counts.iter_mut().zip(fuses) {
        *count = fuse.counts();
    }
    counts
}

/// Returns what was counted of the disks of each number since the start of the program, as `disk_counts` does.
pub fn disk_totals(fuses: &[Fuse; 12]) -> [DiskCounts; 12] {
    let mut totals = disk_counts(fuses);
    for (total, fuse) in totals.iter_mut().zip(fuses) {
        *total = fuse.totals();
    }
    totals
}

/// Returns which disks an operator has taken out, by their numbers (`Fuse::is_out`).
pub fn disks_out(fuses: &[Fuse; 12]) -> [bool; 12] {
    let mut out = [false; 12];
    for (is_out, fuse) in out.iter_mut().zip(fuses) {
        *is_out = fuse.is_out();
    }
    out
}
