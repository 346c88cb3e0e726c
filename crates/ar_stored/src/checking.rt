// A store is read and executed, and what it holds is printed.
use crate::executing::{ReadStore, read_store};
use crate::fault::{StoreCause, StoreFault};
use ar_compaction::StoreHead;
use ar_core::Array;
use ar_disks::{Addr, Disk, Host};
use ar_fuses::Fuse;
use std::alloc::Global;
use std::io;

/// The addresses that a unit may have: eight LUNs of four hosts.
const ADDRESSES: u8 = 32;

/// Reads all of the store in a folder and executes its records on an array in memory, and prints what it holds. Nothing
/// is written.
pub fn check(rt: &HostRuntime, alloc: Global, folder: &str) -> Result<(), StoreFault> {
    check_store(rt, alloc, folder).map_err(|cause| StoreFault::new(alloc, folder, cause))
}

fn check_store(rt: &HostRuntime, alloc: Global, folder: &str) -> Result<(), StoreCause> {
    let fuses = Fuse::twelve();
    let ReadStore {
        head,
        live,
        records,
    } = read_store(rt, alloc, folder, &fuses)?;
    let reported = tell_contents(rt, &head, live.array(), records);
    drop(live);
    reported.map_err(|_| StoreCause::Write)
}

// Prints the units of an array, and how many records made them.
fn tell_contents<D: Disk>(
    rt: &impl Print,
    head: &StoreHead,
    array: &Array<D>,
    records: u64,
) -> io::Result<()> {
    for number in 0..ADDRESSES {
        tell_unit(rt, array, number)?;
    }
    let units = count_units(array);
    let generation = head.generation;
    println!(rt; "ok: {units} units, {records} records, generation {generation}")
}

// Prints the unit at an address, if there is one.
fn tell_unit<D: Disk>(rt: &impl Print, array: &Array<D>, number: u8) -> io::Result<()> {
    let Some((addr, sectors)) = unit_in(array, number) else {
        return Ok(());
    };
    let (host, lun) = (addr.host.number(), addr.lun);
    println!(rt; "unit {host} {lun} {sectors}")
}

// The number of units.
pub(crate) fn count_units<D: Disk>(array: &Array<D>) -> u32 {
    let mut count: u32 = 0;
    for number in 0..ADDRESSES {
        if unit_in(array, number).is_some() {
            count = count.saturating_add(1);
        }
    }
    count
}

// The unit at an address by its number, and its length in sectors, if there is one.
fn unit_in<D: Disk>(array: &Array<D>, number: u8) -> Option<(Addr, u32)> {
    let addr = Addr {
        host: Host::new(number / 8)?,
        lun: number % 8,
    };
    Some((addr, array.sectors(addr)?))
}
