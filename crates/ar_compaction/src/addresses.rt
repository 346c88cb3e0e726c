// The addresses that records name. There are few, so that they are searched one by one.
ghost use Rattle.std.specs.Prelude.{◌≡◌, OnOk, OnErr, IfOk, map};
ghost use Rattle.ar_record.specs.Record.{data_of, all_data};
ghost use Rattle.ar_record.specs.Replay.{is_unit_at};
ghost use Rattle.ar_compaction.specs.Addresses.{address_named, is_among, names, noted, optional_address, with_address};
ghost use Rattle.ar_compaction.specs.Addresses.{AreAddresses};
ghost use Rattle.ar_compaction.specs.Replaying.{unit_address};

use ar_disks::Addr;
use ar_record::Record;
use std::alloc::{AllocError, Global};

/// The addresses that the records name, each once, in the order of their first records.
pub fn addresses_in(alloc: Global, records: &[Record]) -> Result<Vec<Addr>, AllocError>
    ensures { IfOk result (λ found. AreAddresses (all_data records.now) (map unit_address found.items)) }
{
    let mut addresses = Vec::new(alloc);
    for entry in records {
        note_address(&mut addresses, entry)?;
    }
    Ok(addresses)
}

/// Appends the address that a record names, unless it is there. `Err` leaves the addresses unchanged.
pub fn note_address(addresses: &mut Vec<Addr>, entry: &Record) -> Result<(), AllocError>
    ensures noted { OnOk result (map unit_address addresses.new.items
        ≡ noted (map unit_address addresses.old.items) (data_of entry.now)) }
    ensures unchanged { OnErr result (addresses.new.items ≡ addresses.old.items) }
{
    match addr_in(entry) {
        Some(addr) => add_address(addresses, addr),
        None => Ok(()),
    }
}

fn add_address(addresses: &mut Vec<Addr>, addr: Addr) -> Result<(), AllocError>
    ensures noted { OnOk result (map unit_address addresses.new.items
        ≡ with_address (map unit_address addresses.old.items) (unit_address addr)) }
    ensures unchanged { OnErr result (addresses.new.items ≡ addresses.old.items) }
{
    if !is_among(addr, addresses) {
        addresses.push(addr)?;
    }
    Ok(())
}

fn is_among(addr: Addr, addresses: &[Addr]) -> bool
    ensures { result ≡ is_among (unit_address addr) (map unit_address addresses.now) }
{
    for other in addresses {
        if is_same(addr, *other) {
            return true;
        }
    }
    false
}

fn is_same(addr: Addr, other: Addr) -> bool
    ensures { result ≡ is_unit_at (unit_address addr) other.host.number other.lun }
{
    other.host.number() == addr.host.number() && other.lun == addr.lun
}

// Whether a record names this address.
pub(crate) fn names(entry: &Record, addr: Addr) -> bool
    ensures { result ≡ names (unit_address addr) (data_of entry.now) }
{
    match addr_in(entry) {
        Some(named) => is_same(addr, named),
        None => false,
    }
}

// The address that a record names.
fn addr_in(entry: &Record) -> Option<Addr>
    ensures { optional_address result ≡ address_named (data_of entry.now) }
{
    match entry {
        Record::Make(addr, _)
        | Record::Grow(addr, _)
        | Record::Remove(addr)
        | Record::Command(addr, _, _)
        | Record::Unmap(addr, _, _) => Some(*addr),
        Record::AddDisk(_) => None,
    }
}
