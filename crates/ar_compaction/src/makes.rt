// How many units were made at each address of an array, so that the next one there has another name. A number has
// two bytes, big-endian, as a log's head stores it, so that a head has them as they are:
//
//     host 0: LUN 0, LUN 1, .. LUN 7 | host 1: LUN 0, .. | host 2 .. | host 3 ..
ghost use Rattle.std.specs.Prelude.{◌≡◌, ◌<◌, ◌+◌, IfSome};
ghost use Rattle.ar_record.specs.Record.{data_of};
ghost use Rattle.ar_compaction.specs.Makes as spec;
ghost use Rattle.ar_compaction.specs.Replaying.{unit_address};

use crate::UnitReplay;
use ar_disks::{Addr, MAX_LUN};
use ar_record::Record;

/// How many units were made at each address, modulo 2^16.
#[derive(Clone, Copy, Debug, PartialEq, Eq)]
pub struct Makes {
    /// A number for each address, in two bytes.
    pub bytes: [u8; 64],
}

impl Makes {
    /// None was made.
    pub fn none() -> Makes
        ensures { result.bytes ≡ spec.no_makes }
    {
        Makes { bytes: [0; 64] }
    }

    /// How many were made at an address; at a LUN above 7 none is.
    pub fn at(&self, addr: Addr) -> u16
        ensures { result ≡ spec.makes_at self.now.bytes (unit_address addr) }
    {
        match place_of(addr) {
            Some(place) => self.number(place),
            None => 0,
        }
    }

    /// Counts the unit that a record makes, if it makes one.
    pub fn note(&mut self, entry: &Record)
        ensures { self.new.bytes ≡ spec.makes_noted self.old.bytes (data_of entry.now) }
    {
        if let Record::Make(addr, _) = entry {
            self.count(*addr);
        }
    }

    /// Counts a unit that is made at an address.
    pub fn count(&mut self, addr: Addr)
        ensures { self.new.bytes ≡ spec.makes_counted self.old.bytes (unit_address addr) }
    {
        if let Some(place) = place_of(addr) {
            let number = self.number(place);
            self.set(place, next(number));
        }
    }

    /// Leaves out a unit that is present, since the records of its checkpoint make it again.
    pub fn leave_out(&mut self, unit: &UnitReplay)
        ensures { self.new.bytes ≡ spec.makes_before self.old.bytes unit.now }
    {
        if !unit.is_present() {
            return;
        }
        if let Some(place) = place_of(unit.addr()) {
            let number = self.number(place);
            self.set(place, former(number));
        }
    }

    // The number at a place.
    fn number(&self, place: usize) -> u16
        requires { place < 63 }
        ensures { result ≡ spec.number_in self.now.bytes place }
    {
        u16::from_be_bytes([self.bytes[place], self.bytes[place + 1]])
    }

    // Stores the number at a place.
    fn set(&mut self, place: usize, number: u16)
        requires { place < 63 }
        ensures { self.new.bytes ≡ spec.with_number self.old.bytes place number }
    {
        self.bytes[place] = (number / 256) as u8;
        self.bytes[place + 1] = (number % 256) as u8;
    }
}

// The place of an address's number. None: no unit can be made there.
fn place_of(addr: Addr) -> Option<usize>
    ensures place { result ≡ spec.makes_place (unit_address addr) }
    ensures within { IfSome result (λ place. place < 63) }
{
    if addr.lun > MAX_LUN {
        return None;
    }
    Some(2 * (8 * usize::from(addr.host.number()) + usize::from(addr.lun)))
}

// A number counted on.
fn next(number: u16) -> u16
    ensures { result ≡ spec.counted_on number }
{
    if number == 65535 { 0 } else { number + 1 }
}

// A number counted back.
fn former(number: u16) -> u16
    ensures { result ≡ spec.counted_back number }
{
    if number == 0 { 65535 } else { number - 1 }
}
