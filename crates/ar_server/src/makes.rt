// How many units were made at each address, as a service goes on to count them.
use ar_compaction::Makes;
use ar_core::Array;
use ar_disks::{Addr, Disk, Host};
use ar_plan::NewUnit;

/// Those of a new array, once these units are created.
pub fn makes_of(units: &[NewUnit]) -> Makes {
    let mut makes = Makes::none();
    for unit in units {
        makes.count(unit.addr);
    }
    makes
}

/// Those of an array, once the units that it lacks are created.
pub fn makes_with<D: Disk>(makes: Makes, array: &Array<D>, units: &[NewUnit]) -> Makes {
    let mut makes = makes;
    for unit in units {
        if array.sectors(unit.addr).is_none() {
            makes.count(unit.addr);
        }
    }
    makes
}

/// The numbers, host by host and LUN by LUN.
pub fn numbers_of(makes: Makes) -> [u16; 32] {
    let mut numbers = [0; 32];
    for (place, number) in numbers.iter_mut().enumerate() {
        *number = number_at(makes, (place / 8) as u8, (place % 8) as u8);
    }
    numbers
}

fn number_at(makes: Makes, host: u8, lun: u8) -> u16 {
    match Host::new(host) {
        Some(host) => makes.at(Addr { host, lun }),
        None => 0,
    }
}
