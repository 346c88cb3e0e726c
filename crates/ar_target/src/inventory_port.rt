// A port that counts how often the inventory of its host's units has changed, as REPORT LUNS lists it, and tells the
// units apart that were at one LUN.
ghost use Rattle.ar_target.specs.InventoryPort.{InventoryChanges, UnitGenerations};

/// A port that counts the changes of the inventory of its host's units.
pub trait InventoryPort {
    /// How often the inventory may have changed, as the port specifies it: the port, the count.
    ghost counts: { InventoryChanges Self };

    /// Returns how many times one of the host's units was made or removed so far, whoever did it.
    fn changes(&self) -> u64
        ensures { counts self.now result };

    /// Which generation of the unit at a LUN there may be, as the port specifies it: the port, the LUN, the generation.
    ghost generations: { UnitGenerations Self };

    /// Returns how many units were made at `lun` before the one that is there, modulo 2^16.
    fn generation(&self, lun: u8) -> u16
        ensures { generations self.now lun result };
}
