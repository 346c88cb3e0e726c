// Why an event on units or disks is refused.
use ar_book::Refusal as UnitRefusal;
use ar_extents::DiskRefusal;
use std::fmt;
use std::fmt::{Display, Formatter};
use thiserror::Error;

/// Why an event was refused. A refused event changes nothing.
#[derive(Clone, Copy, Debug, PartialEq, Eq, Error)]
pub enum Refusal {
    /// The unit can't be created, resized or deleted.
    Unit(UnitRefusal),
    /// The array has failed: its data are lost.
    Broken,
    /// The disk can't be failed, added or put in place of another.
    Disk(DiskRefusal),
}

// Written by hand, since a derived implementation's text is not specified.
impl Display for Refusal {
    ghost use Rattle.std.specs.Prelude.{Some};
    ghost use Rattle.ar_volume.specs.Texts.{refusal_text};

    ghost output = { λ refusal. Some (refusal_text refusal) };

    fn fmt<W: fmt::Write>(&self, f: &mut Formatter<W>) -> fmt::Result {
        match self {
            Refusal::Unit(refusal) => refusal.fmt(f),
            Refusal::Broken => f.write_str("M6 Broken"),
            Refusal::Disk(refusal) => refusal.fmt(f),
        }
    }
}
