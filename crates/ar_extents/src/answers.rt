// The outcomes of row accesses: done, or why the extent isn't used.
ghost use Rattle.std.specs.Prelude.{◌≡◌};

use crate::Health;

/// The outcome of a row read.
#[derive(Clone, Copy, Debug, PartialEq, Eq)]
pub enum Got {
    /// The bytes were read.
    Read,
    /// The extent is missing, possibly since this very call.
    Missing,
    /// The set has failed (two disks missing at once), possibly in this very call.
    Broken,
}

/// The outcome of a row write.
#[derive(Clone, Copy, Debug, PartialEq, Eq)]
pub enum Put {
    /// The bytes are stored.
    Written,
    /// The extent is missing, possibly since this very call.
    Missing,
    /// The set has failed (two disks missing at once), possibly in this very call.
    Broken,
}

/// The outcome of a row write to the extent that is rebuilt next.
#[derive(Clone, Copy, Debug, PartialEq, Eq)]
pub enum PutNew {
    /// The bytes are stored.
    Written,
    /// The new disk faulted, and has failed (`Out`).
    GivenUp,
}

impl Got {
    ghost use Rattle.ar_extents.specs.Access.{lost_got};

    // The outcome at an extent that isn't used.
    pub(crate) fn lost(health: Health) -> Got
        ensures { result ≡ lost_got health }
    {
        match health {
            Health::Broken => Got::Broken,
            _ => Got::Missing,
        }
    }
}

impl Put {
    ghost use Rattle.ar_extents.specs.Access.{lost_put};

    // The outcome at an extent that isn't used.
    pub(crate) fn lost(health: Health) -> Put
        ensures { result ≡ lost_put health }
    {
        match health {
            Health::Broken => Put::Broken,
            _ => Put::Missing,
        }
    }
}
