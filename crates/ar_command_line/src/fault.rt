// Why a command line is refused, and what it says of that.
use ar_cli::{CommandLineFault, ExitStatus};
use std::alloc::{AllocError, Global};
use thiserror::Error;

/// Why a command line is refused.
#[derive(Debug, Drop, Error)]
pub enum UsageFault {
    /// A word is not UTF-8, or an allocation failed.
    #[error(transparent)]
    Words(#[from] CommandLineFault),
    /// A word that the program doesn't take, or one that it needs: a line that names it, and what is wanted.
    #[error("bad command line\n{0}")]
    Bad(String),
    /// This word names no unit.
    #[error("bad unit {0}\na unit is HOST:LUN:SIZE: a host, 0 to 3, a LUN, 0 to 7, and sectors or a size as 32M")]
    BadUnit(String),
}

impl ExitStatus for UsageFault {
    ghost use Rattle.ar_command_line.specs.Faults.{status_of_usage};

    ghost status_of = { status_of_usage };

    fn status(&self) -> u8 {
        match self {
            UsageFault::Words(fault) => fault.status(),
            _ => 2,
        }
    }
}

impl From<AllocError> for UsageFault {
    ghost use Rattle.std.specs.Prelude.{◌≡◌};
    ghost use Rattle.ar_cli.specs.declared.fault.CommandLineFault.TheVariants.{NoMemory};
    ghost use Rattle.ar_command_line.specs.declared.fault.UsageFault.TheVariants.{Words};

    ghost from_gives = { λ _ fault. fault ≡ Words NoMemory };

    fn from(_error: AllocError) -> UsageFault {
        UsageFault::Words(CommandLineFault::NoMemory)
    }
}

/// The fault of a command line, by its reason.
pub fn bad_value(alloc: Global, text: &str) -> UsageFault {
    match String::from_str(alloc, text) {
        Ok(text) => UsageFault::Bad(text),
        Err(_) => UsageFault::Words(CommandLineFault::NoMemory),
    }
}
