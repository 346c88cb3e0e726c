// Why a command line is refused.
use crate::exit::ExitStatus;
use std::alloc::AllocError;
use std::io;
use std::io::ErrorKind;
use thiserror::Error;

/// Why a command line is refused.
#[derive(Clone, Copy, Debug, PartialEq, Eq, Error)]
pub enum CommandLineFault {
    /// The words are not those that the program takes, or one of them is not UTF-8. A request for help or for the
    /// version is refused as well.
    #[error("bad command line")]
    Bad,
    /// An allocation failed.
    #[error("no memory")]
    NoMemory,
}

impl ExitStatus for CommandLineFault {
    ghost use Rattle.ar_cli.specs.Faults.{status_of_fault};

    ghost status_of = { status_of_fault };

    fn status(&self) -> u8 {
        match self {
            CommandLineFault::Bad => 2,
            CommandLineFault::NoMemory => 1,
        }
    }
}

impl From<AllocError> for CommandLineFault {
    ghost use Rattle.std.specs.Prelude.{◌≡◌};
    ghost use Rattle.ar_cli.specs.declared.fault.CommandLineFault.TheVariants.{NoMemory};

    ghost from_gives = { λ _ fault. fault ≡ NoMemory };

    fn from(_error: AllocError) -> CommandLineFault {
        CommandLineFault::NoMemory
    }
}

impl From<io::Error> for CommandLineFault {
    ghost use Rattle.std.specs.Prelude.{◌≡◌};
    ghost use Rattle.std.specs.IoError.{error_kind};
    ghost use Rattle.ar_cli.specs.Faults.{fault_of_kind};

    ghost from_gives = { λ error fault. fault ≡ fault_of_kind (error_kind error) };

    fn from(error: io::Error) -> CommandLineFault {
        match error.kind() {
            ErrorKind::OutOfMemory => CommandLineFault::NoMemory,
            _ => CommandLineFault::Bad,
        }
    }
}
