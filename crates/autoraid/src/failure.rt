// Failures of the program, with their messages and exit status.
use ar_cli::ExitStatus;
use ar_images::ImageFault;
use ar_play::PlayFault;
use ar_server::ServeFault;
use ar_stored::StoreFault;
use thiserror::Error;

/// Why the program exits with a status other than 0. A refused command line has a fault of its own.
#[derive(Debug, Drop, Error)]
pub enum Failure {
    /// Standard output can't be written.
    #[error("write fault")]
    Write,
    #[error(transparent)]
    Play(PlayFault),
    #[error(transparent)]
    Serve(ServeFault),
    #[error(transparent)]
    Store(StoreFault),
    #[error(transparent)]
    Image(ImageFault),
}

impl ExitStatus for Failure {
    ghost use Rattle.autoraid.specs.Failures.{status_of_failure};

    ghost status_of = { status_of_failure };

    fn status(&self) -> u8 {
        match self {
            Failure::Serve(fault) => fault.status(),
            _ => 1,
        }
    }
}
