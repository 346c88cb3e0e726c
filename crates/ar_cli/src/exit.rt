// With which status a program exits.
ghost use Rattle.std.specs.Prelude.{◌≡◌, ℕ};
ghost use Rattle.std.specs.Process.{exit_status};
ghost use Rattle.ar_cli.specs.Exit.{status_after};

use std::fmt::Display;
use std::io::Eprint;
use std::process::ExitCode;

/// A failure that ends a program, and its exit status.
pub trait ExitStatus: Display {
    ghost status_of: { Self → ℕ };

    /// 2 for a bad command line, 1 for any failure that has no status of its own (OPERATING, *Its messages*).
    fn status(&self) -> u8
        ensures { result ≡ status_of self.now };
}

/// Exits with 0 where the work is done, and as `fail` else.
pub fn end_with<R: Eprint, F: ExitStatus + Drop>(rt: &R, done: Result<(), F>) -> ExitCode
    ensures { exit_status result ≡ status_after F.status_of done }
{
    match done {
        Ok(()) => ExitCode::SUCCESS,
        Err(failure) => fail(rt, &failure),
    }
}

/// Prints a failure as a line on standard error, and exits with its status. Where standard error takes nothing, the
/// status alone reports it.
pub fn fail<R: Eprint, F: ExitStatus>(rt: &R, failure: &F) -> ExitCode
    ensures { exit_status result ≡ F.status_of failure.now }
{
    let _ = eprintln!(rt; "{failure}");
    ExitCode::from(failure.status())
}
