// Which of two copies go on after a call of both. The result is always that of a copy which goes on.
ghost use Rattle.std.specs.Prelude.{◌≡◌};
ghost use Rattle.ar_copies.specs.Choice.{MayKeep, error_of_both};

use crate::losses::{Losses, Which};
use ar_media::MediaError;

/// Which copies go on after a call of both.
#[derive(Clone, Copy, Debug, PartialEq, Eq)]
pub enum Keep {
    /// Both.
    Both,
    /// The reference alone.
    Reference,
    /// The other copy alone.
    Other,
}

// The error to return where both copies fail: that of the first, unless it is closed.
pub(crate) fn error_of_both(first: MediaError, second: MediaError) -> MediaError
    ensures { result ≡ error_of_both first second }
{
    match first {
        MediaError::Closed => second,
        _ => first,
    }
}

// Which copies go on after calls with these results.
pub(crate) fn choose(
    losses: &Losses,
    reference: Which,
    first: Result<(), MediaError>,
    second: Result<(), MediaError>,
) -> Keep
    ensures { MayKeep first second result }
{
    match (first, second) {
        (Err(MediaError::Closed), Err(MediaError::Closed)) => Keep::Both,
        (Err(MediaError::Closed), _) => {
            losses.note(reference, MediaError::Closed);
            Keep::Other
        }
        (_, Err(MediaError::Closed)) => {
            losses.note(reference.other(), MediaError::Closed);
            Keep::Reference
        }
        (Ok(()), Ok(())) => match losses.lost() {
            None => Keep::Both,
            Some(copy) if copy == reference => Keep::Other,
            Some(_) => Keep::Reference,
        },
        (Err(error), Ok(())) if losses.note(reference, error) => Keep::Other,
        (Err(_), Ok(())) => Keep::Reference,
        (_, Err(error)) if losses.note(reference.other(), error) => Keep::Reference,
        (_, Err(_)) => Keep::Other,
    }
}
