// Which copy of a store is lost. One call that fails decides it for all files of the store, so that none of them goes
// on with a copy that another has given up. There is no contract: it is a plain number that threads share.
use ar_media::MediaError;
use std::io::ErrorKind;
use std::sync::atomic::{AtomicU64, Ordering};

/// One of the two copies of a store.
#[derive(Clone, Copy, Debug, PartialEq, Eq)]
pub enum Which {
    /// The first.
    First,
    /// The second.
    Second,
}

impl Which {
    /// The other one.
    pub fn other(self) -> Which {
        match self {
            Which::First => Which::Second,
            Which::Second => Which::First,
        }
    }
}

/// The copy of a store that is lost, if one is, and why. The files of the store share it. Once a copy is lost it stays
/// so until a new one is made, and the other one is not: a store goes on with one copy at least.
#[derive(Drop)]
pub struct Losses {
    // 0 while no copy is lost. Else twice the cause's number and two, and one more for the second copy.
    loss: AtomicU64,
    // The same as it is shown: while a copy is made, what it was before.
    shown: AtomicU64,
    // The copy that is being made: 0 for none, 1 for the first, 2 for the second.
    making: AtomicU64,
    // How many copies were made.
    made: AtomicU64,
}

// The causes that have a number of their own, which is their place. Any other one is stored as the last.
const CAUSES: [MediaError; 10] = [
    MediaError::Memory,
    MediaError::Full,
    MediaError::Closed,
    MediaError::Failed(ErrorKind::NotFound),
    MediaError::Failed(ErrorKind::PermissionDenied),
    MediaError::Failed(ErrorKind::ReadOnlyFilesystem),
    MediaError::Failed(ErrorKind::UnexpectedEof),
    MediaError::Failed(ErrorKind::WriteZero),
    MediaError::Failed(ErrorKind::TimedOut),
    MediaError::Failed(ErrorKind::Other),
];

const UNKNOWN: u64 = 9;

impl Losses {
    /// No copy is lost.
    pub fn new() -> Losses {
        Losses {
            loss: AtomicU64::new(0),
            shown: AtomicU64::new(0),
            making: AtomicU64::new(0),
            made: AtomicU64::new(0),
        }
    }

    /// Notes that a copy has failed, and returns whether it is the one that is lost. It is not where the other copy was
    /// lost before or is being made: that one is lost then, since it isn't whole.
    pub fn note(&self, copy: Which, error: MediaError) -> bool {
        let making = self.making();
        let lost = making.unwrap_or(copy);
        let loss = number_of(error).min(UNKNOWN) * 2 + 2 + u64::from(lost == Which::Second);
        set_once(&self.loss, loss);
        if making.is_none() {
            set_once(&self.shown, loss);
        }
        self.is_lost(copy)
    }

    /// Begins to make this copy, in place of one that is lost or beside the only one, unless that is begun. Until it is
    /// whole, it is the one that is lost where either fails.
    pub fn begin(&self, copy: Which) {
        if self.making().is_some() {
            return;
        }
        let making = match copy {
            Which::First => 1,
            Which::Second => 2,
        };
        self.making.store(making, Ordering::SeqCst);
        self.loss.store(0, Ordering::SeqCst);
    }

    /// Ends a copy that was begun: `Ok` where the store has both now. Otherwise why not: the new one isn't whole
    /// (`Closed`), or was lost meanwhile.
    pub fn end(&self, is_whole: bool) -> Result<(), MediaError> {
        let Some(copy) = self.making() else {
            return Err(MediaError::Closed);
        };
        if !is_whole {
            self.note(copy, MediaError::Closed);
        }
        let lost = self.cause(copy);
        if lost.is_none() {
            self.shown.store(0, Ordering::SeqCst);
            self.made.fetch_add(1, Ordering::SeqCst);
        }
        self.making.store(0, Ordering::SeqCst);
        match lost {
            None => Ok(()),
            Some(cause) => Err(cause),
        }
    }

    /// Whether a new copy was made, which no folder of the start has.
    pub fn has_new_copy(&self) -> bool {
        self.made.load(Ordering::SeqCst) != 0
    }

    /// Whether the store has lost a copy, and no new one is whole.
    pub fn is_degraded(&self) -> bool {
        self.shown.load(Ordering::SeqCst) != 0
    }

    // The copy that is being made.
    fn making(&self) -> Option<Which> {
        match self.making.load(Ordering::SeqCst) {
            1 => Some(Which::First),
            2 => Some(Which::Second),
            _ => None,
        }
    }

    /// Whether this copy is lost.
    pub fn is_lost(&self, copy: Which) -> bool {
        self.lost() == Some(copy)
    }

    /// Which copy is lost.
    pub fn lost(&self) -> Option<Which> {
        match self.loss.load(Ordering::SeqCst) {
            0 | 1 => None,
            loss if loss % 2 == 1 => Some(Which::Second),
            _ => Some(Which::First),
        }
    }

    /// Why this copy is lost. An error of the system that has no number of its own is `Other`.
    pub fn cause(&self, copy: Which) -> Option<MediaError> {
        if !self.is_lost(copy) {
            return None;
        }
        let number = self.loss.load(Ordering::SeqCst) / 2;
        cause_at(number.saturating_sub(1))
    }
}

// Sets a number that is 0.
fn set_once(number: &AtomicU64, to: u64) {
    let _set = number.compare_exchange(0, to, Ordering::SeqCst, Ordering::SeqCst);
}

// The place of an error among the causes.
fn number_of(error: MediaError) -> u64 {
    let mut number = 0;
    for cause in CAUSES {
        if cause == error {
            return number;
        }
        if number < UNKNOWN {
            number += 1;
        }
    }
    UNKNOWN
}

// The cause of this number.
fn cause_at(number: u64) -> Option<MediaError> {
    CAUSES.get(number as usize).copied()
}
