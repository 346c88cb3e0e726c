// How fast a rebuild goes, by the looks at it, and so how long it still takes.
ghost use Rattle.std.specs.Prelude.{◌≡◌};
ghost use Rattle.ar_status.specs.Pace.{seconds_left};

use crate::ArrayHealth;

// How far a rebuild had come when it was first seen.
#[derive(Clone, Copy)]
struct FirstSeen {
    disk: u8,
    done: u16,
    seconds: u64,
}

/// The pace of the rebuild that goes on, if one does.
#[derive(Clone, Copy)]
pub(crate) struct RebuildPace {
    since: Option<FirstSeen>,
    left: Option<u64>,
}

impl RebuildPace {
    /// No rebuild was seen.
    pub(crate) fn new() -> RebuildPace {
        RebuildPace {
            since: None,
            left: None,
        }
    }

    /// Looks at an array of disks with this many extents, this many seconds after the start.
    pub(crate) fn look(&mut self, seconds: u64, health: ArrayHealth, extents: u16) {
        let ArrayHealth::Rebuilding { disk, done } = health else {
            *self = RebuildPace::new();
            return;
        };
        match self.since {
            Some(first) if first.disk == disk && first.done <= done => {
                let since = seconds.saturating_sub(first.seconds);
                self.left = seconds_left(extents, first.done, done, since);
            }
            _ => {
                *self = RebuildPace {
                    since: Some(FirstSeen {
                        disk,
                        done,
                        seconds,
                    }),
                    left: None,
                }
            }
        }
    }

    /// The seconds that the rebuild still takes, by the last look: None where there is none, or no extent was rebuilt
    /// since it was first seen.
    pub(crate) fn seconds_left(&self) -> Option<u64> {
        self.left
    }
}

// The seconds that the other extents take, where those from `first` to `done` took `seconds`.
fn seconds_left(extents: u16, first: u16, done: u16, seconds: u64) -> Option<u64>
    ensures { result ≡ seconds_left extents first done seconds }
{
    if done <= first || done > extents {
        return None;
    }
    let (left, rebuilt) = (u64::from(extents - done), u64::from(done - first));
    Some(left.saturating_mul(seconds) / rebuilt)
}
