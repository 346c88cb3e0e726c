// The reply to a command. Sense data come with CHECK CONDITION alone, and data with GOOD alone.
ghost use Rattle.std.specs.Prelude.{◌≡◌};
ghost use Rattle.ar_scsi.specs.Reply as shape;

use crate::{Sense, sense18};
use bytes::Bytes;
use std::alloc::AllocError;

/// The status of a command.
#[derive(Clone, Copy, Debug, PartialEq, Eq)]
pub enum Status {
    /// GOOD: the command is done.
    Good,
    /// CHECK CONDITION: the command failed, and the sense data state why.
    CheckCondition,
    /// BUSY: the command ran out of memory, and no unit has changed.
    Busy,
}

/// The reply to a command. `good`, `check` and `busy` create those that occur: sense data with CHECK CONDITION alone, a
/// payload with GOOD alone.
#[derive(Debug, Drop, PartialEq, Eq)]
pub struct Reply {
    pub status: Status,
    pub sense: Option<[u8; 18]>,
    pub payload: Bytes,
}

impl Reply {
    /// Returns GOOD with `payload`.
    pub fn good(payload: Bytes) -> Reply
        ensures { result ≡ shape.good payload }
    {
        Reply {
            status: Status::Good,
            sense: None,
            payload,
        }
    }

    /// Returns CHECK CONDITION with `sense` and no payload.
    pub fn check(sense: Sense) -> Reply
        ensures { result ≡ shape.check sense }
    {
        Reply {
            status: Status::CheckCondition,
            sense: Some(sense18(sense)),
            payload: Bytes::new(),
        }
    }

    /// Returns BUSY, without sense data or payload.
    pub fn busy() -> Reply
        ensures { result ≡ shape.busy }
    {
        Reply {
            status: Status::Busy,
            sense: None,
            payload: Bytes::new(),
        }
    }
}

impl Clone for Reply {
    ghost use Rattle.std.specs.Prelude.{[]};

    ghost is_clone = { λ reply copy. copy ≡ reply };

    ghost is_infallible = { λ reply. reply.payload ≡ [] };

    /// Clones the reply; its bytes are shared, not copied. `Err` only if the bytes can't be shared, never if there are
    /// none.
    fn clone(&self) -> Result<Reply, AllocError> {
        let bytes = &self.payload;
        Ok(Reply {
            status: self.status,
            sense: self.sense,
            payload: bytes.slice(0..bytes.len())?,
        })
    }
}
