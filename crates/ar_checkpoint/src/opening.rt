// The beginning of a store that an earlier program left.
ghost use Rattle.std.specs.Prelude.{◌≡◌, ◌∷◌, [], IfOk, IfSome, IsTrue};
ghost use Rattle.ar_log.specs.Codec.{items_of};
ghost use Rattle.ar_journal.specs.Files.{AreDurable};
ghost use Rattle.ar_journal.specs.Reader.{IsReading, batches_read};
ghost use Rattle.ar_checkpoint.specs.Successor.{IsHeadAlone};

use ar_compaction::{HeadError, StoreHead, decode_head};
use ar_journal::{JournalFiles, JournalReader, open};
use ar_log::LogError;
use ar_media::Media;
use std::alloc::Global;

/// Why no array is made of a store.
#[derive(Clone, Copy, Debug, PartialEq, Eq)]
pub enum RestartError {
    /// The journal can't be read, or is damaged.
    Journal(LogError),
    /// It begins with no head of a store.
    Head(HeadError),
    /// The record of this number, counted from 0, isn't one or can't be executed again.
    Record(u64),
    /// Out of memory.
    NoMemory,
}

/// Begins to read a store: returns its head, and what reads on after it. Nothing is written.
pub fn open_store<M: Media + Drop>(
    alloc: Global,
    files: JournalFiles<M>,
) -> Result<(StoreHead, JournalReader<M>), RestartError>
    // After a restart, what is read is what is on the media.
    requires { AreDurable M.seen M.may_leave files }
    ensures reading { IfOk result (λ r. IsReading M.seen M.may_leave M.is_clean r.1) }
    ensures head { IfOk result (λ r. IsTrue (M.is_clean r.1.active) → IsHeadAlone (batches_read M.seen r.1)) }
{
    let mut reader = match open(alloc, files) {
        Ok(reader) => reader,
        Err((error, _files)) => return Err(RestartError::Journal(error)),
    };
    match reader.next_batch(alloc) {
        Err(error) => Err(RestartError::Journal(error)),
        Ok(None) => Err(RestartError::Head(HeadError::Invalid)),
        Ok(Some(batch)) => {
            let head = head_in(alloc, &batch)?;
            Ok((head, reader))
        }
    }
}

// The head in the first batch.
fn head_in(alloc: Global, batch: &[Vec<u8>]) -> Result<StoreHead, RestartError> {
    match batch {
        [bytes] => decode_head(alloc, bytes.as_slice()).map_err(RestartError::Head),
        _ => Err(RestartError::Head(HeadError::Invalid)),
    }
}
