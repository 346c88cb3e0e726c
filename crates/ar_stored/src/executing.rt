// The records of a store are executed on a new array.
ghost use Rattle.std.specs.Prelude.{IfOk, IsTrue};
ghost use Rattle.ar_journal.specs.Reader.{IsReading, batches_read};
ghost use Rattle.ar_checkpoint.specs.Successor.{IsHeadAlone};
ghost use Rattle.ar_recovery.specs.Stored.{AreRecords};

use crate::fault::StoreCause;
use crate::setup::setup_in;
use crate::source::FusedSource;
use ar_checkpoint::Store;
use ar_compaction::{Makes, StoreHead};
use ar_folder::open_in;
use ar_fuses::{Fuse, FusedDisk};
use ar_journal::JournalReader;
use ar_live::LiveArray;
use ar_media::Media;
use ar_operator::{FusedMaker, start_fused};
use ar_recovery::{replay, restart};
use std::alloc::Global;

/// A store whose records were executed, and which goes on.
#[derive(Drop)]
pub struct Restarted<'a, M: Media> {
    pub head: StoreHead,
    /// The array on which the records were executed.
    pub live: LiveArray<FusedDisk<'a>>,
    /// The store, ready for more records.
    pub store: Store<M>,
    /// How many units were made at each address.
    pub makes: Makes,
    /// How many records were executed.
    pub records: u64,
}

/// Executes the records of a store, of which the head was read, on a new array, with a cache of this size in blocks.
pub fn restart_store<'a, M: Media + Drop>(
    alloc: Global,
    cache: u32,
    fuses: &'a [Fuse; 12],
    head: StoreHead,
    reader: JournalReader<M>,
) -> Result<Restarted<'a, M>, StoreCause>
    requires reading { IsReading M.seen M.may_leave M.is_clean reader }
    requires head { IsTrue (M.is_clean reader.active) → IsHeadAlone (batches_read M.seen reader) }
    ensures { IfOk result (λ done. AreRecords M.seen M.is_clean done.store done.live.history) }
{
    let array = match start_fused(alloc, setup_in(&head, cache), fuses) {
        Ok(array) => array,
        Err(_) => return Err(StoreCause::Start),
    };
    let mut source = FusedSource::new(FusedMaker::new(fuses));
    let mut makes = head.makes;
    let (live, store, records) = restart(alloc, reader, array, &mut source, &mut makes)?;
    Ok(Restarted {
        head,
        live,
        store,
        makes,
        records,
    })
}

/// A store that was read.
#[derive(Drop)]
pub struct ReadStore<'a> {
    pub head: StoreHead,
    /// The array on which its records were executed.
    pub live: LiveArray<FusedDisk<'a>>,
    /// How many records were executed.
    pub records: u64,
}

/// Executes the records of the store in a folder on a new array without a cache. Nothing is written.
pub fn read_store<'a>(
    rt: &HostRuntime,
    alloc: Global,
    folder: &str,
    fuses: &'a [Fuse; 12],
) -> Result<ReadStore<'a>, StoreCause> {
    let (head, mut reader) = open_in(rt, alloc, folder)?;
    let array = match start_fused(alloc, setup_in(&head, 0), fuses) {
        Ok(array) => array,
        Err(_) => return Err(StoreCause::Start),
    };
    let mut source = FusedSource::new(FusedMaker::new(fuses));
    let mut makes = head.makes;
    let (live, records) = replay(alloc, &mut reader, array, &mut source, &mut makes)?;
    Ok(ReadStore {
        head,
        live,
        records,
    })
}
