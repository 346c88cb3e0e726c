//! Stores on files in memory: their batches, and what a crash leaves of them.
ghost use Rattle.std.specs.Prelude.{◌≡◌, ◌≤◌, IfOk, IfSome, IsTrue, length};
ghost use Rattle.ar_checkpoint.specs.Successor.{IsHeadAlone};
ghost use Rattle.ar_compaction.specs.Head.{HeadData};
ghost use Rattle.ar_journal.specs.Files.{AreDurable};
ghost use Rattle.ar_journal.specs.Journal.{IsReady};
ghost use Rattle.ar_journal.specs.Reader.{IsReading, batches_read};
ghost use Rattle.ar_media.specs.Media.{Only};
ghost use Rattle.ar_media.specs.Memory.{memory_may_leave, memory_seen};

use ar_checkpoint::{CheckpointError, checkpoint};
use ar_compaction::{Makes, StoreHead, decode_head, encode_head};
use ar_disks::Geometry;
use ar_journal::{Journal, JournalFiles, JournalReader, create, open};
use ar_media::{Fate, Media, MemoryFile};
use ar_record::{Record, decode};
use std::alloc::{AllocError, Global};
use std::process::Abort;

/// The generation of a store that is made.
pub const GENERATION: u64 = 7;

fn first_head(alloc: Global) -> Result<StoreHead, AllocError>
    ensures { IfOk result (λ head. length head.name.items ≤ 64) }
{
    Ok(StoreHead {
        generation: GENERATION,
        identity: [3; 16],
        geometry: Geometry::SMALL,
        disks: 4,
        extents: 9,
        makes: Makes::none(),
        name: Vec::from_slice(alloc, b"drawn")?,
    })
}

fn empty_file(rt: &impl Abort, alloc: Global) -> MemoryFile {
    MemoryFile::new(alloc, Vec::new(alloc)).expect(rt, "memory")
}

/// The files of a store with these batches after its head.
pub fn store_of(
    rt: &impl Abort,
    alloc: Global,
    batches: &[Vec<Vec<u8>>],
) -> JournalFiles<MemoryFile> {
    let head = first_head(alloc).expect(rt, "memory");
    let bytes = encode_head(alloc, &head).expect(rt, "memory");
    let files = JournalFiles {
        selector: empty_file(rt, alloc),
        first: empty_file(rt, alloc),
        second: empty_file(rt, alloc),
    };
    match create(alloc, files, &bytes) {
        Err(_) => panic!(rt; "a journal is created"),
        Ok(journal) => files_of(rt, append_all(rt, alloc, journal, batches)),
    }
}

fn append_all<M: Media + Drop>(
    rt: &impl Abort,
    alloc: Global,
    journal: Journal<M>,
    batches: &[Vec<Vec<u8>>],
) -> Journal<M>
    requires { IsReady M.seen M.may_leave M.is_clean journal }
{
    let mut journal = journal;
    for batch in batches {
        let is_appended = journal.append(alloc, batch).is_ok();
        assert!(rt; is_appended, "a batch is appended");
    }
    journal
}

/// The files of a journal.
pub fn files_of<M: Media + Drop>(rt: &impl Abort, journal: Journal<M>) -> JournalFiles<M> {
    match journal.into_files() {
        Ok(files) => files,
        Err(_) => panic!(rt; "the spare is there"),
    }
}

/// The files that a crash leaves, where these are the fates of the newest calls of each.
pub fn restarted(
    rt: &impl Abort,
    files: &JournalFiles<MemoryFile>,
    fates: &[Fate],
) -> JournalFiles<MemoryFile>
    ensures { AreDurable memory_seen memory_may_leave result }
{
    JournalFiles {
        selector: left(rt, &files.selector, fates),
        first: left(rt, &files.first, fates),
        second: left(rt, &files.second, fates),
    }
}

fn left(rt: &impl Abort, file: &MemoryFile, fates: &[Fate]) -> MemoryFile
    ensures { Only (memory_seen result) (memory_may_leave result) }
{
    file.after_crash(fates).expect(rt, "memory")
}

/// The file, each call of which fails but the first ones. A sync says that what it holds is what a crash leaves.
pub fn failing(rt: &impl Abort, file: MemoryFile, calls: u64) -> MemoryFile
    ensures { Only (memory_seen result) (memory_may_leave result) }
{
    let mut file = file;
    file.fail_after(calls.saturating_add(1));
    file.sync().expect(rt, "the first call passes");
    file
}

fn open_head<M: Media + Drop>(
    alloc: Global,
    files: JournalFiles<M>,
) -> Option<(StoreHead, JournalReader<M>)>
    requires { AreDurable M.seen M.may_leave files }
    ensures reading { IfSome result (λ r. IsReading M.seen M.may_leave M.is_clean r.1) }
    ensures only_head { IfSome result (λ r. IsTrue (M.is_clean r.1.active) → IsHeadAlone (batches_read M.seen r.1)) }
    ensures name { IfSome result (λ r. length r.0.name.items ≤ 64) }
{
    let Ok(mut reader) = open(alloc, files) else {
        return None;
    };
    let Ok(Some(batch)) = reader.next_batch(alloc) else {
        return None;
    };
    let head = head_in(alloc, &batch)?;
    Some((head, reader))
}

fn head_in(alloc: Global, batch: &[Vec<u8>]) -> Option<StoreHead>
    ensures { IfSome result (λ head. length head.name.items ≤ 64) }
{
    match batch {
        [bytes] => decode_head(alloc, bytes.as_slice()).ok(),
        _ => None,
    }
}

/// Replaces the log of a store. None where it can't be opened.
pub fn replace<M: Media + Drop>(
    alloc: Global,
    files: JournalFiles<M>,
) -> Option<Result<Journal<M>, (CheckpointError, JournalFiles<M>)>>
    requires { AreDurable M.seen M.may_leave files }
{
    let (head, reader) = open_head(alloc, files)?;
    Some(checkpoint(alloc, reader, &head))
}

/// The generation of a store, and the batches after its head. None where it can't be read.
pub fn read<M: Media + Drop>(
    alloc: Global,
    files: JournalFiles<M>,
) -> Option<(u64, Vec<Vec<Vec<u8>>>)>
    requires { AreDurable M.seen M.may_leave files }
{
    let (head, reader) = open_head(alloc, files)?;
    let batches = read_rest(alloc, reader)?;
    Some((head.generation, batches))
}

fn read_rest<M: Media + Drop>(alloc: Global, reader: JournalReader<M>) -> Option<Vec<Vec<Vec<u8>>>>
    requires { IsReading M.seen M.may_leave M.is_clean reader }
{
    let mut reader = reader;
    let mut batches = Vec::new(alloc);
    for _ in 0..u64::MAX {
        match reader.next_batch(alloc) {
            Err(_) => return None,
            Ok(None) => return Some(batches),
            Ok(Some(batch)) => batches.push(batch).ok()?,
        }
    }
    None
}

/// The records of batches. None where one isn't a record.
pub fn records_in(alloc: Global, batches: &[Vec<Vec<u8>>]) -> Option<Vec<Record>> {
    let mut records = Vec::new(alloc);
    for batch in batches {
        for bytes in batch {
            records.push(decode(alloc, bytes.as_slice()).ok()?).ok()?;
        }
    }
    Some(records)
}
