//! Two copies of a journal, of one of which a file is lost, cut to each length, or has any byte changed: a start finds
//! all batches in the other one, or is refused where a log is of another version.
ghost use Rattle.std.specs.Prelude.{IfSome};
ghost use Rattle.ar_journal.specs.Files.{AreDurable};
ghost use Rattle.ar_journal.specs.Journal.{IsReady};
ghost use Rattle.ar_journal.specs.Reader.{IsReading};
ghost use Rattle.ar_media.specs.Media.{Only};
ghost use Rattle.ar_media.specs.Memory.{memory_may_leave, memory_seen};

use crate::rig::{BATCHES, batch_of, is_batch};
use ar_copies::Losses;
use ar_journal::{CopiedStart, Journal, JournalFiles, JournalReader, create, open, open_copies};
use ar_log::LogError;
use ar_media::{Media, MemoryFile};
use std::alloc::Global;
use std::process::Abort;

/// What is done to one file of a copy.
#[derive(Clone, Copy, Debug)]
enum Harm {
    Cut(usize),
    /// The bits of a byte that change, with its offset.
    Flip(u8, usize),
}

/// The place of the active log among the files, and the offset of the version in its magic.
const ACTIVE: usize = 1;

const VERSION: usize = 7;

/// The bytes of the files of a copy: the selector's, the first log's, the second log's.
type Contents = [Vec<u8>; 3];

fn empty_file(alloc: Global) -> Option<MemoryFile> {
    MemoryFile::new(alloc, Vec::new(alloc)).ok()
}

fn append_to<M: Media>(alloc: Global, journal: &mut Journal<M>, records: &[&[u8]]) -> bool
    requires { IsReady M.seen M.may_leave M.is_clean journal.old }
    ensures { IsReady M.seen M.may_leave M.is_clean journal.new }
{
    match batch_of(alloc, records) {
        Ok(batch) => journal.append(alloc, &batch).is_ok(),
        Err(_) => false,
    }
}

// The files of a journal of `BATCHES`.
fn filled<M: Media + Drop>(alloc: Global, files: JournalFiles<M>) -> Option<JournalFiles<M>> {
    let Ok(mut journal) = create(alloc, files, BATCHES[0][0]) else {
        return None;
    };
    let one = append_to(alloc, &mut journal, BATCHES[1]);
    let other = append_to(alloc, &mut journal, BATCHES[2]);
    if one && other {
        journal.into_files().ok()
    } else {
        None
    }
}

// What these files hold.
fn written(alloc: Global) -> Option<Contents> {
    let files = JournalFiles {
        selector: empty_file(alloc)?,
        first: empty_file(alloc)?,
        second: empty_file(alloc)?,
    };
    let files = filled(alloc, files)?;
    Some([
        files.selector.bytes().to_vec(alloc).ok()?,
        files.first.bytes().to_vec(alloc).ok()?,
        files.second.bytes().to_vec(alloc).ok()?,
    ])
}

fn file_of(alloc: Global, bytes: &[u8], harm: Option<Harm>) -> Option<MemoryFile>
    ensures { IfSome result (λ file. Only (memory_seen file) (memory_may_leave file)) }
{
    let mut bytes = bytes.to_vec(alloc).ok()?;
    match harm {
        None => {}
        Some(Harm::Cut(len)) => bytes.truncate(len),
        Some(Harm::Flip(bits, at)) => {
            if let Some(byte) = bytes.get_mut(at) {
                *byte ^= bits;
            }
        }
    }
    MemoryFile::new(alloc, bytes).ok()
}

// The files of a copy, of which one is harmed.
fn files_of(
    alloc: Global,
    contents: &Contents,
    harmed: usize,
    harm: Option<Harm>,
) -> Option<JournalFiles<MemoryFile>>
    ensures { IfSome result (AreDurable memory_seen memory_may_leave) }
{
    let harm_of = |place: usize| if place == harmed { harm } else { None };
    let [selector, first, second] = contents;
    Some(JournalFiles {
        selector: file_of(alloc, selector, harm_of(0))?,
        first: file_of(alloc, first, harm_of(1))?,
        second: file_of(alloc, second, harm_of(2))?,
    })
}

// Whether a start finds all batches where a file of one copy is harmed.
fn finds_all(
    alloc: Global,
    contents: &Contents,
    is_second: bool,
    harmed: usize,
    harm: Harm,
) -> Result<bool, LogError> {
    let losses = Losses::new();
    let harms = if is_second {
        (None, Some(harm))
    } else {
        (Some(harm), None)
    };
    let first = files_of(alloc, contents, harmed, harms.0).ok_or(LogError::Memory)?;
    let second = files_of(alloc, contents, harmed, harms.1).ok_or(LogError::Memory)?;
    let CopiedStart { files, .. } = open_copies(alloc, first, second, &losses)?;
    match open(alloc, files) {
        Ok(mut reader) => has_all(alloc, &mut reader),
        Err((error, _files)) => Err(error),
    }
}

// Whether a journal has these batches, and no others.
fn has_all<M: Media>(alloc: Global, reader: &mut JournalReader<M>) -> Result<bool, LogError>
    requires { IsReading M.seen M.may_leave M.is_clean reader.old }
{
    for wanted in BATCHES {
        match reader.next_batch(alloc)? {
            Some(found) if is_batch(&found, wanted) => {}
            _ => return Ok(false),
        }
    }
    Ok(reader.next_batch(alloc)?.is_none())
}

fn survives(
    rt: &impl Abort,
    alloc: Global,
    contents: &Contents,
    is_second: bool,
    harmed: usize,
    harm: Harm,
) {
    // A copy of another version is no lost one, and isn't overwritten.
    let wanted = match harm {
        Harm::Flip(_, VERSION) if harmed == ACTIVE => Err(LogError::OtherVersion),
        _ => Ok(true),
    };
    let found = finds_all(alloc, contents, is_second, harmed, harm);
    assert!(rt;
        found == wanted,
        "{harm:?} of file {harmed}, second copy {is_second}: {found:?}"
    );
}

fn harm_each(rt: &impl Abort, alloc: Global, contents: &Contents, is_second: bool, harmed: usize) {
    for at in 0..contents[harmed % 3].len() {
        survives(rt, alloc, contents, is_second, harmed, Harm::Cut(at));
        for bits in [1, 2, 128, 255] {
            survives(rt, alloc, contents, is_second, harmed, Harm::Flip(bits, at));
        }
    }
}

#[test]
fn either_copy_may_be_harmed(rt: HostRuntime) {
    let contents = written(rt.alloc()).expect(&rt, "written");
    for is_second in [false, true] {
        for harmed in 0..3 {
            harm_each(&rt, rt.alloc(), &contents, is_second, harmed);
        }
    }
}
