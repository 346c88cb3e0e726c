//! Calls of logs, of journals and of two copies that go on after the refusal of any one allocation. The gate refuses
//! each in turn, by `tests/`; with ample memory they are the runs themselves.
ghost use Rattle.std.specs.Prelude.{◌≡◌, IsTrue, false};
ghost use Rattle.ar_copies.specs.Copied.{copied_may_leave, copied_seen};
ghost use Rattle.ar_journal.specs.Files.{AreDurable};
ghost use Rattle.ar_journal.specs.Journal.{IsReady};
ghost use Rattle.ar_journal.specs.Reader.{IsReading};
ghost use Rattle.ar_log.specs.Log.{IsSynced};
ghost use Rattle.ar_media.specs.Media.{Only};
ghost use Rattle.ar_media.specs.Regular.{regular_is_clean, regular_may_leave, regular_seen};

use crate::rig::{BATCHES, batch_of, is_batch};
use ar_copies::Losses;
use ar_journal::{CopiedStart, CopyState, Journal, JournalFiles, JournalReader, open_copies};
use ar_log::{Log, LogError, Place, ReadBatch};
use ar_media::{Media, RegularFile};
use std::alloc::Global;
use std::fs;
use std::process::Abort;

/// The names of the files of a journal.
#[derive(Clone, Copy)]
pub struct Folder {
    pub path: &'static str,
    pub selector: &'static str,
    pub first: &'static str,
    pub second: &'static str,
}

const LOG: Folder = Folder {
    path: "test_log_log",
    selector: "test_log_log/selector",
    first: "test_log_log/first",
    second: "test_log_log/second",
};

const JOURNAL: Folder = Folder {
    path: "test_log_journal",
    selector: "test_log_journal/selector",
    first: "test_log_journal/first",
    second: "test_log_journal/second",
};

const ONE: Folder = Folder {
    path: "test_log_one",
    selector: "test_log_one/selector",
    first: "test_log_one/first",
    second: "test_log_one/second",
};

const OTHER: Folder = Folder {
    path: "test_log_other",
    selector: "test_log_other/selector",
    first: "test_log_other/first",
    second: "test_log_other/second",
};

/// No other error comes of a refused allocation.
pub fn is_refused(rt: &impl Abort, error: LogError) {
    assert!(rt; error == LogError::Memory, "{error:?}");
}

/// The records of one of the batches.
pub fn batch(rt: &impl Abort, alloc: Global, number: usize) -> Vec<Vec<u8>> {
    let records = BATCHES[number % 3];
    match batch_of(alloc, records) {
        Ok(batch) => batch,
        Err(_) => batch_of(alloc, records).expect(rt, "memory"),
    }
}

/// Makes an empty folder, whatever an earlier run left.
pub fn begin(rt: &impl Abort, host: &HostRuntime, folder: Folder) {
    let _ = fs::remove_dir_all(host, folder.path);
    let _ = fs::remove_dir_all(host, folder.path);
    if fs::create_dir(host, folder.path).is_err() {
        fs::create_dir(host, folder.path).expect(rt, "a folder");
    }
}

/// Deletes the folder.
pub fn end(rt: &impl Abort, host: &HostRuntime, folder: Folder) {
    if fs::remove_dir_all(host, folder.path).is_err() {
        fs::remove_dir_all(host, folder.path).expect(rt, "no folder");
    }
}

/// The file at a path, which is there then.
pub fn opened(rt: &impl Abort, host: &HostRuntime, path: &str) -> RegularFile
    ensures { Only (regular_seen result) (regular_may_leave result) }
{
    match RegularFile::open(host, path) {
        Ok(file) => file,
        Err(_) => RegularFile::open(host, path).expect(rt, "a file"),
    }
}

fn files_in(rt: &impl Abort, host: &HostRuntime, folder: Folder) -> JournalFiles<RegularFile>
    ensures { AreDurable regular_seen regular_may_leave result }
{
    JournalFiles {
        selector: opened(rt, host, folder.selector),
        first: opened(rt, host, folder.first),
        second: opened(rt, host, folder.second),
    }
}

fn new_log<M: Media + Drop>(rt: &impl Abort, alloc: Global, media: M) -> Log<M>
    ensures synced { IsSynced M.seen M.may_leave result }
    ensures open { result.is_closed ≡ false }
{
    let (error, media) = match ar_log::create(alloc, media, BATCHES[0][0]) {
        Ok(log) => return log,
        Err(refused) => refused,
    };
    is_refused(rt, error);
    match ar_log::create(alloc, media, BATCHES[0][0]) {
        Ok(log) => log,
        Err(_) => panic!(rt; "a log is created"),
    }
}

// Appends a batch. Where that is refused the log is as it was, and takes the batch then.
fn append<M: Media>(rt: &impl Abort, alloc: Global, log: &mut Log<M>, number: usize)
    requires { log.old.is_closed ≡ false → IsTrue (M.is_clean log.old.media) → IsSynced M.seen M.may_leave log.old }
    ensures synced { log.new.is_closed ≡ false → IsTrue (M.is_clean log.new.media)
        → IsSynced M.seen M.may_leave log.new }
{
    let batch = batch(rt, alloc, number);
    let (end, count) = (log.end, log.number);
    if let Err(error) = log.append(alloc, &batch) {
        is_refused(rt, error);
        assert!(rt; (log.end, log.number) == (end, count), "{}", log.number);
        log.append(alloc, &batch).expect(rt, "a batch is appended");
    }
}

// Reads a batch. Where that is refused it is read then.
fn read_at<M: Media>(
    rt: &impl Abort,
    alloc: Global,
    media: &mut M,
    place: Place,
) -> Option<ReadBatch> {
    match ar_log::next_batch(alloc, media, place) {
        Ok(read) => read,
        Err(error) => {
            is_refused(rt, error);
            ar_log::next_batch(alloc, media, place).expect(rt, "a batch is read")
        }
    }
}

fn head_of<M: Media>(rt: &impl Abort, alloc: Global, media: &mut M) -> Place {
    match ar_log::open(alloc, media) {
        Ok(place) => place,
        Err(error) => {
            is_refused(rt, error);
            ar_log::open(alloc, media).expect(rt, "a log is opened")
        }
    }
}

/// The log has these batches, and no others.
fn has_all<M: Media>(rt: &impl Abort, alloc: Global, media: &mut M) {
    let mut place = head_of(rt, alloc, media);
    for wanted in BATCHES {
        let read = read_at(rt, alloc, media, place).expect(rt, "a batch");
        assert!(rt; is_batch(&read.records, wanted), "{:?}", read.records);
        place = read.next;
    }
    let none = read_at(rt, alloc, media, place).is_none();
    assert!(rt; none, "a batch more");
}

fn log_goes_on(rt: &impl Abort, host: &HostRuntime, alloc: Global) {
    let file = opened(rt, host, LOG.first);
    let mut log = new_log(rt, alloc, file);
    append(rt, alloc, &mut log, 1);
    append(rt, alloc, &mut log, 2);
    has_all(rt, alloc, &mut log.media);
}

#[test]
fn a_log_goes_on(rt: HostRuntime) {
    begin(&rt, &rt, LOG);
    log_goes_on(&rt, &rt, rt.alloc());
    end(&rt, &rt, LOG);
}

fn new_journal<M: Media + Drop>(
    rt: &impl Abort,
    alloc: Global,
    files: JournalFiles<M>,
) -> Journal<M>
    ensures { IsReady M.seen M.may_leave M.is_clean result }
{
    let (error, files) = match ar_journal::create(alloc, files, BATCHES[0][0]) {
        Ok(journal) => return journal,
        Err(refused) => refused,
    };
    is_refused(rt, error);
    match ar_journal::create(alloc, files, BATCHES[0][0]) {
        Ok(journal) => journal,
        Err(_) => panic!(rt; "a journal is created"),
    }
}

fn append_to<M: Media>(rt: &impl Abort, alloc: Global, journal: &mut Journal<M>, number: usize)
    requires { IsReady M.seen M.may_leave M.is_clean journal.old }
    ensures { IsReady M.seen M.may_leave M.is_clean journal.new }
{
    let batch = batch(rt, alloc, number);
    let count = journal.number();
    if let Err(error) = journal.append(alloc, &batch) {
        is_refused(rt, error);
        assert!(rt;
            journal.number() == count && !journal.is_closed(),
            "{count}"
        );
        journal
            .append(alloc, &batch)
            .expect(rt, "a batch is appended");
    }
}

// Replaces the log by one with a batch more. A switch allocates nothing.
fn switch<M: Media + Drop>(rt: &impl Abort, alloc: Global, journal: &mut Journal<M>)
    requires { IsReady M.seen M.may_leave M.is_clean journal.old }
    ensures { IsReady M.seen M.may_leave M.is_clean journal.new }
{
    let spare = journal.take_spare().expect(rt, "a spare");
    let mut successor = new_log(rt, alloc, spare);
    append(rt, alloc, &mut successor, 1);
    let switched = journal.switch(successor).is_ok();
    assert!(rt; switched, "the successor is named");
}

fn reader_in(
    rt: &impl Abort,
    host: &HostRuntime,
    alloc: Global,
    folder: Folder,
) -> JournalReader<RegularFile>
    ensures { IsReading regular_seen regular_may_leave regular_is_clean result }
{
    match ar_journal::open(alloc, files_in(rt, host, folder)) {
        Ok(reader) => return reader,
        Err((error, _files)) => is_refused(rt, error),
    }
    match ar_journal::open(alloc, files_in(rt, host, folder)) {
        Ok(reader) => reader,
        Err(_) => panic!(rt; "a journal is opened"),
    }
}

fn next<M: Media>(
    rt: &impl Abort,
    alloc: Global,
    reader: &mut JournalReader<M>,
) -> Option<Vec<Vec<u8>>>
    requires { IsReading M.seen M.may_leave M.is_clean reader.old }
    ensures { IsReading M.seen M.may_leave M.is_clean reader.new }
{
    match reader.next_batch(alloc) {
        Ok(batch) => batch,
        Err(error) => {
            is_refused(rt, error);
            reader.next_batch(alloc).expect(rt, "a batch is read")
        }
    }
}

/// The journal has all batches, and no others.
fn reads<M: Media>(rt: &impl Abort, alloc: Global, reader: &mut JournalReader<M>)
    requires { IsReading M.seen M.may_leave M.is_clean reader.old }
{
    for wanted in BATCHES {
        let found = next(rt, alloc, reader).expect(rt, "a batch");
        assert!(rt; is_batch(&found, wanted), "{found:?}");
    }
    let none = next(rt, alloc, reader).is_none();
    assert!(rt; none, "a batch more");
}

// Makes a journal of the first batches.
fn make_in(rt: &impl Abort, host: &HostRuntime, alloc: Global, folder: Folder, count: usize) {
    let mut journal = new_journal(rt, alloc, files_in(rt, host, folder));
    for number in 1..count {
        append_to(rt, alloc, &mut journal, number);
    }
}

/// The journal in a folder has all batches.
fn reads_in(rt: &impl Abort, host: &HostRuntime, alloc: Global, folder: Folder) {
    let mut reader = reader_in(rt, host, alloc, folder);
    reads(rt, alloc, &mut reader);
}

fn journal_goes_on(rt: &impl Abort, host: &HostRuntime, alloc: Global) {
    let mut journal = new_journal(rt, alloc, files_in(rt, host, JOURNAL));
    append_to(rt, alloc, &mut journal, 2);
    switch(rt, alloc, &mut journal);
    append_to(rt, alloc, &mut journal, 2);
    drop(journal);
    reads_in(rt, host, alloc, JOURNAL);
}

#[test]
fn a_journal_goes_on(rt: HostRuntime) {
    begin(&rt, &rt, JOURNAL);
    journal_goes_on(&rt, &rt, rt.alloc());
    end(&rt, &rt, JOURNAL);
}

// Starts from both folders.
fn start<'a>(
    rt: &impl Abort,
    host: &HostRuntime,
    alloc: Global,
    losses: &'a Losses,
) -> CopiedStart<'a, RegularFile>
    ensures { AreDurable (copied_seen regular_seen) (copied_may_leave regular_seen regular_may_leave) result.files }
{
    let (one, other) = (files_in(rt, host, ONE), files_in(rt, host, OTHER));
    match open_copies(alloc, one, other, losses) {
        Ok(start) => return start,
        Err(error) => is_refused(rt, error),
    }
    let (one, other) = (files_in(rt, host, ONE), files_in(rt, host, OTHER));
    match open_copies(alloc, one, other, losses) {
        Ok(start) => start,
        Err(_) => panic!(rt; "a journal is started"),
    }
}

// One copy was taken: the further one, unless a start that was refused has brought the other up to it. That has all of
// it now, or is given up because an allocation failed.
fn is_started(rt: &impl Abort, further: CopyState, behind: CopyState) -> bool {
    let other = if further == CopyState::Taken {
        behind
    } else {
        assert!(rt; behind == CopyState::Taken, "{further:?} {behind:?}");
        further
    };
    let is_given_up = other == CopyState::GivenUp(LogError::Memory);
    assert!(rt; is_given_up || other == CopyState::Extended, "{other:?}");
    !is_given_up
}

// Starts from both folders, and returns whether the copy that was behind has all batches.
fn read_copies(rt: &impl Abort, host: &HostRuntime, alloc: Global, is_other_taken: bool) -> bool {
    let losses = Losses::new();
    let CopiedStart {
        files,
        first,
        second,
    } = start(rt, host, alloc, &losses);
    let (further, behind) = if is_other_taken {
        (second, first)
    } else {
        (first, second)
    };
    match ar_journal::open(alloc, files) {
        Ok(mut reader) => reads(rt, alloc, &mut reader),
        Err((error, _files)) => is_refused(rt, error),
    }
    is_started(rt, further, behind)
}

fn copies_go_on(rt: &impl Abort, host: &HostRuntime, alloc: Global, is_other_taken: bool) {
    let (taken, behind) = if is_other_taken {
        (OTHER, ONE)
    } else {
        (ONE, OTHER)
    };
    make_in(rt, host, alloc, taken, 3);
    make_in(rt, host, alloc, behind, 2);
    let is_brought_up = read_copies(rt, host, alloc, is_other_taken);
    reads_in(rt, host, alloc, taken);
    if is_brought_up {
        reads_in(rt, host, alloc, behind);
    }
}

#[test]
fn two_copies_go_on(rt: HostRuntime) {
    begin(&rt, &rt, ONE);
    begin(&rt, &rt, OTHER);
    copies_go_on(&rt, &rt, rt.alloc(), false);
    copies_go_on(&rt, &rt, rt.alloc(), true);
    end(&rt, &rt, ONE);
    end(&rt, &rt, OTHER);
}
