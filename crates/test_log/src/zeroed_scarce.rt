//! Calls of a log over zeros that go on after the refusal of any one allocation, which the gate refuses in turn.
ghost use Rattle.std.specs.Prelude.{◌≡◌, [], IfOk, IsTrue, false};
ghost use Rattle.ar_log.specs.Zeroed.{IsAhead};
ghost use Rattle.ar_media.specs.Media.{Only};
ghost use Rattle.ar_media.specs.Regular.{regular_is_clean, regular_may_leave, regular_seen};

use crate::rig::{BATCHES, is_batch};
use crate::scarce::{Folder, batch, begin, end, is_refused, opened};
use ar_log::{LogError, ZeroedBatches, ZeroedLog};
use ar_media::{Media, RegularFile};
use std::alloc::Global;
use std::process::Abort;

const ZEROED: Folder = Folder {
    path: "test_log_zeroed",
    selector: "test_log_zeroed/selector",
    first: "test_log_zeroed/first",
    second: "test_log_zeroed/second",
};

/// How many zeros the log begins with, and how many it adds at a time: some batches find room, and others don't.
const LEN: usize = 50;

const STEP: usize = 10;

// The medium with nothing on it.
fn emptied<M: Media>(rt: &impl Abort, media: M) -> M
    ensures { Only [] (M.may_leave result) }
{
    let mut media = media;
    media.cut(0).expect(rt, "an empty file");
    media.sync().expect(rt, "a synced file");
    media
}

fn new_log<M: Media + Drop>(rt: &impl Abort, alloc: Global, media: M) -> ZeroedLog<M>
    ensures { IsAhead M.seen M.may_leave result }
{
    let (error, media) = match ar_log::create_zeroed(alloc, emptied(rt, media), LEN, STEP) {
        Ok(log) => return log,
        Err(refused) => refused,
    };
    is_refused(rt, error);
    match ar_log::create_zeroed(alloc, emptied(rt, media), LEN, STEP) {
        Ok(log) => log,
        Err(_) => panic!(rt; "a log is created"),
    }
}

// Appends a batch. Where that is refused the log is as it was, but for more zeros, and takes the batch then.
fn append<M: Media>(rt: &impl Abort, alloc: Global, log: &mut ZeroedLog<M>, number: usize)
    requires { log.old.is_closed ≡ false → IsTrue (M.is_clean log.old.media) → IsAhead M.seen M.may_leave log.old }
    ensures { log.new.is_closed ≡ false → IsTrue (M.is_clean log.new.media) → IsAhead M.seen M.may_leave log.new }
{
    let batch = batch(rt, alloc, number);
    let end = log.end;
    if let Err(error) = log.append(alloc, &batch) {
        is_refused(rt, error);
        assert!(rt; log.end == end && !log.is_closed, "{end}");
        log.append(alloc, &batch).expect(rt, "a batch is appended");
    }
}

// Recovers the log of the file, from its beginning.
fn recover_in(
    rt: &impl Abort,
    host: &HostRuntime,
    alloc: Global,
) -> Result<ZeroedLog<RegularFile>, LogError>
    ensures { IfOk result (λ log. IsTrue (regular_is_clean log.media)
        → IsAhead regular_seen regular_may_leave log) }
{
    let mut file = opened(rt, host, ZEROED.first);
    let found = ar_log::recover_zeroed(alloc, &mut file)?;
    Ok(ar_log::resume_zeroed(file, found.end, found.ahead, STEP))
}

fn recovered(rt: &impl Abort, host: &HostRuntime, alloc: Global) -> ZeroedLog<RegularFile>
    ensures { IsTrue (regular_is_clean result.media) → IsAhead regular_seen regular_may_leave result }
{
    match recover_in(rt, host, alloc) {
        Ok(log) => log,
        Err(error) => {
            is_refused(rt, error);
            recover_in(rt, host, alloc).expect(rt, "a log is recovered")
        }
    }
}

fn read<M: Media>(rt: &impl Abort, alloc: Global, media: &mut M) -> ZeroedBatches {
    match ar_log::read_medium(alloc, media) {
        Ok(found) => found,
        Err(error) => {
            is_refused(rt, error);
            ar_log::read_medium(alloc, media).expect(rt, "a log is read")
        }
    }
}

/// The log has all batches, and no others.
fn has_all<M: Media>(rt: &impl Abort, alloc: Global, media: &mut M) {
    let found = read(rt, alloc, media).batches;
    let are_all = found.len() == BATCHES.len()
        && found
            .iter()
            .zip(BATCHES.iter())
            .all(|(one, wanted)| is_batch(one, wanted));
    assert!(rt; are_all, "{found:?}");
}

fn begin_log(rt: &impl Abort, host: &HostRuntime, alloc: Global) {
    let mut log = new_log(rt, alloc, opened(rt, host, ZEROED.first));
    append(rt, alloc, &mut log, 0);
    append(rt, alloc, &mut log, 1);
}

fn go_on(rt: &impl Abort, host: &HostRuntime, alloc: Global) {
    let mut log = recovered(rt, host, alloc);
    append(rt, alloc, &mut log, 2);
    has_all(rt, alloc, &mut log.media);
}

#[test]
fn a_log_over_zeros_goes_on(rt: HostRuntime) {
    begin(&rt, &rt, ZEROED);
    begin_log(&rt, &rt, rt.alloc());
    go_on(&rt, &rt, rt.alloc());
    end(&rt, &rt, ZEROED);
}
