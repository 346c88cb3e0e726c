// A checkpoint that is made piece by piece, while records are appended to the journal:
//
//     Replaying   batch after batch of the log is replayed
//     Replayed    the successor is begun on the spare
//     Writing     the successor gets the units, some records of one at a time
//     Copying     the batches that came meanwhile are copied to the successor; after the last one the journal switches
//
// Until the switch the old log is the active one, and nothing but the spare is written.
ghost use Rattle.std.specs.Prelude.{◌≡◌, ◌≤◌, IfErr, IfNone, IfOk, IfSome, None, OnOk, Some, false, length};
ghost use Rattle.ar_log.specs.Codec.{items_of};
ghost use Rattle.ar_journal.specs.Journal.{IsReady};
ghost use Rattle.ar_journal.specs.Switch.{LeavesEither, Switches};
ghost use Rattle.ar_record.specs.Record.{AreEncodable};
ghost use Rattle.ar_compaction.specs.Head.{head_data, head_encoding};
ghost use Rattle.ar_checkpoint.specs.Gradual.{MakesPiece, GoesWith, GoesWithIf, GivesUp, HasFirstBatch};
ghost use Rattle.ar_checkpoint.specs.Gradual.{HasSuccessorHead, HasMakes, IsNewCheckpoint, IsCopying};
ghost use Rattle.ar_checkpoint.specs.Gradual.{IsReplaying, IsWriting, IsReplaced, KeepsLog, KeepsLogUnits, LeavesLogs};
ghost use Rattle.ar_checkpoint.specs.Gradual.{ReplaysBatch, StaysAt, WritesFirst};
ghost use Rattle.ar_checkpoint.specs.LogReplay.{replay_makes};
ghost use Rattle.ar_checkpoint.specs.Successor.{next_head};
ghost use Rattle.ar_checkpoint.specs.Writing.{IsAppendable};
ghost use Rattle.ar_checkpoint.specs.declared.gradual.Stage.TheVariants as stages;

use crate::CheckpointError;
use crate::log_replay::LogReplay;
use crate::reading::replay_batch;
use crate::replacing::encode_next;
use crate::successor::{append, write_disks};
use ar_compaction::{HeadError, Makes, StoreHead, UnitRecords, UnitReplay, decode_head};
use ar_journal::{Journal, first_place};
use ar_log::{Log, LogError, Place, create};
use ar_media::Media;
use std::alloc::Global;

/// A checkpoint of an open journal, as far as it is made.
#[derive(Drop)]
pub struct GradualCheckpoint<M: Media> {
    // The successor's head, once it is begun.
    pub(crate) head: Vec<u8>,
    pub(crate) stage: Stage<M>,
    // After the batches that were replayed or copied.
    pub(crate) place: Place,
}

// What is done next.
#[derive(Drop)]
pub(crate) enum Stage<M: Media> {
    // With the number of records that were replayed.
    Replaying(LogReplay, u64),
    Replayed(LogReplay),
    Writing(Writer<M>),
    Copying(Log<M>),
}

// A successor that gets the units that were replayed.
#[derive(Drop)]
pub(crate) struct Writer<M: Media> {
    pub log: Log<M>,
    // What is left of the unit that is being written.
    pub rest: Option<UnitRecords>,
    // The units after it.
    pub units: Vec<UnitReplay>,
}

/// What a piece of a checkpoint comes to.
#[derive(Drop)]
pub(crate) enum Progress<M: Media> {
    /// There is more to do.
    Going(GradualCheckpoint<M>),
    /// The successor is the active log.
    Done,
}

/// Makes the next piece of a checkpoint of an open journal, or begins one: reads a batch of the log, or appends up to
/// 16 records or a batch to the successor. The journal may have got batches since the piece before. All units are in
/// memory meanwhile. `head` is the head of the log, which the successor has with the generation raised by one, and with
/// the units that were made before, counted from the log.
///
/// Returns what there is more to do, or None where the successor has become the log. An error gives the checkpoint up,
/// and leaves the log as it was, but where the selector can't be written: the journal is closed then.
pub fn make_piece<M: Media + Drop>(
    alloc: Global,
    journal: &mut Journal<M>,
    checkpoint: Option<GradualCheckpoint<M>>,
    head: &StoreHead,
) -> Result<Option<GradualCheckpoint<M>>, CheckpointError>
    requires ready { IsReady M.seen M.may_leave M.is_clean journal.old }
    requires first { HasFirstBatch M.seen M.is_clean journal.old }
    requires follows { GoesWithIf M.seen M.may_leave M.is_clean journal.old checkpoint }
    requires name { length head.now.name.items ≤ 64 }

    // Unless the journal is closed, its records make the same units.
    ensures units { IfOk result (λ next. KeepsLogUnits M.seen M.is_clean journal.old checkpoint next journal.new) }
    ensures units_err { IfErr result (λ _. KeepsLogUnits M.seen M.is_clean journal.old checkpoint None journal.new) }
    // At the end a successor has become the log, and until then nothing but the spare is written.
    ensures replaced { IfOk result (λ next. IfNone next
        (IsReplaced M.seen M.may_leave M.moment M.left_since M.is_clean journal.old journal.new)) }
    ensures kept { IfOk result (λ next. IfSome next
        (λ _. KeepsLog M.seen M.may_leave M.moment M.left_since M.is_clean journal.old journal.new)) }
    ensures any_moment { LeavesLogs M.seen M.may_leave M.moment M.left_since M.is_clean journal.old journal.new }

    ensures follows { IfOk result (λ next. GoesWithIf M.seen M.may_leave M.is_clean journal.new next) }
    ensures first { HasFirstBatch M.seen M.is_clean journal.new }
    ensures ready { IsReady M.seen M.may_leave M.is_clean journal.new }
{
    let checkpoint = match checkpoint {
        Some(checkpoint) => checkpoint,
        None => begin(alloc),
    };
    match advance(alloc, journal, checkpoint, head)? {
        Progress::Going(next) => Ok(Some(next)),
        Progress::Done => Ok(None),
    }
}

// Begins a checkpoint. Nothing is read or written yet.
fn begin<M: Media + Drop>(alloc: Global) -> GradualCheckpoint<M>
    ensures { IsNewCheckpoint M.seen M.may_leave M.is_clean result }
{
    GradualCheckpoint {
        head: Vec::new(alloc),
        stage: Stage::Replaying(LogReplay::new(alloc, Makes::none()), 0),
        place: first_place(),
    }
}

// Makes the next piece.
fn advance<M: Media + Drop>(
    alloc: Global,
    journal: &mut Journal<M>,
    checkpoint: GradualCheckpoint<M>,
    store: &StoreHead,
) -> Result<Progress<M>, CheckpointError>
    requires ready { IsReady M.seen M.may_leave M.is_clean journal.old }
    requires follows { GoesWith M.seen M.may_leave M.is_clean journal.old checkpoint }
    requires name { length store.now.name.items ≤ 64 }
    ensures done { IfOk result (λ progress.
        MakesPiece M.seen M.may_leave M.moment M.left_since M.is_clean journal.old checkpoint progress journal.new) }
    ensures given_up { IfErr result (λ _.
        GivesUp M.seen M.may_leave M.moment M.left_since M.is_clean journal.old checkpoint journal.new) }
    ensures ready { IsReady M.seen M.may_leave M.is_clean journal.new }
{
    if journal.is_closed() {
        return Err(CheckpointError::Log(LogError::Closed));
    }
    let GradualCheckpoint { head, stage, place } = checkpoint;
    match stage {
        Stage::Replaying(replay, count) => {
            replay_piece(alloc, journal, head, replay, count, place)
        }
        Stage::Replayed(replay) => { begin_successor(alloc, journal, head, replay, place, store) }
        Stage::Writing(writer) => write_piece(alloc, journal, head, writer, place),
        Stage::Copying(log) => copy_piece(alloc, journal, head, log, place),
    }
}

// Replays the batch at a place, if there is one.
fn replay_piece<M: Media + Drop>(
    alloc: Global,
    journal: &mut Journal<M>,
    head: Vec<u8>,
    replay: LogReplay,
    count: u64,
    place: Place,
) -> Result<Progress<M>, CheckpointError>
    requires ready { IsReady M.seen M.may_leave M.is_clean journal.old }
    requires is_open { journal.old.active.is_closed ≡ false }
    requires replaying { IsReplaying M.seen M.is_clean journal.old replay place }
    ensures done { IfOk result (λ progress. MakesPiece M.seen M.may_leave M.moment M.left_since M.is_clean journal.old
        (record { head = head; stage = stages.Replaying replay count; place = place }) progress journal.new) }
    ensures given_up { IfErr result (λ _. GivesUp M.seen M.may_leave M.moment M.left_since M.is_clean journal.old
        (record { head = head; stage = stages.Replaying replay count; place = place }) journal.new) }
    ensures ready { IsReady M.seen M.may_leave M.is_clean journal.new }
{
    match journal.read_at_place(alloc, place) {
        Err(error) => Err(CheckpointError::Log(error)),
        Ok(None) => Ok(Progress::Going(GradualCheckpoint {
            head,
            stage: Stage::Replayed(replay),
            place,
        })),
        Ok(Some(read)) => {
            let (replay, count) = replay_read(alloc, replay, count, place, &read.records)?;
            Ok(Progress::Going(GradualCheckpoint {
                head,
                stage: Stage::Replaying(replay, count),
                place: read.next,
            }))
        }
    }
}

// Replays the records of the batch at a place, or begins at the numbers of units made in the head, and returns how many
// were replayed.
fn replay_read(
    alloc: Global,
    replay: LogReplay,
    count: u64,
    place: Place,
    records: &[Vec<u8>],
) -> Result<(LogReplay, u64), CheckpointError>
    ensures { IfOk result (λ now. ReplaysBatch replay place.number records.now now.0) }
{
    let mut replay = replay;
    if place.number == 0 {
        replay.begin_at(makes_in(alloc, records)?);
        return Ok((replay, count));
    }
    let count = replay_batch(alloc, &mut replay, records, count)?;
    Ok((replay, count))
}

// The numbers of units made in the head of a log, which is its first batch.
fn makes_in(alloc: Global, records: &[Vec<u8>]) -> Result<Makes, CheckpointError>
    ensures { IfOk result (λ makes. HasMakes (items_of records.now) makes.bytes) }
{
    let [bytes] = records else {
        return Err(CheckpointError::Log(LogError::NotALog));
    };
    match decode_head(alloc, bytes.as_slice()) {
        Ok(head) => Ok(head.makes),
        Err(HeadError::NoMemory) => Err(CheckpointError::NoMemory),
        Err(_) => Err(CheckpointError::Log(LogError::NotALog)),
    }
}

// Takes the spare, and begins a successor on it: its head, which is encoded now, and the records of added disks.
fn begin_successor<M: Media + Drop>(
    alloc: Global,
    journal: &mut Journal<M>,
    unencoded: Vec<u8>,
    replay: LogReplay,
    place: Place,
    store: &StoreHead,
) -> Result<Progress<M>, CheckpointError>
    requires ready { IsReady M.seen M.may_leave M.is_clean journal.old }
    requires is_open { journal.old.active.is_closed ≡ false }
    requires replaying { IsReplaying M.seen M.is_clean journal.old replay place }
    requires name { length store.now.name.items ≤ 64 }
    ensures done { IfOk result (λ progress. MakesPiece M.seen M.may_leave M.moment M.left_since M.is_clean journal.old
        (record { head = unencoded; stage = stages.Replayed replay; place = place }) progress journal.new) }
    ensures head { IfOk result
        (HasSuccessorHead (head_encoding (next_head (head_data store.now) (replay_makes replay)))) }
    ensures given_up { IfErr result (λ _. GivesUp M.seen M.may_leave M.moment M.left_since M.is_clean journal.old
        (record { head = unencoded; stage = stages.Replayed replay; place = place }) journal.new) }
    ensures ready { IsReady M.seen M.may_leave M.is_clean journal.new }
{
    if place.number == 0 {
        return Err(CheckpointError::Log(LogError::NotALog));
    }
    let next = encode_next(alloc, store, &replay)?;
    let Some(spare) = journal.take_spare() else {
        return Err(CheckpointError::Log(LogError::Closed));
    };
    let LogReplay { units, disks, .. } = replay;
    match write_first(alloc, spare, &next, &disks) {
        Err((error, spare)) => {
            journal.return_spare(spare);
            Err(error)
        }
        Ok(log) => Ok(Progress::Going(GradualCheckpoint {
            head: next,
            stage: Stage::Writing(Writer {
                log,
                rest: None,
                units,
            }),
            place,
        })),
    }
}

// Makes a log of this head and the records of added disks. `Err` returns the medium.
fn write_first<M: Media + Drop>(
    alloc: Global,
    medium: M,
    head: &[u8],
    disks: &[u32],
) -> Result<Log<M>, (CheckpointError, M)>
    ensures written { IfOk result (λ log. WritesFirst M.seen M.may_leave M.is_clean head.now disks.now medium log) }
    ensures clean { IfErr result (λ e. M.is_clean e.1 ≡ M.is_clean medium) }
{
    let mut log = match create(alloc, medium, head) {
        Err((error, medium)) => return Err((CheckpointError::Successor(error), medium)),
        Ok(log) => log,
    };
    match write_disks(alloc, &mut log, disks) {
        Err(error) => Err((error, log.media)),
        Ok(()) => Ok(log),
    }
}

// Appends the next records of a unit to the successor, or goes on to the next unit or, after the last one, to what came
// meanwhile.
fn write_piece<M: Media + Drop>(
    alloc: Global,
    journal: &mut Journal<M>,
    head: Vec<u8>,
    writer: Writer<M>,
    place: Place,
) -> Result<Progress<M>, CheckpointError>
    requires ready { IsReady M.seen M.may_leave M.is_clean journal.old }
    requires is_open { journal.old.active.is_closed ≡ false }
    requires writing { IsWriting M.seen M.may_leave M.is_clean journal.old head.items writer place }
    ensures done { IfOk result (λ progress. MakesPiece M.seen M.may_leave M.moment M.left_since M.is_clean journal.old
        (record { head = head; stage = stages.Writing writer; place = place }) progress journal.new) }
    ensures given_up { IfErr result (λ _. GivesUp M.seen M.may_leave M.moment M.left_since M.is_clean journal.old
        (record { head = head; stage = stages.Writing writer; place = place }) journal.new) }
    ensures ready { IsReady M.seen M.may_leave M.is_clean journal.new }
{
    let Writer { log, rest, units } = writer;
    let stage = match rest {
        None => next_unit(log, units),
        Some(rest) => match write_rest(alloc, log, rest, units) {
            Ok(stage) => stage,
            Err((error, medium)) => {
                journal.return_spare(medium);
                return Err(error);
            }
        },
    };
    Ok(Progress::Going(GradualCheckpoint { head, stage, place }))
}

// Begins the next unit or, after the last one, to copy.
fn next_unit<M: Media + Drop>(log: Log<M>, units: Vec<UnitReplay>) -> Stage<M>
    ensures { StaysAt M.seen M.may_leave M.is_clean (record { log = log; rest = None; units = units }) result }
{
    let mut units = units;
    if units.is_empty() {
        return Stage::Copying(log);
    }
    let unit = units.remove(0);
    Stage::Writing(Writer {
        log,
        rest: Some(unit.into_records()),
        units,
    })
}

// Appends the next records of a unit. `Err` returns the medium.
fn write_rest<M: Media + Drop>(
    alloc: Global,
    log: Log<M>,
    rest: UnitRecords,
    units: Vec<UnitReplay>,
) -> Result<Stage<M>, (CheckpointError, M)>
    requires appendable { IsAppendable M.seen M.may_leave M.is_clean log }
    requires fit { AreEncodable rest }
    ensures written { IfOk result (λ stage. StaysAt M.seen M.may_leave M.is_clean
        (record { log = log; rest = Some rest; units = units }) stage) }
    ensures clean { IfErr result (λ e. M.is_clean e.1 ≡ M.is_clean log.media) }
{
    let mut log = log;
    let mut rest = rest;
    match rest.next_records(alloc) {
        Err(error) => Err((CheckpointError::from(error), log.media)),
        Ok(None) => Ok(Stage::Writing(Writer {
            log,
            rest: None,
            units,
        })),
        Ok(Some(records)) => match append(alloc, &mut log, &records) {
            Err(error) => Err((error, log.media)),
            Ok(()) => Ok(Stage::Writing(Writer {
                log,
                rest: Some(rest),
                units,
            })),
        },
    }
}

// Copies the batch at a place to the successor or, after the last one, makes the successor the active log.
fn copy_piece<M: Media + Drop>(
    alloc: Global,
    journal: &mut Journal<M>,
    head: Vec<u8>,
    log: Log<M>,
    place: Place,
) -> Result<Progress<M>, CheckpointError>
    requires ready { IsReady M.seen M.may_leave M.is_clean journal.old }
    requires is_open { journal.old.active.is_closed ≡ false }
    requires copying { IsCopying M.seen M.may_leave M.is_clean journal.old head.items log place }
    ensures done { IfOk result (λ progress. MakesPiece M.seen M.may_leave M.moment M.left_since M.is_clean journal.old
        (record { head = head; stage = stages.Copying log; place = place }) progress journal.new) }
    ensures given_up { IfErr result (λ _. GivesUp M.seen M.may_leave M.moment M.left_since M.is_clean journal.old
        (record { head = head; stage = stages.Copying log; place = place }) journal.new) }
    ensures ready { IsReady M.seen M.may_leave M.is_clean journal.new }
{
    let mut log = log;
    match journal.read_at_place(alloc, place) {
        Err(error) => {
            journal.return_spare(log.media);
            Err(CheckpointError::Log(error))
        }
        Ok(None) => {
            switch_to(journal, log)?;
            Ok(Progress::Done)
        }
        Ok(Some(read)) => match log.append(alloc, &read.records) {
            Err(error) => {
                journal.return_spare(log.media);
                Err(CheckpointError::Successor(error))
            }
            Ok(()) => Ok(Progress::Going(GradualCheckpoint {
                head,
                stage: Stage::Copying(log),
                place: read.next,
            })),
        },
    }
}

// Makes a successor the active log. Where that fails its medium is the spare, unless the journal is closed.
fn switch_to<M: Media + Drop>(
    journal: &mut Journal<M>,
    successor: Log<M>,
) -> Result<(), CheckpointError>
    requires ready { IsReady M.seen M.may_leave M.is_clean journal.old }
    requires is_open { journal.old.active.is_closed ≡ false }
    requires appendable { IsAppendable M.seen M.may_leave M.is_clean successor }
    ensures switched { OnOk result (Switches journal.old successor journal.new) }
    ensures either { LeavesEither M.seen M.may_leave M.moment M.left_since M.is_clean journal.old successor
        journal.new }
    ensures failed { IfErr result (λ _. journal.new.active.is_closed ≡ false
        → journal.new ≡ record journal.old { spare = Some successor.media }) }
    ensures ready { IsReady M.seen M.may_leave M.is_clean journal.new }
{
    match journal.switch(successor) {
        Ok(()) => Ok(()),
        Err((error, successor)) => {
            if !journal.is_closed() {
                journal.return_spare(successor.media);
            }
            Err(CheckpointError::Switch(error))
        }
    }
}
