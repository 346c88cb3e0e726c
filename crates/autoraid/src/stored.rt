// Joins a store with the service: its array is taken up and served.
ghost use Rattle.std.specs.Prelude.{◌≡◌};
ghost use Rattle.ar_recovery.specs.Stored.{AreRecords};

use crate::failure::Failure;
use ar_checkpoint::Store;
use ar_command_line::{StoreOptions, SyncMode};
use ar_compaction::StoreHead;
use ar_copies::Losses;
use ar_disks::Disk;
use ar_durable::{CommitPolicy, DurableArray};
use ar_fuses::{Fuse, FusedDisk};
use ar_live::LiveArray;
use ar_media::Media;
use ar_operator::{DiskMaker, FusedMaker};
use ar_plan::{Closing, OperatorListener, Plan, ServiceFault, ServiceRuntime};
use ar_server::{
    OperatorsEntry, RandomNumbers, Service, conclude, makes_with, numbers_of, remove_file,
};
use ar_service::{Begun, TcpStops, begin_lasting, end_lasting, serve_array};
use ar_status::ArrayName;
use ar_stored::{StoreFile, TakenUp, compact, folders_of, setup_in, take_up};
use std::alloc::Global;
use std::marker::Brand;
use std::sync::atomic::AtomicBool;
use std::sync::ledger::{Blank, Ledger};
use std::time::Duration;

/// A log that is shorter than this, in bytes, isn't replaced while it is served.
const LEAST_LOG: usize = 64 << 20;

/// Takes up the array of a store, and serves it. `files` is the runtime by which the store's files are opened, and that
/// makes the file of an operators' socket.
pub fn serve<R: ServiceRuntime + Sync>(
    rt: &R,
    files: &HostRuntime,
    alloc: Global,
    service: &Service,
    options: &StoreOptions,
    random: RandomNumbers,
) -> Result<(), Failure> {
    let fuses = Fuse::twelve();
    let losses = Losses::new();
    let stop = AtomicBool::new(false);
    let (stops, served) = serve_by(
        rt,
        files,
        (service, options, random),
        &fuses,
        &losses,
        &stop,
    )?;
    conclude(rt, alloc, service, stops, served).map_err(Failure::Serve)
}

// The same, with what lasts as long as the service.
fn serve_by<'s, R: ServiceRuntime + Sync>(
    rt: &'s R,
    files: &HostRuntime,
    asked: (&'s Service, &'s StoreOptions, RandomNumbers),
    fuses: &'s [Fuse; 12],
    losses: &'s Losses,
    stop: &'s AtomicBool,
) -> Result<(TcpStops<'s, R>, Result<Closing, ServiceFault>), Failure> {
    let alloc = files.alloc();
    let (service, options, random) = asked;
    let cache = service.options.array.cache;
    let TakenUp {
        head,
        live,
        store,
        makes,
        ..
    } = match take_up(rt, files, alloc, options, cache, fuses, losses) {
        Ok(taken) => taken,
        Err(fault) => return Err(Failure::Store(fault)),
    };
    let makes = makes_with(makes, live.array(), service.units.as_slice());
    let OperatorsEntry { listener, file } = OperatorsEntry::open(
        files,
        alloc,
        &service.options.operator,
    ).map_err(Failure::Serve)?;
    let mut plan = plan_of(service, &head, options, random, listener);
    plan.makes = numbers_of(makes);
    let (stops, served) = serve_taken_up::<FusedDisk<'s>, Brand, FusedMaker<'s>, R, StoreFile<'s>>(
        rt,
        alloc,
        Blank::new(4),
        (live, head, store),
        policy_of(options),
        (fuses, FusedMaker::new(fuses)),
        stop,
        plan,
    );
    remove_file(files, file);
    if served.is_ok() {
        compact(rt, files, alloc, folders_of(options));
    }
    Ok((stops, served))
}

// Serves an array that was taken up, with its store. (Three calls, since the check of one that takes the array by all
// of its traits meets the limit of steps. The parameters stand as those of `serve_array`, by whose places threads know
// them.)
fn serve_taken_up<
    's,
    D: Disk + Drop + Send,
    L: Ledger + Send + Sync,
    C: DiskMaker<D> + Copy + Send + Sync,
    R: ServiceRuntime + Sync,
    M: Media + Drop + Send,
>(
    rt: &'s R,
    alloc: Global,
    blank: Blank,
    taken_up: (LiveArray<D>, StoreHead, Store<M>),
    policy: CommitPolicy,
    disks: (&[Fuse; 12], C),
    stop: &'s AtomicBool,
    plan: Plan<'_>,
) -> (TcpStops<'s, R>, Result<Closing, ServiceFault>)
    requires name { blank.name ≡ L.name }
    requires parts { blank.parts ≡ L.parts }
    requires four { blank.parts ≡ 4 }
    requires records { AreRecords M.seen M.is_clean taken_up.2 taken_up.0.history }
{
    let (live, head, store) = taken_up;
    let (mut durable, seats) = DurableArray::<'s, D, L, M, R>::resume(
        rt,
        alloc,
        blank,
        live,
        Some(head),
        store,
        policy,
    );
    let (made, log) = begin_lasting::<DurableArray<'s, D, L, M, R>, L>(&mut durable, plan.units);
    let is_made = made.is_ok();
    let begun = Begun { made, seats, log };
    let (stops, served, durable, desk) = serve_array::<DurableArray<'s, D, L, M, R>, L, C, R>(
        rt, alloc, durable, begun, disks, stop, plan,
    );
    drop(desk);
    let (ended, closing) = end_lasting::<DurableArray<'s, D, L, M, R>, L>(durable, is_made);
    (stops, ended.and(served).map(|()| closing))
}

// When records are committed.
fn policy_of(options: &StoreOptions) -> CommitPolicy {
    CommitPolicy {
        always: options.sync == SyncMode::Always,
        every: Duration::from_secs(u64::from(options.commit_every)),
        least_log: LEAST_LOG,
    }
}

// The plan of the service. Its units' names over iSCSI stay, since they have the store's identity; where each WRITE
// waits for its commit there is no write cache.
fn plan_of<'s>(
    service: &'s Service,
    head: &StoreHead,
    options: &StoreOptions,
    random: RandomNumbers,
    operator: Option<OperatorListener>,
) -> Plan<'s> {
    let [a, b, c, d, ..] = head.identity;
    let random = RandomNumbers {
        array: u32::from_be_bytes([a, b, c, d]),
        ..random
    };
    let setup = setup_in(head, service.options.array.cache);
    let mut plan = service.plan(setup, random, operator, None);
    plan.name = ArrayName::of(&head.name);
    if let Some(iscsi) = &mut plan.iscsi {
        iscsi.write_back = options.sync == SyncMode::Flush;
    }
    plan
}
