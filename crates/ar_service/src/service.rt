// A whole service: units, doors, sessions, and the audit at the end.
ghost use Rattle.std.specs.Prelude.{◌≡◌, [], ◌∷◌, map, OnOk};
ghost use Rattle.ar_plan.specs.Units.{AreProvided};
ghost use Rattle.ar_served.specs.Seat.{SeatState};

use crate::audit::audit;
use crate::doors::run_operated;
use ar_attached::{Initiators, Tallies};
use ar_control::PendingStops;
use ar_controlled::ControlledArray;
use ar_core::Array;
use ar_disks::Disk;
use ar_doors::{TcpReader, TcpWriter};
use ar_fuses::Fuse;
use ar_history::Kept;
use ar_live::CountedArray;
use ar_operated::{OperatedArray, Spares};
use ar_operator::{DiskMaker, WantedDisk};
use ar_plan::{
    Announcer, Closing, NewUnit, Plan, ServiceFault, ServiceRuntime, TARGET_THREADS, announced_of,
    closing_of, closing_with, commit, create_missing, create_units, doors_after, has_lost_data,
    refused,
};
use ar_served::{OperableArray, Seat};
use ar_sessions::Desk;
use ar_shown::health_of;
use ar_status::{Activity, EventLog};
use std::alloc::Global;
use std::sync::Mutex;
use std::sync::atomic::AtomicBool;
use std::sync::ledger::{Blank, Ledger};
use std::time::Instant;

/// Operators whose `stop` was accepted.
pub type TcpStops<'a, R> = PendingStops<TcpReader<'a, R>, TcpWriter<'a, R>>;

/// What a service begins with beside its array.
#[derive(Drop)]
pub struct Begun<L: Ledger> {
    /// Whether its units were created, and are kept where there is a store.
    pub made: Result<(), ServiceFault>,
    /// Those of hosts 0 to 3, in order.
    pub seats: [Seat<L>; 4],
    pub log: EventLog,
}

/// Serves a new array by a plan: creates its units, listens, prints `listening PORT` and a line for each other door,
/// and serves hosts, operators, initiators and HTTP clients. If it `audits`, the history and the hosts' transcripts are
/// stored, and compared at the end. Else contracts alone see the history, so that the array may be served for ever.
/// `disks` are the fuses of its disks, by number, and what makes new ones; `stop` isn't set yet. Returns the operators
/// that wait for the end, and what is reported, or what failed.
pub fn serve<
    's,
    D: Disk + Drop + Send,
    L: Ledger + Send + Sync,
    M: DiskMaker<D> + Copy + Send + Sync,
    R: ServiceRuntime + Sync,
>(
    rt: &'s R,
    alloc: Global,
    blank: Blank,
    array: Array<D>,
    disks: (&[Fuse; 12], M),
    stop: &'s AtomicBool,
    plan: Plan<'_>,
    audits: bool,
) -> (TcpStops<'s, R>, Result<Closing, ServiceFault>)
    requires name { blank.name ≡ L.name }
    requires parts { blank.parts ≡ L.parts }
    requires four { blank.parts ≡ 4 }
    requires no_unit { array.store.book.units ≡ [] }
{
    let log = EventLog::new(health_of(array.health()), array.disks());
    if audits {
        let (mut kept, seats) = Kept::<D, L>::start(alloc, blank, array);
        let made = create_units(&mut kept, plan.units).map_err(refused);
        let begun = Begun { made, seats, log };
        let (stops, served, kept, desk) = serve_array(rt, alloc, kept, begun, disks, stop, plan);
        let report = audit(served, &kept, desk);
        let data_lost = has_lost_data(kept.array());
        drop(kept);
        (stops, report.map(|report| closing_with(report, data_lost)))
    } else {
        let (mut counted, seats) = CountedArray::<D, L>::start(alloc, blank, array);
        let made = create_units(&mut counted, plan.units).map_err(refused);
        let begun = Begun { made, seats, log };
        let (stops, served, counted, desk) = serve_array(
            rt, alloc, counted, begun, disks, stop, plan,
        );
        drop(desk);
        let closing = closing_of(counted.array(), &counted.counts());
        drop(counted);
        (stops, served.map(|()| closing))
    }
}

/// Begins to serve an array that may have units, as one has that was taken up from a store: those of `units` that
/// aren't there are created. Returns whether they are created, and last as far as the array has a store, and the list
/// of its events.
pub fn begin_lasting<A: OperableArray<L>, L: Ledger>(
    array: &mut A,
    units: &[NewUnit],
) -> (Result<(), ServiceFault>, EventLog)
    ensures met { OnOk result.0 (AreProvided units.now (A.state array.old) (A.state array.new)) }
    ensures lasts { OnOk result.0 (A.lasts array.new) }
{
    let log = EventLog::new(health_of(array.array().health()), array.array().disks());
    (create_missing(array, units), log)
}

/// Ends the service of an array that may have a store: what was done is committed, unless the start was refused.
/// Returns whether it lasts, and what is reported.
pub fn end_lasting<A: OperableArray<L> + Drop, L: Ledger>(
    array: A,
    is_made: bool,
) -> (Result<(), ServiceFault>, Closing) {
    let mut array = array;
    let ended = if is_made {
        commit::<A, L>(&mut array)
    } else {
        Ok(())
    };
    let closing = closing_of(array.array(), &array.counts());
    drop(array);
    (ended, closing)
}

/// Serves an array by a plan behind a lock, once its units are created: listens, prints `listening PORT` and a line for
/// each other door, and serves hosts, operators, initiators and HTTP clients. Returns the operators that wait for the
/// end, what came of the service, the array, and the desk with the hosts' seats.
pub fn serve_array<
    's,
    A: ControlledArray<L, M> + Drop + Send,
    L: Ledger + Send + Sync,
    M: Copy + Send + Sync,
    R: ServiceRuntime + Sync,
>(
    rt: &'s R,
    alloc: Global,
    array: A,
    begun: Begun<L>,
    disks: (&[Fuse; 12], M),
    stop: &'s AtomicBool,
    plan: Plan<'_>,
) -> (TcpStops<'s, R>, Result<(), ServiceFault>, A, Desk<L>)
    requires hosts { map (λ (s : SeatState). s.host.number) begun.seats ≡ 0 ∷ 1 ∷ 2 ∷ 3 ∷ [] }
{
    let Begun { made, seats, log } = begun;
    let (made, spares) = with_spares(alloc, made, array.disk_shape(), plan.spares);
    let (array, desk) = (Mutex::new(array), Mutex::new(Desk::new(seats)));
    let (made, initiators) = with_initiators(alloc, made);
    let (log, initiators) = (Mutex::new(log), Mutex::new(initiators));
    let spares = Mutex::new(spares);
    let tallies = Tallies::new(&plan.makes);
    let activity = Mutex::new(Activity::new());
    let ended = AtomicBool::new(false);
    let operated = OperatedArray {
        rt,
        alloc,
        array: &array,
        desk: &desk,
        initiators: &initiators,
        spares: &spares,
        fuses: disks.0,
        disks: disks.1,
        log: &log,
        tallies: &tallies,
        activity: &activity,
        name: plan.name,
        number: plan.iscsi.map(|iscsi| iscsi.array),
        http_host: plan.http_host,
        began: Instant::now(rt).ok(),
        system: plan.system,
        stop,
        ended: &ended,
    };
    let announcer = Announcer::new(rt, announced_of(&plan), stop);
    let (stops, served) = match doors_after(made, rt, alloc, stop, plan) {
        Ok((hosts, doors)) => {
            let (stops, served) = run_operated(&operated, hosts, doors, &announcer);
            (stops, announcer.judge(served))
        }
        Err(fault) => (PendingStops::none(alloc), Err(fault)),
    };
    (stops, served, array.into_inner(), desk.into_inner())
}

// The list of iSCSI sessions, for which a service needs memory, too.
fn with_initiators(
    alloc: Global,
    made: Result<(), ServiceFault>,
) -> (Result<(), ServiceFault>, Initiators) {
    match Initiators::new(alloc, TARGET_THREADS as usize) {
        Ok(initiators) => (made, initiators),
        Err(_) => (
            made.and(Err(ServiceFault::NoMemory)),
            Initiators::none(alloc),
        ),
    }
}

// The spare disks, for which a service needs memory, too.
fn with_spares(
    alloc: Global,
    made: Result<(), ServiceFault>,
    wanted: WantedDisk,
    count: u8,
) -> (Result<(), ServiceFault>, Spares) {
    match Spares::new(alloc, wanted, count) {
        Ok(spares) => (made, spares),
        Err(_) => (made.and(Err(ServiceFault::NoMemory)), Spares::none(alloc)),
    }
}
