// Initiators over iSCSI. Each connection is a session with the target of one host, or for discovery. A session with a
// target takes the host's seat, as one over the array's own frames does, and returns it at its end.
ghost use Rattle.std.specs.Prelude.{◌≡◌, None};

use ar_attached::{Attached, Initiators, IscsiPort, Tallies};
use ar_disks::Host;
use ar_doors::Refusals;
use ar_frames::{Login, Port, Progress, Sink, Source};
use ar_iscsi::{IscsiEnd, LoginEnd, LoginStatus, serve_target};
use ar_operated::OperatedArray;
use ar_scsi::Reply;
use ar_served::ServedArray;
use ar_sessions::{Desk, Handler, LockPort};
use ar_target::{
    Attributes, BlockRun, DeviceServer, DiscardPort, FlushOutcome, FlushPort, InitiatorLogin,
    InventoryPort, LoginObserver,
};
use bytes::Bytes;
use log::{Log, info};
use std::alloc::{AllocError, Global};
use std::io::Write;
use std::sync::ledger::Ledger;
use std::sync::{Arc, Mutex, Wait};
use std::thread;
use std::time::{Clock, Duration};

/// How often a login looks for its host's seat, if another session has it, and the milliseconds between two looks.
const LOOKS: u32 = 200;

const LOOK_PAUSE: u64 = 10;

/// What the threads at the initiators' door share.
#[derive(Drop)]
pub struct Targets<'a, R: Wait, A: Drop, L: Ledger, M> {
    array: &'a OperatedArray<'a, R, A, L, M>,
    attributes: Attributes,
    // Address and port, as `127.0.0.1:3260`.
    address: Vec<u8>,
    refusals: Refusals,
}

impl<'a, R: Wait + Clock, A: Drop, L: Ledger, M> Targets<'a, R, A, L, M> {
    /// The targets of the four hosts at a port.
    pub fn new(
        array: &'a OperatedArray<'a, R, A, L, M>,
        iscsi: IscsiPort,
    ) -> Result<Targets<'a, R, A, L, M>, AllocError> {
        let address = address_of(array.alloc, iscsi.port)?;
        Ok(Targets {
            array,
            attributes: Attributes {
                array: iscsi.array,
                host: 0,
                write_back: iscsi.write_back,
                block_sectors: iscsi.block_sectors,
            },
            address,
            refusals: Refusals::new(array.rt),
        })
    }
}

// The address of a port, as it is reported to initiators.
fn address_of(alloc: Global, port: u16) -> Result<Vec<u8>, AllocError> {
    let mut address = Vec::new(alloc);
    write!(address, "127.0.0.1:{port}").map_err(|_| AllocError)?;
    Ok(address)
}

// The port of a session that takes its host's seat.
type SeatPort<'a, R, A, L> = PatientPort<'a, R, L, LockPort<'a, R, A, Desk<L>, L>>;

// A port whose login waits for up to two seconds while another session has the host's seat: an initiator may log in
// again as soon as it has logged out, and its last session is still being closed then. So is one that this login ends.
#[derive(Drop)]
struct PatientPort<'a, R: Wait, L: Ledger, P: Drop> {
    rt: &'a R,
    desk: &'a Mutex<Desk<L>>,
    initiators: &'a Mutex<Initiators>,
    // The number of its connection, and how far its session has come, if that is noted.
    number: u64,
    progress: Option<Arc<Progress>>,
    // Where changes of the inventory are counted, and the host of the latest login.
    tallies: &'a Tallies,
    host: u8,
    port: P,
}

impl<'a, R: Wait + Log, L: Ledger, P: Drop> PatientPort<'a, R, L, P> {
    // Notes that the login was accepted, and logs it.
    fn note_entry(&self) {
        let session = entered(&mut self.initiators.lock(self.rt), self.number);
        if let Some(session) = session {
            info!(self.rt; "iSCSI session {session}");
        }
    }
}

// Notes that the login of a session was accepted, and returns the session, if it is known.
fn entered(initiators: &mut Initiators, number: u64) -> Option<Attached> {
    initiators.enter(number);
    initiators.session(number)
}

impl<'a, R: Wait + Log, L: Ledger, P: Drop> LoginObserver for PatientPort<'a, R, L, P> {
    // (a session for discovery takes no seat, so that it is logged here)
    fn observe(&self, login: InitiatorLogin<'_>) {
        let (peer, progress) = peer_and_handle(&self.progress);
        let session = Attached::new(self.number, login, peer);
        let _added = self.initiators.lock(self.rt).begin(session, progress);
        if login.host.is_none() {
            info!(self.rt; "iSCSI session {session}");
        }
    }
}

// The port of a session's peer, and another handle of how far the session has come.
fn peer_and_handle(progress: &Option<Arc<Progress>>) -> (Option<u16>, Option<Arc<Progress>>) {
    match progress {
        Some(progress) => (progress.peer(), Arc::try_clone(progress).ok()),
        None => (None, None),
    }
}

impl<'a, R: Wait + Clock + Log, L: Ledger, P: Port + Drop> Port for PatientPort<'a, R, L, P> {
    ghost has_login = { λ patient. P.has_login patient.port };

    ghost logins = { λ old host login new. P.logins old.port host login new.port };

    ghost commands = { λ old lun cdb payload reply new. P.commands old.port lun cdb payload reply new.port };

    ghost refuses = { λ old cdb new. P.refuses old.port cdb new.port };

    fn login(&mut self, host: u8) -> Login {
        self.host = host;
        wait_for_seat(self.rt, self.desk, host, &self.progress);
        let login = self.port.login(host);
        if let Login::Taken = login {
            self.note_entry();
        }
        login
    }

    fn command(&mut self, lun: u8, cdb: &[u8; 16], payload: Bytes) -> Reply {
        self.port.command(lun, cdb, payload)
    }

    fn refuse(&mut self, cdb: &[u8; 16]) -> Reply {
        self.port.refuse(cdb)
    }
}

impl<'a, R: Wait + Clock + Log, L: Ledger, P: FlushPort + Drop> FlushPort
    for PatientPort<'a, R, L, P> {
    ghost flushes = { λ old lun outcome new. P.flushes old.port lun outcome new.port };

    fn flush(&mut self, lun: u8) -> FlushOutcome {
        self.port.flush(lun)
    }
}

impl<'a, R: Wait + Clock + Log, L: Ledger, P: DiscardPort + Drop> DiscardPort
    for PatientPort<'a, R, L, P> {
    ghost discards = { λ old lun lba count reply new. P.discards old.port lun lba count reply new.port };

    ghost runs = { λ old lun block most run new. P.runs old.port lun block most run new.port };

    fn discard(&mut self, lun: u8, lba: u64, count: u32) -> Reply {
        self.port.discard(lun, lba, count)
    }

    fn run(&mut self, lun: u8, block: u32, most: u32) -> BlockRun {
        self.port.run(lun, block, most)
    }
}

impl<'a, R: Wait + Clock + Log, L: Ledger, P: Port + Drop> InventoryPort
    for PatientPort<'a, R, L, P> {
    ghost counts = { λ _ _. Unit {0} };

    fn changes(&self) -> u64 {
        self.tallies.inventory_changes(self.host)
    }

    ghost generations = { λ _ _ _. Unit {0} };

    fn generation(&self, lun: u8) -> u16 {
        self.tallies.generation(self.host, lun)
    }
}

// Waits until a host has no session, or for two seconds. A login whose session another has ended waits no longer.
fn wait_for_seat<R: Wait + Clock, L: Ledger>(
    rt: &R,
    desk: &Mutex<Desk<L>>,
    number: u8,
    progress: &Option<Arc<Progress>>,
) {
    let Some(host) = Host::new(number) else {
        return;
    };
    for _ in 0..LOOKS {
        if is_ended(progress) || desk.lock(rt).counts(host).is_none() {
            return;
        }
        thread::sleep(rt, Duration::from_millis(LOOK_PAUSE));
    }
}

// Whether a session is to end.
fn is_ended(progress: &Option<Arc<Progress>>) -> bool {
    match progress {
        Some(progress) => progress.is_ended(),
        None => false,
    }
}

impl<
    'a,
    R: Wait + Clock + Log,
    A: ServedArray<L> + Drop,
    L: Ledger,
    M,
    S: Source + Drop,
    W: Sink + Drop,
> Handler<S, W, IscsiEnd> for Targets<'a, R, A, L, M> {
    ghost ends = { λ _ _ _ _. Unit {0} };

    // Serves a session.
    fn handle(&self, number: u64, mut reader: S, mut writer: W) -> IscsiEnd {
        let mut server = self.server_for(number, progress_of(&reader));
        let end = serve_target(
            self.array.alloc,
            &mut reader,
            &mut writer,
            &mut server,
            &self.address,
        );
        self.close(number, server);
        self.note_end(number, end);
        end
    }
}

impl<'a, R: Wait + Clock + Log, A: ServedArray<L> + Drop, L: Ledger, M> Targets<'a, R, A, L, M> {
    // The server of the session of this number. No host is logged in.
    fn server_for(
        &self,
        number: u64,
        progress: Option<Arc<Progress>>,
    ) -> DeviceServer<SeatPort<'a, R, A, L>>
        ensures { result.port.port ≡ None }
    {
        let (rt, alloc, desk) = (self.array.rt, self.array.alloc, self.array.desk);
        let port = PatientPort {
            rt,
            desk,
            initiators: self.array.initiators,
            number,
            progress,
            tallies: self.array.tallies,
            host: 0,
            port: LockPort::new(rt, alloc, self.array.array, desk),
        };
        DeviceServer::new(alloc, port, self.attributes)
    }

    // Returns the seat of a session that has ended.
    fn close(&self, number: u64, server: DeviceServer<SeatPort<'a, R, A, L>>) {
        let PatientPort { port, .. } = server.into_port();
        // (so that nobody sees it once another has the seat)
        self.array.initiators.lock(self.array.rt).end(number);
        let _receipt = port.finish();
    }
}

impl<'a, R: Wait + Clock + Log, A: Drop, L: Ledger, M> Targets<'a, R, A, L, M> {
    // Counts a refusal, and logs the end of a session.
    fn note_end(&self, number: u64, end: IscsiEnd) {
        if is_refused(end) {
            self.array.tallies.refuse_iscsi();
        }
        if let Some(why) = refusal_of(end) {
            self.refusals.warn(self.array.rt, "an initiator", why);
        }
        info!(self.array.rt; "iSCSI session {number} ended: {end:?}");
    }
}

// How far the session over a stream has come, if the stream notes that.
fn progress_of<S: Source>(reader: &S) -> Option<Arc<Progress>> {
    Arc::try_clone(reader.progress()?).ok()
}

// Whether a login was refused, for whatever reason.
fn is_refused(end: IscsiEnd) -> bool {
    matches!(
        end,
        IscsiEnd::NoBuffer | IscsiEnd::Login(LoginEnd::Refused(_) | LoginEnd::NoMemory)
    )
}

// Why a session didn't begin, if no memory could be allocated for it or its host has one already.
fn refusal_of(end: IscsiEnd) -> Option<&'static str> {
    match end {
        IscsiEnd::NoBuffer | IscsiEnd::Login(LoginEnd::NoMemory) => Some("no memory"),
        IscsiEnd::Login(LoginEnd::Refused(LoginStatus::OutOfResources)) => Some(
            "its host is in use",
        ),
        _ => None,
    }
}
