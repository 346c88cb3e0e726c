// What a service is to do, and what comes of it.
use crate::announced::OperatorPlace;
use ar_attached::IscsiPort;
use ar_audit::Mismatch;
use ar_core::Refusal;
use ar_disks::Addr;
use ar_doors::{ListenFault, Timeouts};
use ar_sessions::NoMemory;
use ar_status::ArrayName;
use std::hash::RandomState;
use std::os::unix::net::UnixListener;

/// A unit to create.
#[derive(Clone, Copy)]
pub struct NewUnit {
    pub addr: Addr,
    pub sectors: u32,
}

/// A port for HTTP clients.
#[derive(Clone, Copy)]
pub struct HttpPort {
    pub port: u16,
    /// The keys of the maps of header fields, whose names clients choose.
    pub keys: RandomState,
}

/// Where operators connect.
#[derive(Drop)]
pub enum OperatorListener {
    /// The TCP port to listen at, on 127.0.0.1.
    Port(u16),
    /// A Unix socket that listens.
    Socket(UnixListener),
}

/// What a service is to do.
#[derive(Drop)]
pub struct Plan<'a> {
    /// The units to create before listening, in order.
    pub units: &'a [NewUnit],
    /// How many units were made at each address, host by host and LUN by LUN, once those are created.
    pub makes: [u16; 32],
    /// The array's name, for those who watch it.
    pub name: ArrayName,
    /// The TCP port to listen at for hosts, on 127.0.0.1. None: they come over iSCSI alone.
    pub port: Option<u16>,
    /// The number of hosts' sessions. None: any number, until an operator's `stop`.
    pub sessions: Option<u8>,
    /// Where operators connect, if any may.
    pub operator: Option<OperatorListener>,
    /// The same as it is printed.
    pub operator_place: Option<OperatorPlace<'a>>,
    /// The TCP port to listen at for HTTP clients, on 127.0.0.1.
    pub http: Option<HttpPort>,
    /// A name by which HTTP clients may ask for the service, beside those of 127.0.0.1.
    pub http_host: Option<&'a str>,
    /// The TCP port to listen at for initiators over iSCSI, on 127.0.0.1.
    pub iscsi: Option<IscsiPort>,
    /// How long hosts may be silent.
    pub timeouts: Timeouts,
    /// The seconds of silence after which an initiator is pinged, and after a ping ended. None: never.
    pub ping: Option<u32>,
    /// Microseconds for which the sessions of hosts and initiators look for bytes before a read blocks.
    pub poll: u16,
    /// How many spare disks there are at the start.
    pub spares: u8,
    /// Says how much memory there is; None: nothing is warned of.
    pub system: Option<&'a HostRuntime>,
}

/// Why a service failed.
#[derive(Clone, Copy, Debug, PartialEq, Eq)]
pub enum ServiceFault {
    /// The unit of this number in the plan, from 0, can't be created.
    Unit(usize, Refusal),
    /// Listening at a port or a path failed.
    Listen,
    /// Standard output can't be written.
    Write,
    /// An allocation failed, or a thread couldn't be started.
    NoMemory,
    /// A session did not return its seat.
    SeatOut,
    /// A transcript isn't its host's part of the history.
    Mismatch(Mismatch),
    /// The unit of this number in the plan, from 0, is there with another length, in sectors.
    OtherSize(usize, u32),
    /// What was done can't be kept: the store has failed.
    Store,
}

/// What a service that ended by itself reports.
#[derive(Clone, Copy, Debug, PartialEq, Eq)]
pub struct Closing {
    /// The number of commands of each host.
    pub commands: [u64; 4],
    /// Whether the array has failed, and with it its units.
    pub data_lost: bool,
}

impl From<ListenFault> for ServiceFault {
    fn from(_fault: ListenFault) -> ServiceFault {
        ServiceFault::Listen
    }
}

impl From<NoMemory> for ServiceFault {
    fn from(_fault: NoMemory) -> ServiceFault {
        ServiceFault::NoMemory
    }
}
