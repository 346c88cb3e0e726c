// The doors of a service: for hosts, and beside it for operators, initiators and HTTP clients.
use crate::{OperatorListener, Plan, ServiceFault, ServiceRuntime};
use ar_attached::IscsiPort;
use ar_conversation::MOST_OPERATORS;
use ar_doors::{ANY_NUMBER, Door, Protocol, TcpDoor, Timeouts};
use ar_sessions::MOST_AT_ONCE;
use std::alloc::Global;
use std::hash::RandomState;
use std::sync::atomic::AtomicBool;

/// The threads at the door of initiators: four hosts, and others for discovery.
pub const TARGET_THREADS: u32 = 8;

/// The seconds in which an operator's first line has to come, and those for which the operator may be silent later.
const OPERATOR_LINE: u32 = 30;

const OPERATOR_IDLE: u32 = 600;

/// The seconds for which an initiator may be silent, if hosts have no limit. It takes no ping to end one.
const INITIATOR_IDLE: u32 = 600;

/// The seconds that a session for discovery may last. It has no host's seat, and takes a moment.
const DISCOVERY_WHOLE: u32 = 10;

/// The seconds in which the head of an HTTP request has to come, and those that its connection may last.
const HTTP_HEAD: u32 = 2;

const HTTP_WHOLE: u32 = 10;

/// The doors beside the hosts'.
#[derive(Drop)]
pub struct SideDoors<O: Door + Drop> {
    pub operators: Option<O>,
    /// For HTTP clients, with the keys of the maps of header fields, whose names they choose.
    pub watchers: Option<(O, RandomState)>,
    /// For initiators over iSCSI.
    pub initiators: Option<(O, IscsiPort)>,
}

/// The doors of a plan, once its units are created.
pub fn doors_after<'s, R: ServiceRuntime + Sync>(
    made: Result<(), ServiceFault>,
    rt: &'s R,
    alloc: Global,
    stop: &'s AtomicBool,
    plan: Plan<'_>,
) -> Result<(TcpDoor<'s, R>, SideDoors<TcpDoor<'s, R>>), ServiceFault> {
    made?;
    open_doors(rt, alloc, stop, plan)
}

// Opens the doors of a plan.
fn open_doors<'s, R: ServiceRuntime + Sync>(
    rt: &'s R,
    alloc: Global,
    stop: &'s AtomicBool,
    plan: Plan<'_>,
) -> Result<(TcpDoor<'s, R>, SideDoors<TcpDoor<'s, R>>), ServiceFault> {
    let hosts = open_hosts(rt, alloc, stop, &plan)?;
    let initiators = match plan.iscsi {
        Some(iscsi) => Some((open_initiators(rt, alloc, stop, iscsi.port, &plan)?, iscsi)),
        None => None,
    };
    let watchers = match plan.http {
        Some(http) => Some((open_watchers(rt, alloc, http.port, stop)?, http.keys)),
        None => None,
    };
    let Plan { operator, .. } = plan;
    let operators = match operator {
        Some(listener) => Some(open_operators(rt, alloc, listener, stop)?),
        None => None,
    };
    Ok((
        hosts,
        SideDoors {
            operators,
            watchers,
            initiators,
        },
    ))
}

// Opens the hosts' door, at its port or at none. Only an operator's `stop` closes it before its last session.
fn open_hosts<'s, R: ServiceRuntime>(
    rt: &'s R,
    alloc: Global,
    stop: &'s AtomicBool,
    plan: &Plan<'_>,
) -> Result<TcpDoor<'s, R>, ServiceFault> {
    let hosts = match plan.port {
        Some(port) => TcpDoor::listen(rt, alloc, port, ANY_NUMBER)?,
        None => TcpDoor::without_port(rt, alloc, ANY_NUMBER),
    };
    let hosts = hosts.limited(Protocol::Sessions, plan.timeouts, Some(stop));
    let hosts = hosts.polled(plan.poll);
    let hosts = hosts.crowded(MOST_AT_ONCE as usize - 1, plan.sessions);
    hosts.map_err(|_| ServiceFault::NoMemory)
}

// Opens the operators' door.
fn open_operators<'s, R: ServiceRuntime>(
    rt: &'s R,
    alloc: Global,
    listener: OperatorListener,
    stop: &'s AtomicBool,
) -> Result<TcpDoor<'s, R>, ServiceFault> {
    let timeouts = Timeouts {
        login: Some(OPERATOR_LINE),
        idle: Some(OPERATOR_IDLE),
        ..Timeouts::NONE
    };
    let door = match listener {
        OperatorListener::Port(port) => TcpDoor::listen(rt, alloc, port, ANY_NUMBER)?,
        OperatorListener::Socket(socket) => TcpDoor::at_socket(rt, alloc, socket, ANY_NUMBER)?,
    };
    let door = door.limited(Protocol::Lines, timeouts, Some(stop));
    let door = door.crowded(MOST_OPERATORS as usize, None);
    door.map_err(|_| ServiceFault::NoMemory)
}

// Opens the door of HTTP clients.
fn open_watchers<'s, R: ServiceRuntime>(
    rt: &'s R,
    alloc: Global,
    port: u16,
    stop: &'s AtomicBool,
) -> Result<TcpDoor<'s, R>, ServiceFault> {
    let timeouts = Timeouts {
        login: Some(HTTP_HEAD),
        whole: Some(HTTP_WHOLE),
        ..Timeouts::NONE
    };
    let door = TcpDoor::listen(rt, alloc, port, ANY_NUMBER)?;
    Ok(door.limited(Protocol::Http, timeouts, Some(stop)))
}

// Opens the door of initiators. One that is silent is ended, since it keeps its host's seat.
fn open_initiators<'s, R: ServiceRuntime>(
    rt: &'s R,
    alloc: Global,
    stop: &'s AtomicBool,
    port: u16,
    plan: &Plan<'_>,
) -> Result<TcpDoor<'s, R>, ServiceFault> {
    let timeouts = Timeouts {
        login: plan.timeouts.login,
        idle: Some(plan.timeouts.idle.unwrap_or(INITIATOR_IDLE)),
        ping: plan.ping,
        discovery: Some(DISCOVERY_WHOLE),
        whole: None,
    };
    let door = TcpDoor::listen(rt, alloc, port, ANY_NUMBER)?;
    let door = door.limited(Protocol::Sessions, timeouts, Some(stop));
    let door = door.polled(plan.poll);
    // (one thread is free to let the next one in)
    let door = door.crowded(TARGET_THREADS as usize - 1, None);
    door.map_err(|_| ServiceFault::NoMemory)
}
