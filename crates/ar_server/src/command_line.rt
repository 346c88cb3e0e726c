// From the options of the command line to what the libraries take.
use crate::makes::{makes_of, numbers_of};
use ar_answers::Setup;
use ar_attached::IscsiPort;
use ar_command_line::{ArrayOptions, OperatorDoor, ServeOptions, UnitOption};
use ar_doors::Timeouts;
use ar_plan::{HttpPort, NewUnit, OperatorListener, OperatorPlace, Plan};
use ar_status::ArrayName;
use std::alloc::{AllocError, Global};
use std::hash::RandomState;

/// Random numbers of a service.
#[derive(Clone, Copy)]
pub struct RandomNumbers {
    /// The keys of the maps of HTTP header fields; `None` if nothing is served over HTTP.
    pub keys: Option<RandomState>,
    /// Distinguishes the array from others in the names of its units over iSCSI.
    pub array: u32,
}

/// The array to serve, and how.
#[derive(Drop)]
pub struct Service {
    pub options: ServeOptions,
    /// The units of the options.
    pub units: Vec<NewUnit>,
}

impl Service {
    /// The service that these options ask for.
    pub fn new(alloc: Global, options: ServeOptions) -> Result<Service, AllocError> {
        let units = new_units(alloc, options.units.as_slice())?;
        Ok(Service { options, units })
    }

    /// The configuration of a new array.
    pub fn setup(&self) -> Setup {
        setup_of(self.options.array)
    }

    /// The plan of the service, with these random numbers and this door for operators. `setup` is that of the array
    /// that is served; `system` says how much memory there is, where that is to be warned of.
    pub fn plan<'a>(
        &'a self,
        setup: Setup,
        random: RandomNumbers,
        operator: Option<OperatorListener>,
        system: Option<&'a HostRuntime>,
    ) -> Plan<'a> {
        Plan {
            units: self.units.as_slice(),
            makes: numbers_of(makes_of(self.units.as_slice())),
            name: ArrayName::of(self.options.name.as_bytes()),
            port: self.options.port,
            sessions: self.options.sessions,
            operator,
            operator_place: place_of(&self.options.operator),
            http: http_port(self.options.http, random.keys),
            http_host: name_of(&self.options.http_host),
            iscsi: iscsi_port(self.options.iscsi, setup, random.array),
            timeouts: Timeouts {
                login: self.options.login_timeout,
                idle: self.options.idle_timeout,
                ..Timeouts::NONE
            },
            ping: self.options.iscsi_ping,
            poll: self.options.poll,
            spares: self.options.spares,
            system,
        }
    }
}

/// The configuration of the array that these options ask for.
pub fn setup_of(array: ArrayOptions) -> Setup {
    Setup {
        geometry: array.geometry,
        disks: array.disks,
        extents: array.extents,
        cache: array.cache,
    }
}

fn new_units(alloc: Global, options: &[UnitOption]) -> Result<Vec<NewUnit>, AllocError> {
    let mut units = Vec::new(alloc);
    for option in options {
        units.push(NewUnit {
            addr: option.addr,
            sectors: option.sectors,
        })?;
    }
    Ok(units)
}

// Where operators connect, as it is printed.
fn place_of(door: &Option<OperatorDoor>) -> Option<OperatorPlace<'_>> {
    match door {
        Some(OperatorDoor::Port(port)) => Some(OperatorPlace::Port(*port)),
        Some(OperatorDoor::Path(path)) => Some(OperatorPlace::Path(path.as_str())),
        None => None,
    }
}

fn name_of(name: &Option<String>) -> Option<&str> {
    match name {
        Some(name) => Some(name.as_str()),
        None => None,
    }
}

// The port for HTTP clients, if there is one, and keys for it.
fn http_port(port: Option<u16>, keys: Option<RandomState>) -> Option<HttpPort> {
    match (port, keys) {
        (Some(port), Some(keys)) => Some(HttpPort { port, keys }),
        _ => None,
    }
}

// The port for initiators, if there is one, and what is reported to them of the array.
fn iscsi_port(port: Option<u16>, setup: Setup, array: u32) -> Option<IscsiPort> {
    Some(IscsiPort {
        port: port?,
        array,
        write_back: setup.cache > 0,
        block_sectors: setup.geometry.sectors() as u16,
    })
}
