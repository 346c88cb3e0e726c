// The lines by which a service says that it listens. A script that reads the first one alone has the hosts' port, if
// there is one, and all doors are open by then.
use crate::{Plan, ServiceFault};
use ar_sessions::{NoMemory, Starter};
use std::fmt;
use std::fmt::{Display, Formatter};
use std::sync::atomic::{AtomicBool, Ordering};

/// Where operators connect, as it is printed.
#[derive(Clone, Copy)]
pub enum OperatorPlace<'a> {
    /// A port of 127.0.0.1.
    Port(u16),
    /// The path of a Unix socket.
    Path(&'a str),
}

/// Where a service listens.
#[derive(Clone, Copy)]
pub struct Announced<'a> {
    /// The port for hosts, if they have one.
    pub port: Option<u16>,
    /// The port for initiators, if there is one.
    pub iscsi: Option<u16>,
    /// The port for HTTP clients, if there is one.
    pub http: Option<u16>,
    /// Where operators connect, if any may.
    pub operators: Option<OperatorPlace<'a>>,
}

impl Display for Announced<'_> {
    fn fmt<W: fmt::Write>(&self, f: &mut Formatter<W>) -> fmt::Result {
        f.write_str("listening")?;
        write_port(f, " ", self.port)?;
        write_port(f, "\niSCSI on ", self.iscsi)?;
        write_port(f, "\nHTTP on ", self.http)?;
        match self.operators {
            Some(OperatorPlace::Port(port)) => write_port(f, "\noperators on ", Some(port)),
            Some(OperatorPlace::Path(path)) => write!(f, "\noperators on {path}"),
            None => Ok(()),
        }
    }
}

// Writes a port after these words, if there is one.
fn write_port<W: fmt::Write>(f: &mut Formatter<W>, words: &str, port: Option<u16>) -> fmt::Result {
    match port {
        Some(port) => write!(f, "{words}{port}"),
        None => Ok(()),
    }
}

/// Where a plan's service listens.
pub fn announced_of<'a>(plan: &Plan<'a>) -> Announced<'a> {
    Announced {
        port: plan.port,
        iscsi: plan.iscsi.map(|iscsi| iscsi.port),
        http: plan.http.map(|http| http.port),
        operators: plan.operator_place,
    }
}

/// Says that a service listens, once all its threads are there.
#[derive(Drop)]
pub struct Announcer<'a, R: Print> {
    rt: &'a R,
    announced: Announced<'a>,
    // Set where the service can't begin.
    stop: &'a AtomicBool,
    // It couldn't be said.
    has_failed: AtomicBool,
}

impl<'a, R: Print> Announcer<'a, R> {
    /// Nothing was said yet. `stop` is set where the service can't begin.
    pub fn new(rt: &'a R, announced: Announced<'a>, stop: &'a AtomicBool) -> Announcer<'a, R> {
        Announcer {
            rt,
            announced,
            stop,
            has_failed: AtomicBool::new(false),
        }
    }

    /// What came of a service.
    pub fn judge(&self, served: Result<(), NoMemory>) -> Result<(), ServiceFault> {
        match served {
            Ok(()) if self.has_failed.load(Ordering::SeqCst) => Err(ServiceFault::Write),
            Ok(()) => Ok(()),
            Err(NoMemory) => Err(ServiceFault::NoMemory),
        }
    }

    // Prints that it listens, and returns whether that was printed.
    fn is_printed(&self) -> bool {
        let announced = self.announced;
        println!(self.rt; "{announced}").is_ok()
    }
}

impl<R: Print> Starter for Announcer<'_, R> {
    fn started(&self, are_all: bool) {
        if !are_all {
            self.stop.store(true, Ordering::SeqCst);
        } else if !self.is_printed() {
            self.has_failed.store(true, Ordering::SeqCst);
            self.stop.store(true, Ordering::SeqCst);
        }
    }
}
