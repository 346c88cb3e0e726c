// Hosts that ask at once.
use crate::failure::Failure;
use crate::figures::{Figures, Rates};
use crate::host::{Asker, Ports};
use crate::plan::Plan;
use crate::request::Shape;
use std::alloc::Global;
use std::net::{Net, TcpListener, TcpStream};
use std::thread;
use std::thread::Threads;
use std::time::Clock;

/// A number of hosts, each of which sends the same request again and again.
#[derive(Clone, Copy)]
pub struct Trial {
    pub ports: Ports,
    pub shape: Shape,
    pub hosts: u8,
    /// For how many seconds the array is asked, and for how many more the bare echo.
    pub seconds: u32,
}

/// Makes all hosts ready, and then has them ask at once, each in a thread of its own.
pub fn measure<R: Threads + Clock + Net<Listener = TcpListener, Stream = TcpStream> + Sync>(
    rt: &R,
    alloc: Global,
    trial: Trial,
) -> Result<Rates, Failure> {
    let askers = askers_of(rt, alloc, trial)?;
    let plan = Plan::new(rt, trial.seconds)?;
    let Ok(done) = thread::map_vec(rt, askers, &|asker: Asker| asker.run(rt, plan)) else {
        return Err(Failure::NoMemory);
    };
    let mut figures = Figures::NONE;
    for host in done {
        figures = figures.and(host?);
    }
    Ok(figures.over(trial.seconds))
}

// The hosts, each logged in.
fn askers_of<R: Net<Listener = TcpListener, Stream = TcpStream>>(
    rt: &R,
    alloc: Global,
    trial: Trial,
) -> Result<Vec<Asker>, Failure> {
    let mut askers = Vec::new(alloc);
    for host in 0..trial.hosts {
        let asker = Asker::open(rt, alloc, trial.ports, host, trial.shape)?;
        askers.push(asker).map_err(|_| Failure::NoMemory)?;
    }
    Ok(askers)
}
