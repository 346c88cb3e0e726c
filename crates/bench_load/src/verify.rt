// Hosts that compare what they read with what they wrote, each in a thread of its own.
use crate::failure::Failure;
use crate::stream::connect;
use ar_frames::Linked;
use bench_verify::{Counts, Finding, Plan, Verifier};
use std::alloc::Global;
use std::io::{self, BufReader};
use std::net::{Net, TcpListener, TcpStream};
use std::thread;
use std::thread::Threads;

/// What hosts verify.
#[derive(Clone, Copy)]
pub struct Verification {
    /// The same for each host, but for what is drawn.
    pub plan: Plan,
    /// Whether each host goes on until the array closes its session, instead of a number of requests.
    pub until_closed: bool,
}

type Session = Verifier<Linked<BufReader<TcpStream>>, Linked<TcpStream>>;

// What a host met, and why it ended early.
#[derive(Clone, Copy)]
struct Report {
    host: u8,
    counts: Counts,
    finding: Option<Finding>,
}

/// Has hosts 0 to `hosts - 1` verify at once, and prints a line for each that ended early, and one of all counts. `Err`
/// where a reply was not right, or a session ended early.
pub fn verify<R: Threads + Net<Listener = TcpListener, Stream = TcpStream> + Print + Sync>(
    rt: &R,
    alloc: Global,
    port: u16,
    hosts: u8,
    verification: Verification,
) -> Result<(), Failure> {
    let sessions = sessions_of(rt, alloc, port, hosts, verification.plan)?;
    let Ok(reports) = thread::map_vec(rt, sessions, &|session: Session| run(session)) else {
        return Err(Failure::NoMemory);
    };
    let (mut counts, mut differences, mut ended_early) = (Counts::NONE, 0u32, false);
    for report in reports {
        counts = counts.and(report.counts);
        let Some(finding) = report.finding_of(verification.until_closed) else {
            continue;
        };
        ended_early = true;
        if finding.is_difference() {
            differences = differences.saturating_add(1);
        }
        tell_finding(rt, report.host, report.counts.requests, finding)?;
    }
    tell_counts(rt, counts, differences)?;
    if ended_early {
        Err(Failure::NotVerified)
    } else {
        Ok(())
    }
}

// A session of each host.
fn sessions_of<R: Net<Listener = TcpListener, Stream = TcpStream>>(
    rt: &R,
    alloc: Global,
    port: u16,
    hosts: u8,
    plan: Plan,
) -> Result<Vec<Session>, Failure> {
    let mut sessions = Vec::new(alloc);
    for host in 0..hosts {
        let session = session_of(rt, alloc, port, host, plan)?;
        sessions.push(session).map_err(|_| Failure::NoMemory)?;
    }
    Ok(sessions)
}

fn session_of<R: Net<Listener = TcpListener, Stream = TcpStream>>(
    rt: &R,
    alloc: Global,
    port: u16,
    host: u8,
    plan: Plan,
) -> Result<Session, Failure> {
    let Ok((reader, writer)) = streams(rt, alloc, port) else {
        return Err(Failure::Connect);
    };
    let (reader, writer) = (Linked::new(reader), Linked::new(writer));
    match Verifier::log_in(alloc, host, plan, reader, writer) {
        Ok(session) => Ok(session),
        Err(Finding::Refused) => Err(Failure::Refused(host)),
        Err(Finding::NoMemory) => Err(Failure::NoMemory),
        Err(_) => Err(Failure::Session),
    }
}

// A connection; replies are read through a buffer.
fn streams<R: Net<Listener = TcpListener, Stream = TcpStream>>(
    rt: &R,
    alloc: Global,
    port: u16,
) -> io::Result<(BufReader<TcpStream>, TcpStream)> {
    let stream = connect(rt, port)?;
    let writer = stream.try_clone()?;
    Ok((BufReader::new(alloc, stream)?, writer))
}

// Verifies, and ends the session.
fn run(mut session: Session) -> Report {
    let finding = session.run().err();
    let report = Report {
        host: session.host(),
        counts: session.counts(),
        finding,
    };
    drop(session);
    report
}

impl Report {
    // Why the host ended before it should have. With `until_closed` it should have ended with its session.
    fn finding_of(&self, until_closed: bool) -> Option<Finding> {
        match self.finding {
            Some(Finding::Session(_)) if until_closed => None,
            finding => finding,
        }
    }
}

fn tell_finding<R: Print>(rt: &R, host: u8, request: u64, finding: Finding) -> Result<(), Failure> {
    println!(rt; "host {host} request {request}: {finding}").map_err(|_| Failure::Write)
}

fn tell_counts<R: Print>(rt: &R, counts: Counts, differences: u32) -> Result<(), Failure> {
    println!(rt; "{counts} differences {differences}").map_err(|_| Failure::Write)
}
