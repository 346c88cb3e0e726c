// The hosts' sessions, as HTTP clients are sent them.
use ar_disks::Host;
use ar_sessions::Desk;
use ar_status::HostSession;
use std::alloc::{AllocError, Global};
use std::sync::ledger::Ledger;

/// Lists the hosts that are logged in. It fails only when out of memory.
pub(crate) fn host_sessions<L: Ledger>(
    alloc: Global,
    desk: &Desk<L>,
) -> Result<Vec<HostSession>, AllocError> {
    let mut sessions = Vec::with_capacity(alloc, 4)?;
    for number in 0..4 {
        if let Some(session) = host_session(desk, number) {
            sessions.push(session)?;
        }
    }
    Ok(sessions)
}

fn host_session<L: Ledger>(desk: &Desk<L>, number: u8) -> Option<HostSession> {
    let host = Host::new(number)?;
    let counts = desk.counts(host)?;
    Some(HostSession {
        host: number,
        peer_port: desk.peer(host),
        commands: counts.frames,
        read_bytes: counts.read,
        written_bytes: counts.written,
    })
}
