// Refusals at a session's port: a command whose data can't be allocated gets BUSY, and the array counts that reply with
// those that it gives itself. Nothing is allocated.
ghost use Rattle.std.specs.Prelude.{◌≡◌};
ghost use Rattle.ar_served.specs.Served.{after_refusal};
ghost use Rattle.ar_scsi.specs.Reply.{busy};
ghost use Rattle.ar_sessions.specs.Refusing.{CountedAtOneMoment};

use crate::SeatDesk;
use crate::port::lock_soon;
use ar_disks::Host;
use ar_scsi::Reply;
use ar_served::ServedArray;
use std::sync::ledger::Ledger;
use std::sync::{Mutex, Wait};

/// Answers BUSY to a command of a host that isn't executed. The array counts it, and then the desk.
pub(crate) fn refuse_counted<R: Wait, A: ServedArray<L> + Drop, K: SeatDesk<L> + Drop, L: Ledger>(
    rt: &R,
    array: &Mutex<A>,
    desk: &Mutex<K>,
    host: Host,
    cdb: &[u8; 16],
) -> Reply
    ensures counted { CountedAtOneMoment host.number cdb.now }
    ensures busy { result ≡ busy }
{
    refuse_locked(rt, array, host, cdb);
    let reply = Reply::busy();
    desk.lock(rt).count_command(host, 0, &reply, None);
    reply
}

// Counts a refusal under the lock.
fn refuse_locked<R: Wait, A: ServedArray<L> + Drop, L: Ledger>(
    rt: &R,
    array: &Mutex<A>,
    host: Host,
    cdb: &[u8; 16],
)
    ensures { CountedAtOneMoment host.number cdb.now }
{
    refuse_with::<A, L>(&mut lock_soon(rt, array), host, cdb);
}

// Counts a refusal.
fn refuse_with<A: ServedArray<L>, L: Ledger>(array: &mut A, host: Host, cdb: &[u8; 16])
    ensures { A.state array.new ≡ after_refusal (A.state array.old) host.number cdb.now }
{
    array.count_refusal(host, cdb);
}
