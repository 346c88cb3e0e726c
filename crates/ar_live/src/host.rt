// Commands of hosts to a live array. Each is one step of the array, and is recorded unless the reply is BUSY or the
// array has failed.
ghost use Rattle.std.specs.Prelude.{◌≡◌, ◌≢◌, [], true, length};
ghost use Rattle.ar_core.specs.Step.{Steps, is_busy};
ghost use Rattle.ar_served.specs.Counts.{CountsCommand, CountsNothing};
ghost use Rattle.ar_live.specs.Live.{before_last, LeavesStorage};
ghost use Rattle.ar_served.specs.Kept.{HistoryAgrees, StaysKept};
ghost use Rattle.ar_served.specs.Serving.{ServesCommand, is_recorded};

use crate::LiveArray;
use crate::history::Asked;
use crate::live::is_lost;
use ar_core::{Array, EventOf, OutcomeOf};
use ar_disks::{Disk, Host};
use ar_scsi::{Reply, Status};
use bytes::Bytes;
use std::alloc::Global;
use std::snapshot::Snapshot;

impl<D: Disk + Drop> LiveArray<D> {
    /// Executes a command of a host to its LUN `lun`: `cdb` is padded with zeros, `payload` is the data-out. Unless the
    /// reply is BUSY or the array has failed, the history has grown by the command with its reply, which is the one
    /// that the unit's own entries give. BUSY is for a lack of memory for the reply's own data.
    pub fn host(&mut self, host: Host, lun: u8, cdb: [u8; 16], payload: Bytes) -> Reply
        ensures serves { ServesCommand self.old.array self.old.history host lun cdb payload result self.new.array
            self.new.history }
        ensures steps { Steps self.old.array (EventOf.Cmd host lun cdb payload) (OutcomeOf.Cmd result) self.new.array }
        ensures kept { StaysKept self.old self.new }
        ensures counts { CountsCommand self.old host.number cdb (length payload) result self.new }
        ensures room { self.new.room ≡ self.old.room }
        ensures busy { is_busy result.status ≡ true → LeavesStorage self.old.array self.new.array }
    {
        let sent = payload.len() as u64;
        let reply = self.execute(host, lun, cdb, payload);
        self.count_command(host, cdb, sent, &reply);
        reply
    }

    /// Executes a command as `host` does, and counts nothing.
    pub fn execute(&mut self, host: Host, lun: u8, cdb: [u8; 16], payload: Bytes) -> Reply
        ensures serves { ServesCommand self.old.array self.old.history host lun cdb payload result self.new.array
            self.new.history }
        ensures steps { Steps self.old.array (EventOf.Cmd host lun cdb payload) (OutcomeOf.Cmd result) self.new.array }
        ensures kept { StaysKept self.old self.new }
        // A reply with bytes has changed no unit.
        ensures bytes { result.payload ≢ [] → HistoryAgrees self.new.array self.old.history }
        ensures room { self.new.room ≡ self.old.room }
        ensures uncounted { CountsNothing self.old self.new }
    {
        let asked = Asked {
            host,
            lun,
            cdb,
            payload: Snapshot::of(&payload),
        };
        let reply = command(&mut self.array, self.alloc, host, lun, cdb, payload);
        let recorded = is_recorded(&self.array, &reply);
        self.history.record(&asked, &reply, recorded);
        reply
    }

    /// Returns whether a command after which the array is as it is now, with this reply, is recorded.
    pub fn has_recorded(&self, reply: &Reply) -> bool
        ensures { result ≡ is_recorded self.now.array reply.now }
    {
        is_recorded(&self.array, reply)
    }

    /// Takes the last entry back, where the array is what the entries before it make it.
    pub fn withdraw(&mut self)
        requires { HistoryAgrees self.old.array (before_last self.old.history) }
        ensures { self.new ≡ record self.old { history = before_last self.old.history } }
    {
        self.history.pop();
    }
}

// Whether a command is recorded, by its reply and the array after it.
fn is_recorded<D: Disk>(array: &Array<D>, reply: &Reply) -> bool
    ensures { result ≡ is_recorded array.now reply.now }
{
    !is_lost(array) && !matches!(reply.status, Status::Busy)
}

// Executes a command on the array.
fn command<D: Disk + Drop>(
    array: &mut Array<D>,
    alloc: Global,
    host: Host,
    lun: u8,
    cdb: [u8; 16],
    payload: Bytes,
) -> Reply
    ensures { Steps array.old (EventOf.Cmd host lun cdb payload) (OutcomeOf.Cmd result) array.new }
{
    let event = EventOf::Cmd {
        host,
        lun,
        cdb,
        payload,
    };
    match array.step(alloc, event) {
        OutcomeOf::Cmd(reply) => reply,
        _ => unreachable!(),
    }
}
