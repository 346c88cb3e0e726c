// A port that is no array.
ghost use Rattle.std.specs.Prelude.{◌≡◌, ◌≤◌, false, length};
ghost use Rattle.ar_frames.specs.Frame.{IsReply};

use ar_frames::{Login, Port};
use ar_scsi::{Reply, Sense, Status, capacity_data, inquiry_data};
use ar_target::{
    BlockRun, DiscardPort, FlushOutcome, FlushPort, InitiatorLogin, InventoryPort, LoginObserver,
    ResetOutcome, ResetPort,
};
use bytes::Bytes;
use std::alloc::Global;
use std::cell::Cell;

// At LUN 0 is a unit of 1,000 blocks. A READ of it returns 1,100 bytes of 5Ah, and a WRITE is GOOD if it comes with
// 1,024 bytes; at others no unit is. Host 2 is in use.
#[derive(Drop)]
pub struct Fake {
    alloc: Global,
    pub taken: bool,
    // How many commands were given, and how many bytes of data with them.
    pub given: usize,
    pub bytes: usize,
    // How many replies were BUSY, those to commands that weren't given, too.
    pub busy: Cell<u64>,
    // How many logins were observed, and the last of them.
    pub logins: Cell<u64>,
    pub login: Cell<Option<Observed>>,
}

/// A login that was observed.
#[derive(Clone, Copy, Debug, PartialEq, Eq)]
pub struct Observed {
    /// The first bytes of the initiator's name, and their number.
    pub name: [u8; NAME_ROOM],
    pub len: usize,
    pub isid_high: u32,
    pub isid_low: u16,
    pub host: Option<u8>,
    /// Whether the port had been given a login.
    pub was_taken: bool,
}

const NAME_ROOM: usize = 24;

impl Observed {
    pub fn of(login: InitiatorLogin<'_>, was_taken: bool) -> Observed {
        let InitiatorLogin {
            initiator,
            isid_high,
            isid_low,
            host,
        } = login;
        let mut name = [0; NAME_ROOM];
        for (place, byte) in name.iter_mut().zip(initiator) {
            *place = *byte;
        }
        Observed {
            name,
            len: initiator.len(),
            isid_high,
            isid_low,
            host,
            was_taken,
        }
    }
}

impl Fake {
    pub fn new(alloc: Global) -> Fake
        ensures { result.taken ≡ false }
    {
        Fake {
            alloc,
            taken: false,
            given: 0,
            bytes: 0,
            busy: Cell::new(0),
            logins: Cell::new(0),
            login: Cell::new(None),
        }
    }
}

// GOOD with these bytes.
fn good(alloc: Global, bytes: &[u8]) -> Reply
    requires { length bytes.now ≤ 1100 }
    ensures { IsReply result }
{
    match Bytes::copy_from_slice(alloc, bytes) {
        Ok(payload) => Reply::good(payload),
        Err(_) => Reply::busy(),
    }
}

impl Port for Fake {
    ghost has_login = { λ port. port.taken };

    ghost logins = { λ old host answer new. Unit {0} };

    ghost commands = { λ old lun cdb payload reply new. Unit {0} };

    ghost refuses = { λ old cdb new. Unit {0} };

    fn login(&mut self, host: u8) -> Login {
        if host > 3 {
            return Login::BadHost;
        }
        if host == 2 {
            return Login::InUse;
        }
        self.taken = true;
        Login::Taken
    }

    fn command(&mut self, lun: u8, cdb: &[u8; 16], payload: Bytes) -> Reply {
        self.given = self.given.saturating_add(1);
        self.bytes = self.bytes.saturating_add(payload.len());
        let reply = reply_at(self.alloc, lun, cdb[0], payload.len());
        if matches!(reply.status, Status::Busy) {
            count(&self.busy);
        }
        reply
    }

    fn refuse(&mut self, _cdb: &[u8; 16]) -> Reply {
        count(&self.busy);
        Reply::busy()
    }
}

// Counts one more.
fn count(number: &Cell<u64>) {
    number.set(number.get().saturating_add(1));
}

// The reply to a command with `len` bytes of data.
fn reply_at(alloc: Global, lun: u8, code: u8, len: usize) -> Reply
    ensures { IsReply result }
{
    match (lun, code) {
        (0, 0x12) => good(alloc, &inquiry_data(true)),
        (0, 0x25) => good(alloc, &capacity_data(1000)),
        (0, 0x28) => good(alloc, &[0x5A; 1100]),
        (0, 0x2A) if len == 1024 => Reply::good(Bytes::new()),
        _ => Reply::check(Sense::LOGICAL_UNIT_NOT_SUPPORTED),
    }
}

impl LoginObserver for Fake {
    fn observe(&self, login: InitiatorLogin<'_>) {
        count(&self.logins);
        self.login.set(Some(Observed::of(login, self.taken)));
    }
}

impl InventoryPort for Fake {
    ghost counts = { λ port count. Unit {0} };

    fn changes(&self) -> u64 {
        0
    }

    ghost generations = { λ port lun generation. Unit {0} };

    fn generation(&self, _lun: u8) -> u16 {
        0
    }
}

impl FlushPort for Fake {
    ghost flushes = { λ old lun outcome new. Unit {0} };

    fn flush(&mut self, _lun: u8) -> FlushOutcome {
        FlushOutcome::Done
    }
}

impl ResetPort for Fake {
    ghost resets = { λ old lun outcome new. Unit {0} };

    fn reset(&mut self, lun: Option<u8>) -> ResetOutcome {
        match lun {
            None | Some(0) => ResetOutcome::Done,
            Some(_) => ResetOutcome::NoUnit,
        }
    }
}

impl DiscardPort for Fake {
    ghost discards = { λ old lun lba count reply new. Unit {0} };

    ghost runs = { λ old lun block most run new. Unit {0} };

    fn discard(&mut self, _lun: u8, _lba: u64, _count: u32) -> Reply {
        Reply::good(Bytes::new())
    }

    fn run(&mut self, _lun: u8, _block: u32, most: u32) -> BlockRun {
        BlockRun {
            is_written: true,
            blocks: most,
        }
    }
}
