// A port that is no array.
ghost use Rattle.std.specs.Prelude.{◌≡◌, ◌≤◌, false, length};
ghost use Rattle.ar_frames.specs.Frame.{IsReply};

use ar_frames::{Login, Port};
use ar_scsi::{Reply, Sense, capacity_data, inquiry_data};
use ar_target::{BlockRun, DiscardPort, FlushOutcome, FlushPort, InventoryPort};
use bytes::Bytes;
use std::alloc::Global;

// Units of 1,000 blocks at LUN 0 and LUN 3, a failed one at LUN 5, one at LUN 9 that has none of its replies' data; at
// others no unit. A flush of LUN 3 fails, and
// so do its discards, and those that begin at block 500.
#[derive(Drop)]
pub struct Fake {
    alloc: Global,
    pub taken: bool,
    // A UNIT ATTENTION is pending.
    attention: bool,
    // How many bytes of data came with commands, and how many flushes.
    pub bytes: u64,
    pub flushes: u64,
    // The blocks of discards.
    pub discarded: u64,
    // How often units were made or removed.
    pub changes: u64,
    // How many units were made at LUN 3 before the one that is there.
    pub generation: u16,
}

impl Fake {
    pub fn new(alloc: Global, attention: bool) -> Fake
        ensures { result.taken ≡ false }
    {
        Fake {
            alloc,
            taken: false,
            attention,
            bytes: 0,
            flushes: 0,
            discarded: 0,
            changes: 0,
            generation: 0,
        }
    }
}

// GOOD with these bytes.
fn good(alloc: Global, bytes: &[u8]) -> Reply
    requires { length bytes.now ≤ 1024 }
    ensures { IsReply result }
{
    match Bytes::copy_from_slice(alloc, bytes) {
        Ok(payload) => Reply::good(payload),
        Err(_) => Reply::busy(),
    }
}

// The reply of a unit of 1,000 blocks.
fn unit_reply(alloc: Global, cdb: &[u8; 16]) -> Reply
    ensures { IsReply result }
{
    match cdb[0] {
        0x00 | 0x2A | 0x8A => Reply::good(Bytes::new()),
        0x12 if cdb[1] == 0 && cdb[2] == 0 => good(alloc, &inquiry_data(true)),
        0x12 => Reply::check(Sense::INVALID_FIELD_IN_CDB),
        0x25 => good(alloc, &capacity_data(1000)),
        0x28 => good(alloc, &[0x5A; 512]),
        _ => Reply::check(Sense::INVALID_COMMAND_OPERATION_CODE),
    }
}

// The reply at a LUN.
fn reply_at(alloc: Global, lun: u8, cdb: &[u8; 16]) -> Reply
    ensures { IsReply result }
{
    match (lun, cdb[0]) {
        (5, 0x00) => Reply::check(Sense::INTERNAL_TARGET_FAILURE),
        (9, _) => Reply::good(Bytes::new()),
        (0 | 3 | 5, _) => unit_reply(alloc, cdb),
        (_, 0x12) => good(alloc, &inquiry_data(false)),
        _ => Reply::check(Sense::LOGICAL_UNIT_NOT_SUPPORTED),
    }
}

impl Port for Fake {
    ghost has_login = { λ port. port.taken };

    ghost logins = { λ old host answer new. Unit {0} };

    ghost commands = { λ old lun cdb payload reply new. Unit {0} };

    ghost refuses = { λ old cdb new. Unit {0} };

    fn login(&mut self, host: u8) -> Login {
        if host > 3 {
            return Login::BadHost;
        }
        self.taken = true;
        Login::Taken
    }

    fn command(&mut self, lun: u8, cdb: &[u8; 16], payload: Bytes) -> Reply {
        if self.attention && cdb[0] != 0x12 {
            self.attention = false;
            return Reply::check(Sense::CAPACITY_DATA_HAS_CHANGED);
        }
        self.bytes = self.bytes.saturating_add(payload.len() as u64);
        reply_at(self.alloc, lun, cdb)
    }

    fn refuse(&mut self, _cdb: &[u8; 16]) -> Reply {
        Reply::busy()
    }
}

impl InventoryPort for Fake {
    ghost counts = { λ port count. count ≡ port.changes };

    fn changes(&self) -> u64 {
        self.changes
    }

    ghost generations = { λ port lun generation. Unit {0} };

    // Units were made at LUN 3 before.
    fn generation(&self, lun: u8) -> u16 {
        match lun {
            3 => self.generation,
            _ => 0,
        }
    }
}

impl FlushPort for Fake {
    ghost flushes = { λ old lun outcome new. Unit {0} };

    fn flush(&mut self, lun: u8) -> FlushOutcome {
        self.flushes = self.flushes.saturating_add(1);
        match lun {
            0 | 5 => FlushOutcome::Done,
            3 => FlushOutcome::ArrayFailed,
            _ => FlushOutcome::NoUnit,
        }
    }
}

impl DiscardPort for Fake {
    ghost discards = { λ old lun lba count reply new. Unit {0} };

    ghost runs = { λ old lun block most run new. Unit {0} };

    fn discard(&mut self, lun: u8, lba: u64, count: u32) -> Reply {
        if lun == 3 || lba == 500 {
            return Reply::check(Sense::INTERNAL_TARGET_FAILURE);
        }
        self.discarded = self.discarded.saturating_add(u64::from(count));
        Reply::good(Bytes::new())
    }

    // Blocks 0 to 2 were written, of block 7 nothing is known, and others weren't written.
    fn run(&mut self, _lun: u8, block: u32, most: u32) -> BlockRun {
        match block {
            0..=2 => BlockRun {
                is_written: true,
                blocks: 3 - block,
            },
            7 => BlockRun {
                is_written: false,
                blocks: 0,
            },
            _ => BlockRun {
                is_written: false,
                blocks: most,
            },
        }
    }
}
