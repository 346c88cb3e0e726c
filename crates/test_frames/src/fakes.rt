// A port that is no array, and streams that fail.
ghost use Rattle.std.specs.Prelude.{◌≡◌, false, None};

use ar_frames::{Login, Port, Sink, Source};
use ar_scsi::{Reply, Sense};
use bytes::Bytes;

// At LUN 1 each command is GOOD, at LUN 7 with the bytes that came with it; at others no unit is. Host 2 is in use.
#[derive(Drop)]
pub struct Fake {
    taken: bool,
    // How many commands came, and how many bytes with them.
    pub commands: u64,
    pub bytes: u64,
}

impl Fake {
    pub fn new() -> Fake
        ensures { result.taken ≡ false }
    {
        Fake {
            taken: false,
            commands: 0,
            bytes: 0,
        }
    }
}

impl Port for Fake {
    ghost has_login = { λ port. port.taken };

    ghost logins = { λ old host answer new. Unit {0} };

    ghost commands = { λ old lun cdb payload reply new. Unit {0} };

    ghost refuses = { λ old cdb new. Unit {0} };

    fn login(&mut self, host: u8) -> Login {
        if host > 3 {
            return Login::BadHost;
        }
        if host == 2 {
            return Login::InUse;
        }
        self.taken = true;
        Login::Taken
    }

    fn command(&mut self, lun: u8, _cdb: &[u8; 16], payload: Bytes) -> Reply {
        self.commands = self.commands.saturating_add(1);
        self.bytes = self.bytes.saturating_add(payload.len() as u64);
        match lun {
            1 => Reply::good(Bytes::new()),
            7 if payload.len() <= 33_553_920 => Reply::good(payload),
            _ => Reply::check(Sense::LOGICAL_UNIT_NOT_SUPPORTED),
        }
    }

    fn refuse(&mut self, _cdb: &[u8; 16]) -> Reply {
        Reply::busy()
    }
}

// Gives its bytes in pieces of at most this many, and faults in one call, by its number from 0.
#[derive(Drop)]
pub struct Pieces<'a> {
    pub bytes: &'a [u8],
    pub most: usize,
    pub fails: u64,
    pub calls: u64,
    pub faults: u64,
}

impl Source for Pieces<'_> {
    ghost state = { λ source. record { left = None; faults = source.faults } };

    fn read(&mut self, into: &mut [u8]) -> Option<usize> {
        let call = self.calls;
        self.calls = self.calls.saturating_add(1);
        if call == self.fails {
            self.faults = self.faults.saturating_add(1);
            return None;
        }
        let count = self.bytes.len().min(self.most).min(into.len());
        into[..count].copy_from_slice(&self.bytes[..count]);
        self.bytes = &self.bytes[count..];
        Some(count)
    }

    fn faults(&self) -> u64 {
        self.faults
    }
}

// Takes bytes in pieces of at most this many, and faults in one call, by its number from 0.
#[derive(Drop)]
pub struct Taker {
    pub taken: Vec<u8>,
    pub most: usize,
    pub fails: u64,
    pub calls: u64,
    pub faults: u64,
}

impl Sink for Taker {
    ghost state = { λ sink. record { taken = None; faults = sink.faults } };

    fn write(&mut self, from: &[u8]) -> Option<usize> {
        let call = self.calls;
        self.calls = self.calls.saturating_add(1);
        let count = from.len().min(self.most.max(1));
        if call == self.fails || self.taken.extend_from_slice(&from[..count]).is_err() {
            self.faults = self.faults.saturating_add(1);
            return None;
        }
        Some(count)
    }

    fn faults(&self) -> u64 {
        self.faults
    }
}

// This many bytes: a front, and after it one frame again and again.
#[derive(Drop)]
pub struct Repeats<'a> {
    pub front: &'a [u8],
    pub frame: &'a [u8],
    pub at: u64,
    pub end: u64,
}

impl Repeats<'_> {
    // What comes next, up to the end of the front or of the frame.
    fn next(&self) -> &[u8] {
        let front = self.front.len() as u64;
        if self.at < front {
            return &self.front[self.at as usize..];
        }
        let len = self.frame.len() as u64;
        if len == 0 {
            return self.frame;
        }
        &self.frame[((self.at - front) % len) as usize..]
    }
}

impl Source for Repeats<'_> {
    ghost state = { λ source. record { left = None; faults = 0 } };

    fn read(&mut self, into: &mut [u8]) -> Option<usize> {
        let left = self.end.saturating_sub(self.at).min(into.len() as u64) as usize;
        let piece = self.next();
        let count = piece.len().min(left);
        into[..count].copy_from_slice(&piece[..count]);
        self.at = self.at.saturating_add(count as u64);
        Some(count)
    }

    fn faults(&self) -> u64 {
        0
    }
}

// Counts bytes and calls.
#[derive(Drop)]
pub struct Counter {
    pub bytes: u64,
    pub calls: u64,
}

impl Sink for Counter {
    ghost state = { λ sink. record { taken = None; faults = 0 } };

    fn write(&mut self, from: &[u8]) -> Option<usize> {
        self.write_parts(from, &[], &[])
    }

    fn write_parts(&mut self, front: &[u8], middle: &[u8], rest: &[u8]) -> Option<usize> {
        let all = (front.len() + middle.len()).saturating_add(rest.len());
        self.bytes = self.bytes.saturating_add(all as u64);
        self.calls = self.calls.saturating_add(1);
        Some(all)
    }

    fn faults(&self) -> u64 {
        0
    }
}
