// A file in memory, with what it held at first and each call that changed it, so that it knows what a crash might leave
// at any moment. For tests, it can be made to fail, to fill up, and to crash in any way that the contract allows.
ghost use Rattle.std.specs.Prelude.{◌≡◌, ◌≢◌, ◌<◌, ◌≤◌, ◌∷◌, length, true, IsErrOf, IsTrue, IfOk, IfErr, OnOk, OnErr};
ghost use Rattle.ar_media.specs.declared.error.MediaError.TheVariants.{Memory, Closed};
ghost use Rattle.ar_media.specs.Media.{ReportsFaults, is_fault, Torn, Cut};
ghost use Rattle.ar_media.specs.Fates.{LeftBy};
ghost use Rattle.ar_media.specs.Calls.{padded, overlaid, seen_after, seen_of, LeftNow, LeftSince};
ghost use Rattle.ar_media.specs.CallLaws.{stays_kept, only_newest};
ghost use Rattle.ar_media.specs.Kept.{calls_of};
ghost use Rattle.std.proofs.Common.{inl};

use crate::record::Call;
use crate::{Media, MediaError};
use std::alloc::{AllocError, Global};
use std::io::ErrorKind;

/// What a crash makes of a write or a change of the length that is not synced.
#[derive(Clone, Copy, Debug, PartialEq, Eq)]
pub enum Fate {
    /// It is on the disk.
    Done,
    /// It is not.
    Lost,
    /// This many bytes of a write are, the first ones; a length is as near to this as it may be.
    Torn(usize),
}

/// A file in memory.
#[derive(Drop)]
pub struct MemoryFile {
    alloc: Global,
    bytes: Vec<u8>,
    first: Vec<u8>,
    calls: Vec<(Call, Vec<u8>)>,
    is_usable: bool,
    faults: u64,
    calls_left: u64,
    room: usize,
    ghost kept: { bytes.items ≡ seen_of first.items (calls_of calls.items) },
}

impl MemoryFile {
    ghost use Rattle.ar_media.specs.Memory.{memory_seen, memory_may_leave, memory_is_usable};
    ghost use Rattle.ar_media.specs.Media.{Only};

    /// A file with these bytes, all of them synced.
    pub fn new(alloc: Global, bytes: Vec<u8>) -> Result<MemoryFile, AllocError>
        ensures bytes { IfOk result (λ file. memory_seen file ≡ bytes.items) }
        ensures synced { IfOk result (λ file. Only (memory_seen file) (memory_may_leave file)) }
        ensures usable { IfOk result (λ file. IsTrue (memory_is_usable file)) }
    {
        let first = bytes.as_slice().to_vec(alloc)?;
        Ok(MemoryFile {
            alloc,
            bytes,
            first,
            calls: Vec::new(alloc),
            is_usable: true,
            faults: 0,
            calls_left: u64::MAX,
            room: usize::MAX,
        })
    }

    /// The bytes that a read returns.
    pub fn bytes(&self) -> &[u8]
        ensures { result.now ≡ memory_seen self.now }
    {
        &self.bytes
    }

    /// The file as a crash at this moment might leave it. The fates are those of the newest calls that changed or
    /// synced the file, the newest last. Of earlier ones all is done, and a sync makes all before it last.
    pub fn after_crash(&self, fates: &[Fate]) -> Result<MemoryFile, AllocError>
        ensures left { IfOk result (λ file. memory_may_leave self.now (memory_seen file)) }
        ensures synced { IfOk result (λ file. Only (memory_seen file) (memory_may_leave file)) }
        ensures usable { IfOk result (λ file. IsTrue (memory_is_usable file)) }
    {
        let mut seen = self.first.as_slice().to_vec(self.alloc)?;
        let mut left = self.first.as_slice().to_vec(self.alloc)?;
        for index in 0..self.calls.len() {
            let fate = fate_of(fates, self.calls.len() - index);
            let entry = &self.calls[index];
            carry_out(self.alloc, &mut seen, &mut left, &entry.0, &entry.1, fate)?;
        }
        MemoryFile::new(self.alloc, left)
    }

    /// Lets `calls` calls more pass. Each later one fails and changes nothing.
    pub fn fail_after(&mut self, calls: u64)
        ensures seen { memory_seen self.new ≡ memory_seen self.old }
    {
        self.calls_left = calls;
    }

    /// Limits the length: a write past `room` bytes writes those that fit, and fails.
    pub fn set_room(&mut self, room: usize)
        ensures seen { memory_seen self.new ≡ memory_seen self.old }
    {
        self.room = room;
    }
}

// Counts a call, which fails if none is left.
fn pass(calls_left: &mut u64, faults: &mut u64) -> Result<(), MediaError>
    ensures cause { ReportsFaults faults.old faults.new result }
    ensures open { IsErrOf result Closed → ⊥ }
{
    if *calls_left > 0 {
        *calls_left -= 1;
        return Ok(());
    }
    Err(fault(faults, MediaError::Failed(ErrorKind::Other)))
}

// The file's own failure, once it is counted.
fn fault(faults: &mut u64, error: MediaError) -> MediaError
    requires { error ≢ Closed }
    ensures later { faults.old ≤ faults.new }
    ensures counted { IsTrue (is_fault result) → faults.old < faults.new }
    ensures open { result ≢ Closed }
{
    match faults.checked_add(1) {
        Some(more) => {
            *faults = more;
            error
        }
        None => MediaError::Memory,
    }
}

fn note(calls: &mut Vec<(Call, Vec<u8>)>, call: Call, bytes: Vec<u8>) -> Result<(), MediaError>
    ensures ok { OnOk result (calls_of calls.new.items ≡ (call, bytes.items) ∷ calls_of calls.old.items) }
    ensures err { OnErr result (calls.new.items ≡ calls.old.items) }
    ensures error { IfErr result (λ e. e ≡ Memory) }
{
    calls.push((call, bytes))?;
    Ok(())
}

// The file with its length changed.
fn pad(alloc: Global, file: &[u8], len: usize) -> Result<Vec<u8>, AllocError>
    ensures { IfOk result (λ next. next.items ≡ padded file.now len) }
{
    let mut next = file.to_vec(alloc)?;
    next.resize(len, 0)?;
    Ok(next)
}

// The file with these bytes at this offset.
fn overlay(alloc: Global, file: &[u8], at: usize, bytes: &[u8]) -> Result<Vec<u8>, AllocError>
    ensures { IfOk result (λ next. next.items ≡ overlaid file.now at bytes.now) }
{
    if bytes.is_empty() {
        let same = file.to_vec(alloc)?;
        return Ok(same);
    }
    let mut next = pad(alloc, file, at)?;
    next.extend_from_slice(bytes)?;
    let end = next.len().min(file.len());
    next.extend_from_slice(&file[end..])?;
    Ok(next)
}

// The fate of the newest call but `back - 1`.
fn fate_of(fates: &[Fate], back: usize) -> Fate {
    if back <= fates.len() && back > 0 {
        fates[fates.len() - back]
    } else {
        Fate::Done
    }
}

// Goes on by one call: what a read returned after it, and what a crash left of it.
fn carry_out(
    alloc: Global,
    seen: &mut Vec<u8>,
    left: &mut Vec<u8>,
    call: &Call,
    bytes: &[u8],
    fate: Fate,
) -> Result<(), AllocError>
    ensures left { OnOk result (LeftBy call.now bytes.now seen.old.items left.old.items left.new.items) }
    ensures seen { OnOk result (seen.new.items ≡ seen_after call.now bytes.now seen.old.items) }
{
    let next_left = left_by(alloc, seen, left, call, bytes, fate)?;
    let next_seen = seen_by(alloc, seen, call, bytes)?;
    *left = next_left;
    *seen = next_seen;
    Ok(())
}

fn seen_by(alloc: Global, seen: &[u8], call: &Call, bytes: &[u8]) -> Result<Vec<u8>, AllocError>
    ensures { IfOk result (λ next. next.items ≡ seen_after call.now bytes.now seen.now) }
{
    match *call {
        Call::Wrote(at, done) => overlay(alloc, seen, at, &bytes[..done.min(bytes.len())]),
        Call::Resized(len, true) => pad(alloc, seen, len),
        _ => seen.to_vec(alloc),
    }
}

fn left_by(
    alloc: Global,
    seen: &[u8],
    left: &[u8],
    call: &Call,
    bytes: &[u8],
    fate: Fate,
) -> Result<Vec<u8>, AllocError>
    ensures { IfOk result (λ next. LeftBy call.now bytes.now seen.now left.now next.items) }
{
    match *call {
        Call::Wrote(at, done) => torn(alloc, left, at, bytes, done, fate),
        Call::Resized(len, done) => between(alloc, left, len, done, fate),
        Call::Synced => seen.to_vec(alloc),
        _ => left.to_vec(alloc),
    }
}

// The file after a write of the bytes, of which `done` were taken, with this fate.
fn torn(
    alloc: Global,
    file: &[u8],
    at: usize,
    bytes: &[u8],
    done: usize,
    fate: Fate,
) -> Result<Vec<u8>, AllocError>
    ensures { IfOk result (λ next. Torn at (length bytes.now) file.now next.items) }
{
    let count = match fate {
        Fate::Done => done.min(bytes.len()),
        Fate::Lost => 0,
        Fate::Torn(count) => count.min(bytes.len()),
    };
    let next = overlay(alloc, file, at, &bytes[..count])?;
    Ok(next)
}

// The file after a change of its length that was `done`, with this fate.
fn between(
    alloc: Global,
    file: &[u8],
    len: usize,
    done: bool,
    fate: Fate,
) -> Result<Vec<u8>, AllocError>
    ensures { IfOk result (λ next. Cut len file.now next.items) }
{
    let wanted = match fate {
        Fate::Done if done => len,
        Fate::Torn(count) => count,
        _ => file.len(),
    };
    let least = len.min(file.len());
    let most = len.max(file.len());
    let next = pad(alloc, file, wanted.min(most).max(least))?;
    Ok(next)
}

impl Media for MemoryFile {
    ghost seen = { λ m. m.bytes.items };

    ghost may_leave = { λ m. LeftNow m.first.items (calls_of m.calls.items) };

    ghost moment = { λ m. length (calls_of m.calls.items) };

    ghost left_since = { λ m. LeftSince m.first.items (calls_of m.calls.items) };

    ghost faults = { λ m. m.faults };

    ghost is_clean = { λ _. true };

    ghost is_usable = { λ m. m.is_usable };

    ghost seen_may_stay = { λ m. stays_kept m.first.items m.bytes.items (calls_of m.calls.items) m.kept };

    ghost counts_now = { λ m t c le now. inl now };

    ghost only_now = { λ m c left. only_newest m.first.items (calls_of m.calls.items) c left };

    fn len(&mut self) -> Result<usize, MediaError> {
        if !self.is_usable {
            return Err(MediaError::Closed);
        }
        pass(&mut self.calls_left, &mut self.faults)?;
        Ok(self.bytes.len())
    }

    fn read_at(&mut self, at: usize, buf: &mut [u8]) -> Result<(), MediaError> {
        if !self.is_usable {
            return Err(MediaError::Closed);
        }
        pass(&mut self.calls_left, &mut self.faults)?;
        if at > self.bytes.len() || buf.len() > self.bytes.len() - at {
            let error = MediaError::Failed(ErrorKind::UnexpectedEof);
            return Err(fault(&mut self.faults, error));
        }
        buf.copy_from_slice(&self.bytes[at..at + buf.len()]);
        Ok(())
    }

    fn write_at(&mut self, at: usize, bytes: &[u8]) -> Result<(), MediaError> {
        if !self.is_usable {
            return Err(MediaError::Closed);
        }
        pass(&mut self.calls_left, &mut self.faults)?;
        let fits = bytes.len().min(self.room.saturating_sub(at));
        let given = bytes.to_vec(self.alloc)?;
        let next = overlay(self.alloc, &self.bytes, at, &bytes[..fits])?;
        note(&mut self.calls, Call::Wrote(at, fits), given)?;
        self.bytes = next;
        if fits < bytes.len() {
            return Err(fault(&mut self.faults, MediaError::Full));
        }
        Ok(())
    }

    fn cut(&mut self, len: usize) -> Result<(), MediaError> {
        if !self.is_usable {
            return Err(MediaError::Closed);
        }
        pass(&mut self.calls_left, &mut self.faults)?;
        let next = pad(self.alloc, &self.bytes, len)?;
        note(
            &mut self.calls,
            Call::Resized(len, true),
            Vec::new(self.alloc),
        )?;
        self.bytes = next;
        Ok(())
    }

    fn sync(&mut self) -> Result<(), MediaError> {
        if !self.is_usable {
            return Err(MediaError::Closed);
        }
        self.is_usable = false;
        pass(&mut self.calls_left, &mut self.faults)?;
        note(&mut self.calls, Call::Synced, Vec::new(self.alloc))?;
        self.is_usable = true;
        Ok(())
    }
}
