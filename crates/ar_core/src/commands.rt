// Commands to units. The checks come in this order: presence, UNIT ATTENTION, CDB, range, data length, health; a disk
// is accessed only after all of them. BUSY replaces only a reply with bytes.
ghost use Rattle.std.specs.Prelude.{◌≡◌, ◌≢◌, ◌⊎◌, ℕ, ◌+◌, ◌-◌, ◌*◌, ◌/◌, ◌≤◌, ◌<◌, ◌==◌, not, false, true, IfOk, OnOk};
ghost use Rattle.std.specs.Prelude.{IfSome, IfNone, IsTrue, Ok, nat_lt, if◌then◌else◌, length, []};
ghost use Rattle.ar_disks.specs.declared.address.Key.{Key};
ghost use Rattle.ar_disks.specs.Geometry.{block_len_of, sectors_of};
ghost use Rattle.ar_scsi.specs.declared.reply.Status.TheVariants.{Good, CheckCondition, Busy};
ghost use Rattle.ar_scsi.specs.Reading.{reading};
ghost use Rattle.ar_scsi.specs.Reply.{good, check, busy};
ghost use Rattle.ar_scsi.specs.Sense.{internal_target_failure, logical_block_address_out_of_range, data_phase_error};
ghost use Rattle.ar_scsi.specs.Sense.{capacity_data_has_changed};
ghost use Rattle.ar_unit.specs.Unit.{obeyed, IsGiven, leaving, read_reply, write_answer};
ghost use Rattle.ar_unit.specs.Broken.{broken_obeyed};
ghost use Rattle.ar_cache.specs.Backing.{InTurn, KeepsBacking, SameBlocks, StopsInTurn, stored};
ghost use Rattle.ar_cache.specs.Cache.{cached};
ghost use Rattle.ar_volume.specs.Image.{is_broken, geometry_of, seen_at, length_at, unit_sectors};
ghost use Rattle.ar_volume.specs.Image.{attention_at, with_book};
ghost use Rattle.ar_volume.specs.Seen.{IsUnit, SameSeen, KeepsCachedBut, WritesSectors, present_at, sectors_read};
ghost use Rattle.ar_core.specs.Served.{Serves, Settles, ExecutesCommand};
ghost use Rattle.ar_volume.specs.Following.{ArrayFollows};
ghost use Rattle.ar_volume.specs.Sectors.{key_of, keys_in, sectors_in, unit_block};
ghost use Rattle.std.specs.List.{concat};
ghost use Rattle.ar_volume.specs.Seen.{IsForced};
ghost use Rattle.ar_volume.specs.Storing.{BreaksForced, FailsReading, ForcesBlock, PutsBlocks, ReadsBlock, ReadsFirst};
ghost use Rattle.ar_volume.specs.Storing.{StopsPutting, StopsStoring, StoresBlocks};
ghost use Rattle.ar_book.specs.Changes.{unmarked};

use crate::{Array, Completion};
use ar_disks::{Addr, Disk, Geometry, SECTOR_LEN};
use ar_scsi::{Command, Reply, Sense, decode, is_inquiry};
use ar_unit::{absent, capacity, inquiry};
use ar_volume::{Backing, read_sectors, write_sectors};
use bytes::{Bytes, BytesMut};
use std::alloc::{AllocError, Global};

// The most bytes of a READ whose data are cut from `room`, if no memory was lent for it.
const SHORT: usize = 4_096;

// The memory that `room` takes at a time, in bytes. Whoever keeps the data of one short READ keeps all of it.
const ROOM: usize = 16_384;

// The most bytes of a READ whose memory the array keeps for the next one of as many.
const KEPT: usize = 1_048_576;

impl<D: Disk> Array<D> {
    // Executes a command to the unit at `addr`, present or not.
    pub(crate) fn command(
        &mut self,
        alloc: Global,
        addr: Addr,
        cdb: &[u8; 16],
        bytes: &[u8],
    ) -> Reply
        ensures { ExecutesCommand self.old addr cdb.now bytes.now result self.new }
    {
        let Some(sectors) = self.blocks.sectors(addr) else {
            return absent(alloc, cdb);
        };
        if self.blocks.attention(addr) && !is_inquiry(cdb) {
            return self.tell_growth(addr);
        }
        self.execute_present(alloc, addr, sectors, cdb, bytes)
    }

    // Reports the pending UNIT ATTENTION, and clears it.
    pub(crate) fn tell_growth(&mut self, addr: Addr) -> Reply
        ensures reported_to { result ≡ check capacity_data_has_changed }
        ensures cleared { self.new ≡ with_book self.old (unmarked self.old.store.book addr) }
        ensures seen { SameSeen self.old self.new }
    {
        self.blocks.clear_attention(addr);
        Reply::check(Sense::CAPACITY_DATA_HAS_CHANGED)
    }

    // Executes a command to a unit that is present.
    fn execute_present(
        &mut self,
        alloc: Global,
        addr: Addr,
        sectors: u32,
        cdb: &[u8; 16],
        bytes: &[u8],
    ) -> Reply
        requires { IsUnit self.old addr sectors }
        ensures serves { Serves self.old addr
            (obeyed (unit_sectors self.old addr) (attention_at self.old.store.book addr) (reading cdb.now) bytes.now)
            (broken_obeyed sectors (reading cdb.now) (length bytes.now)) result self.new }
        ensures settles { Settles self.old addr (reading cdb.now) result self.new }
        ensures few { length result.payload ≤ 65535 * 512 }
    {
        match decode(cdb) {
            Err(sense) => Reply::check(sense),
            Ok(command) => self.obey(alloc, addr, sectors, command, bytes),
        }
    }

    // Executes a decoded command.
    fn obey(
        &mut self,
        alloc: Global,
        addr: Addr,
        sectors: u32,
        command: Command,
        bytes: &[u8],
    ) -> Reply
        requires { IsUnit self.old addr sectors }
        ensures serves { Serves self.old addr
            (obeyed (unit_sectors self.old addr) (attention_at self.old.store.book addr) (Ok command) bytes.now)
            (broken_obeyed sectors (Ok command) (length bytes.now)) result self.new }
        ensures settles { Settles self.old addr (Ok command) result self.new }
        ensures few { length result.payload ≤ 65535 * 512 }
    {
        match command {
            Command::TestReady => self.test_ready(),
            Command::Inquiry { allocation_length } => inquiry(alloc, true, allocation_length),
            Command::Capacity => capacity(alloc, sectors),
            Command::Read { lba, count } => self.read(alloc, addr, sectors, lba, count),
            Command::Write { lba, count, fua } => {
                self.write(addr, sectors, lba, count, fua, bytes)
            }
        }
    }

    // TEST UNIT READY: GOOD unless the array has failed.
    fn test_ready(&self) -> Reply
        ensures serves { (addr : Addr) → Serves self.now addr (leaving (present_at self.now addr) (good []))
            (check internal_target_failure) result self.now }
        ensures few { length result.payload ≤ 65535 * 512 }
    {
        if self.blocks.is_broken() {
            Reply::check(Sense::INTERNAL_TARGET_FAILURE)
        } else {
            Reply::good(Bytes::new())
        }
    }

    // Executes a decoded READ.
    fn read(&mut self, alloc: Global, addr: Addr, sectors: u32, lba: u64, count: u16) -> Reply
        requires { IsUnit self.old addr sectors }
        ensures serves { Serves self.old addr
            (leaving (present_at self.old addr) (read_reply (unit_sectors self.old addr) lba count))
            (if nat_lt sectors (lba + count) then check logical_block_address_out_of_range
            else check internal_target_failure)
            result self.new }
        ensures settles { Settles self.old addr (Ok (Command.Read lba count)) result self.new }
        ensures few { length result.payload ≤ 65535 * 512 }
    {
        if is_past_end(sectors, lba, count) {
            return Reply::check(Sense::LOGICAL_BLOCK_ADDRESS_OUT_OF_RANGE);
        }
        if self.blocks.is_broken() {
            return Reply::check(Sense::INTERNAL_TARGET_FAILURE);
        }
        self.read_range(alloc, addr, lba as u32, u32::from(count))
    }

    // Executes a READ of `count` sectors within the unit.
    fn read_range(&mut self, alloc: Global, addr: Addr, lba: u32, count: u32) -> Reply
        requires unit { IsUnit self.old addr (length_at self.old.store.book addr) }
        requires within { lba + count ≤ length_at self.old.store.book addr }
        requires few { count < 65536 }
        requires sound { is_broken self.old ≡ false }
        requires blocks { (k : Key) → length (seen_at self.old k) ≡ block_len_of (geometry_of self.old) }

        ensures serves { Serves self.old addr
            (leaving (present_at self.old addr) (good (sectors_read self.old addr lba count)))
            (check internal_target_failure) result self.new }
        ensures begun { ReadsFirst ReadsBlock (geometry_of self.old) addr lba count self.old self.new }
        ensures got { result.status ≡ Good
            → InTurn ReadsBlock (keys_in (geometry_of self.old) addr lba count) self.old self.new }
        ensures busy_read { result.status ≡ Busy
            → (self.new ≡ self.old)
            ⊎ InTurn ReadsBlock (keys_in (geometry_of self.old) addr lba count) self.old self.new }

        ensures failed { result.status ≡ CheckCondition → result ≡ check internal_target_failure }
        ensures few { length result.payload ≤ 65535 * 512 }
    {
        if count == 0 {
            return Reply::good(Bytes::new());
        }
        let geometry = self.blocks.geometry();
        fetch_sectors(
            &mut self.blocks,
            alloc,
            geometry,
            addr,
            lba,
            count,
            &mut self.spare,
            &mut self.room,
            &mut self.kept,
        )
    }

    // Executes a decoded WRITE.
    fn write(
        &mut self,
        addr: Addr,
        sectors: u32,
        lba: u64,
        count: u16,
        fua: bool,
        bytes: &[u8],
    ) -> Reply
        requires { IsUnit self.old addr sectors }
        ensures serves { Serves self.old addr
            (write_answer (unit_sectors self.old addr) (attention_at self.old.store.book addr) lba count bytes.now)
            (if nat_lt sectors (lba + count) then check logical_block_address_out_of_range
            else (if not (length bytes.now == count * 512) then check data_phase_error
            else check internal_target_failure))
            result self.new }
        ensures settles { Settles self.old addr (Ok (Command.Write lba count fua)) result self.new }
        ensures few { length result.payload ≤ 65535 * 512 }
    {
        if is_past_end(sectors, lba, count) {
            return Reply::check(Sense::LOGICAL_BLOCK_ADDRESS_OUT_OF_RANGE);
        }
        if bytes.len() != usize::from(count) * SECTOR_LEN {
            return Reply::check(Sense::DATA_PHASE_ERROR);
        }
        if self.blocks.is_broken() {
            return Reply::check(Sense::INTERNAL_TARGET_FAILURE);
        }
        let stored = self.write_range(addr, lba as u32, u32::from(count), fua, bytes);
        reply_to_write(stored)
    }

    // Overwrites `count` sectors within the unit; once all are written, FORCE UNIT ACCESS destages their blocks.
    fn write_range(
        &mut self,
        addr: Addr,
        lba: u32,
        count: u32,
        fua: bool,
        bytes: &[u8],
    ) -> Completion
        requires unit { IsUnit self.old addr (length_at self.old.store.book addr) }
        requires within { lba + count ≤ length_at self.old.store.book addr }
        requires whole { length bytes.now ≡ count * 512 }
        requires sound { is_broken self.old ≡ false }

        ensures answer { result ≡ stored (is_broken self.new) }
        ensures writes { result ≡ Completion.Done → WritesSectors self.old addr lba count bytes.now self.new }
        ensures forced { result ≡ Completion.Done → IsTrue fua → IsForced self.new addr lba count }

        ensures stored { result ≡ Completion.Done → StoresBlocks addr lba count fua self.old self.new }
        ensures stopped { result ≡ Completion.Broken → StopsStoring addr lba count fua self.old self.new }
        ensures nothing { count ≡ 0 → self.new ≡ self.old }
        ensures follows { ArrayFollows self.old self.new }
    {
        match self.put_range(addr, lba, count, bytes) {
            Completion::Done if fua => self.force_range(addr, lba, count),
            answer => answer,
        }
    }

    // Overwrites `count` sectors within the unit.
    fn put_range(&mut self, addr: Addr, lba: u32, count: u32, bytes: &[u8]) -> Completion
        requires unit { IsUnit self.old addr (length_at self.old.store.book addr) }
        requires within { lba + count ≤ length_at self.old.store.book addr }
        requires whole { length bytes.now ≡ count * 512 }
        requires sound { is_broken self.old ≡ false }

        ensures answer { result ≡ stored (is_broken self.new) }
        ensures writes { result ≡ Completion.Done → WritesSectors self.old addr lba count bytes.now self.new }
        ensures puts { result ≡ Completion.Done → PutsBlocks addr lba count self.old self.new }
        ensures stopped { result ≡ Completion.Broken → StopsPutting addr lba count self.old self.new }

        ensures nothing { count ≡ 0 → self.new ≡ self.old }
        ensures follows { ArrayFollows self.old self.new }
    {
        let geometry = self.blocks.geometry();
        write_sectors(
            &mut self.blocks,
            geometry,
            addr,
            lba,
            count,
            bytes,
            &mut self.block,
        )
    }

    // Destages the cached blocks of `count` sectors.
    fn force_range(&mut self, addr: Addr, lba: u32, count: u32) -> Completion
        requires within { lba + count ≤ 1048576 }
        requires sound { is_broken self.old ≡ false }

        ensures answer { result ≡ stored (is_broken self.new) }
        ensures forced { result ≡ Completion.Done → IsForced self.new addr lba count }
        ensures forces { result ≡ Completion.Done
            → InTurn ForcesBlock (keys_in (geometry_of self.old) addr lba count) self.old self.new }
        ensures stopped { result ≡ Completion.Broken
            → StopsInTurn ForcesBlock BreaksForced (keys_in (geometry_of self.old) addr lba count) self.old self.new }

        ensures spared { result ≡ Completion.Done → 0 < count → KeepsCachedBut self.old.cache self.new.cache addr
            (lba / sectors_of (geometry_of self.old)) ((lba + count - 1) / sectors_of (geometry_of self.old) + 1) }
        ensures seen { result ≡ Completion.Done → SameSeen self.old self.new }
        ensures nothing { count ≡ 0 → self.new ≡ self.old }
        ensures follows { ArrayFollows self.old self.new }
    {
        if count == 0 {
            return Completion::Done;
        }
        let sectors_of_a_block = self.blocks.geometry().sectors();
        let first = lba / sectors_of_a_block;
        let last = (lba + count - 1) / sectors_of_a_block;
        self.blocks.force(addr, first, last)
    }
}

// Whether the range of a READ or WRITE ends past a unit of `sectors` sectors.
fn is_past_end(sectors: u32, lba: u64, count: u16) -> bool
    ensures { result ≡ nat_lt sectors (lba + count) }
{
    ar_unit::is_past_end(sectors, lba, u32::from(count))
}

// The reply to a READ of at least one sector; memory for its bytes is allocated before a block is read. It is generic
// over the backing, since a read of the array may leave no trace: there, to read one block may equal reading all.
fn fetch_sectors<B: Backing>(
    blocks: &mut B,
    alloc: Global,
    geometry: Geometry,
    addr: Addr,
    lba: u32,
    count: u32,
    spare: &mut Vec<u8>,
    room: &mut BytesMut,
    kept: &mut BytesMut,
) -> Reply
    requires sound { B.is_broken blocks.old ≡ false }
    requires shape { geometry ≡ B.geometry blocks.old }
    requires known { (rb : ℕ) → rb * sectors_of geometry < lba + count → IsTrue (B.knows blocks.old (key_of addr rb)) }
    requires small { lba + count ≤ 1048576 }
    requires some { 0 < count }
    requires few { count < 65536 }
    ensures begun { ReadsFirst B.gets geometry addr lba count blocks.old blocks.new }
    ensures got { result.status ≡ Good → InTurn B.gets (keys_in geometry addr lba count) blocks.old blocks.new }
    ensures busy_read { result.status ≡ Busy
        → (blocks.new ≡ blocks.old) ⊎ InTurn B.gets (keys_in geometry addr lba count) blocks.old blocks.new }
    ensures stopped { result.status ≡ CheckCondition
        → FailsReading B.gets B.is_broken geometry addr lba count blocks.old blocks.new }
    ensures done { result.status ≡ Good
        → result ≡ good (concat (sectors_in geometry (unit_block (B.block_at blocks.old) addr) lba count)) }
    ensures busy { result.status ≡ Busy → result ≡ busy }
    ensures failed { result.status ≡ CheckCondition → result ≡ check internal_target_failure }
    ensures broken { result.status ≡ CheckCondition → IsTrue (B.is_broken blocks.new) }
    ensures sound { result.status ≢ CheckCondition → B.is_broken blocks.new ≡ false }
    ensures blocks { result.status ≢ CheckCondition → SameBlocks (B.block_at blocks.old) (B.block_at blocks.new) }
    ensures keeps { KeepsBacking B.geometry B.knows B.is_broken B.follows blocks.old blocks.new }
    ensures few { length result.payload ≤ 65535 * 512 }
{
    let len = count as usize * SECTOR_LEN;
    let is_lent = spare.len() == len;
    let is_short = len <= SHORT && !is_lent;
    let memory = if is_short { &mut *room } else { &mut *kept };
    if take_memory(alloc, memory, len, spare).is_err() {
        return Reply::busy();
    }
    let read = read_sectors(blocks, geometry, addr, lba, count, memory.as_mut_slice());
    let reply = reply_to_read(read, memory);
    if is_lent || len > KEPT {
        // It isn't kept: the reply alone holds it, or nothing does.
        *memory = BytesMut::new(alloc);
    }
    reply
}

// Makes `memory` `len` bytes long: the lent memory if that has this length, or else by `cut_memory`. What it held is of
// no more use.
fn take_memory(
    alloc: Global,
    memory: &mut BytesMut,
    len: usize,
    spare: &mut Vec<u8>,
) -> Result<(), AllocError>
    ensures { OnOk result (length memory.new.items ≡ len) }
{
    if spare.len() == len {
        *memory = BytesMut::from_vec(std::mem::replace(spare, Vec::new(alloc)));
        return Ok(());
    }
    let size = if len <= SHORT { ROOM } else { len };
    cut_memory(alloc, memory, len, size)
}

// Makes `memory` `len` bytes long, by the next bytes of it that no reply holds. If too few are left, all of it is used
// again if it has `size` bytes and no reply holds a part of it, and else dropped for `size` bytes of other memory:
// memory of its own for each READ, zeroed, took a sixth of the time of a short one and a fifth of one of 64 KiB.
fn cut_memory(
    alloc: Global,
    memory: &mut BytesMut,
    len: usize,
    size: usize,
) -> Result<(), AllocError>
    requires { len ≤ size }
    ensures { OnOk result (length memory.new.items ≡ len) }
{
    memory.clear();
    if memory.capacity() >= len || memory.try_reclaim(size) && memory.capacity() == size {
        memory.advance_mut(len);
    } else {
        *memory = BytesMut::from_vec(vec![in alloc; 0; size]?);
        memory.truncate(len);
    }
    Ok(())
}

// The reply to a READ whose transfer ended so, with these bytes.
fn reply_to_read(read: Completion, bytes: &mut BytesMut) -> Reply
    requires some { read ≡ Completion.Done → bytes.old.items ≢ [] }
    requires few { read ≡ Completion.Done → length bytes.old.items ≤ 65535 * 512 }
    ensures few { length result.payload ≤ 65535 * 512 }
    ensures done { read ≡ Completion.Done → IsGiven (good bytes.old.items) result }
    ensures broken { read ≡ Completion.Broken → result ≡ check internal_target_failure }
    ensures whole { result.status ≡ Good → read ≡ Completion.Done }
    ensures lost { result.status ≡ CheckCondition → read ≡ Completion.Broken }
    ensures failed { result.status ≡ CheckCondition → result ≡ check internal_target_failure }
{
    match read {
        Completion::Done => good_with(bytes),
        Completion::Broken => Reply::check(Sense::INTERNAL_TARGET_FAILURE),
    }
}

// GOOD with `bytes`, or BUSY when the allocation to share them fails.
fn good_with(bytes: &mut BytesMut) -> Reply
    requires some { bytes.old.items ≢ [] }
    ensures given { IsGiven (good bytes.old.items) result }
    ensures passed { result.status ≢ CheckCondition }
    ensures few { length result.payload ≤ length bytes.old.items }
{
    match bytes.freeze_to(bytes.len()) {
        Ok(payload) => Reply::good(payload),
        Err(_) => Reply::busy(),
    }
}

// The reply to a WRITE, or to a discard, whose transfer had this result.
pub(crate) fn reply_to_write(stored: Completion) -> Reply
    ensures done { stored ≡ Completion.Done → result ≡ good [] }
    ensures broken { stored ≡ Completion.Broken → result ≡ check internal_target_failure }
{
    match stored {
        Completion::Done => Reply::good(Bytes::new()),
        Completion::Broken => Reply::check(Sense::INTERNAL_TARGET_FAILURE),
    }
}
