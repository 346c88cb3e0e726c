// Images of units: what a unit of a store holds, on standard output or from standard input. Its host's commands move
// the sectors, so that each is what the unit's own commands have made of it.
ghost use Rattle.std.specs.Prelude.{◌≡◌, ◌∷◌, [], map};
ghost use Rattle.ar_recovery.specs.Stored.{AreRecords};

use crate::fault::{ImageCause, ImageFault};
use ar_checkpoint::Store;
use ar_command_line::StoredUnit;
use ar_core::OutcomeOf;
use ar_disks::{Addr, Disk, SECTOR_LEN};
use ar_durable::{CommitPolicy, DurableArray};
use ar_folder::{StoreFolders, open_in};
use ar_fuses::{Fuse, FusedDisk};
use ar_live::LiveArray;
use ar_media::{Media, RegularFile};
use ar_scsi::{Reply, Status};
use ar_served::Seat;
use ar_stored::{ReadStore, Restarted, compact, read_store, restart_store};
use bytes::Bytes;
use log::Log;
use std::alloc::Global;
use std::io::{ErrorKind, IsTerminal, Read, Write};
use std::marker::Brand;
use std::sync::ledger::{Blank, Ledger};
use std::time::{Clock, Duration};

/// Sectors that one command moves, 1 MiB.
const PIECE: u32 = 2_048;

/// The sectors of the largest unit, 512 MiB.
const MOST_SECTORS: u32 = 1_048_576;

/// Bytes that one read of standard input takes.
const INPUT: usize = 65_536;

/// How often a command is tried while it reports a UNIT ATTENTION, which it then does no more.
const ATTEMPTS: u32 = 4;

/// The sense key UNIT ATTENTION (SPC-3, Sense key and sense code definitions).
const UNIT_ATTENTION: u8 = 6;

const TEST_UNIT_READY: u8 = 0x00;

const READ_10: u8 = 0x28;

const WRITE_10: u8 = 0x2A;

/// Writes what a unit of a store holds to standard output. Nothing of the store is written.
pub fn export(rt: &HostRuntime, alloc: Global, unit: &StoredUnit) -> Result<(), ImageFault> {
    let folder = unit.folder.as_str();
    export_unit(rt, alloc, folder, unit.addr).map_err(|cause| ImageFault::new(alloc, folder, cause))
}

fn export_unit(
    rt: &HostRuntime,
    alloc: Global,
    folder: &str,
    addr: Addr,
) -> Result<(), ImageCause> {
    let mut out = rt.stdout();
    if out.is_terminal() {
        return Err(ImageCause::Terminal);
    }
    let fuses = Fuse::twelve();
    let ReadStore { mut live, .. } = read_store(rt, alloc, folder, &fuses)?;
    let written = write_unit(&mut live, addr, &mut out);
    drop(live);
    written
}

// Writes all sectors of a unit.
fn write_unit<D: Disk + Drop, W: Write>(
    live: &mut LiveArray<D>,
    addr: Addr,
    out: &mut W,
) -> Result<(), ImageCause> {
    let Some(sectors) = live.array().sectors(addr) else {
        return Err(ImageCause::NoUnit);
    };
    for piece in 0..sectors.div_ceil(PIECE) {
        let lba = piece.saturating_mul(PIECE);
        let block = command_block(READ_10, lba, sectors.saturating_sub(lba).min(PIECE));
        let reply = ask_live(live, addr, block);
        if !matches!(reply.status, Status::Good) {
            return Err(failed(&reply));
        }
        out.write_all(reply.payload.as_slice())
            .map_err(|_| ImageCause::Write)?;
    }
    out.flush().map_err(|_| ImageCause::Write)
}

// Executes a command without data, again if it only reports a UNIT ATTENTION.
fn ask_live<D: Disk + Drop>(live: &mut LiveArray<D>, addr: Addr, block: [u8; 16]) -> Reply {
    for _ in 1..ATTEMPTS {
        let reply = live.host(addr.host, addr.lun, block, Bytes::new());
        if !is_attention(&reply) {
            return reply;
        }
    }
    live.host(addr.host, addr.lun, block, Bytes::new())
}

/// Writes standard input to a unit of a store, from sector 0 on. A unit that isn't there is created with its length. It
/// is read to its end first, so that an image that is refused changes nothing. What was written lasts when the call
/// returns `Ok`.
pub fn import<R: Clock + Log>(
    rt: &R,
    files: &HostRuntime,
    alloc: Global,
    unit: &StoredUnit,
) -> Result<(), ImageFault> {
    let folder = unit.folder.as_str();
    match import_unit(rt, files, alloc, folder, unit.addr) {
        Ok(()) => {
            compact(
                rt,
                files,
                alloc,
                StoreFolders {
                    first: folder,
                    second: None,
                },
            );
            Ok(())
        }
        Err(cause) => Err(ImageFault::new(alloc, folder, cause)),
    }
}

fn import_unit<R: Clock + Log>(
    rt: &R,
    files: &HostRuntime,
    alloc: Global,
    folder: &str,
    addr: Addr,
) -> Result<(), ImageCause> {
    let (head, reader) = open_in(files, alloc, folder)?;
    let fuses = Fuse::twelve();
    let Restarted { live, store, .. } = restart_store(alloc, 0, &fuses, head, reader)?;
    let most = live.array().sectors(addr).unwrap_or(MOST_SECTORS);
    match read_image(alloc, &mut files.stdin(), most) {
        Ok(image) => write_image::<FusedDisk<'_>, Brand, RegularFile, R>(
            rt,
            alloc,
            Blank::new(4),
            (live, store),
            addr,
            image.as_slice(),
        ),
        Err(cause) => {
            drop(live);
            drop(store);
            Err(cause)
        }
    }
}

// Reads an image to its end: whole sectors, at most as many as the unit has.
fn read_image<S: Read>(alloc: Global, input: &mut S, sectors: u32) -> Result<Vec<u8>, ImageCause> {
    let mut image = Vec::new(alloc);
    let mut piece = [0; INPUT];
    for _ in 0..u64::MAX {
        match input.read(&mut piece) {
            Ok(0) => break,
            Ok(count) => take_piece(&mut image, piece.get(..count), sectors)?,
            Err(error) if error.kind() == ErrorKind::Interrupted => {}
            Err(_) => return Err(ImageCause::Input),
        }
    }
    if image.len() % SECTOR_LEN == 0 {
        Ok(image)
    } else {
        Err(ImageCause::PartSector)
    }
}

// Appends what was read, unless the image is then longer than the unit.
fn take_piece(image: &mut Vec<u8>, piece: Option<&[u8]>, sectors: u32) -> Result<(), ImageCause> {
    let Some(piece) = piece else {
        return Err(ImageCause::Input);
    };
    let most = u64::from(sectors) * SECTOR_LEN as u64;
    if piece.len() as u64 > most.saturating_sub(image.len() as u64) {
        return Err(ImageCause::LongImage(sectors));
    }
    image
        .extend_from_slice(piece)
        .map_err(|_| ImageCause::NoMemory)
}

// Writes an image to a unit of an array that was taken up, and commits it.
fn write_image<'s, D: Disk + Drop, L: Ledger, M: Media + Drop, R: Clock + Log>(
    rt: &'s R,
    alloc: Global,
    blank: Blank,
    taken_up: (LiveArray<D>, Store<M>),
    addr: Addr,
    image: &[u8],
) -> Result<(), ImageCause>
    requires name { blank.name ≡ L.name }
    requires parts { blank.parts ≡ L.parts }
    requires four { blank.parts ≡ 4 }
    requires records { AreRecords M.seen M.is_clean taken_up.1 taken_up.0.history }
{
    let (live, store) = taken_up;
    // Pieces are committed as they fill the memory, and the last ones at the end.
    let policy = CommitPolicy {
        always: false,
        every: Duration::from_secs(1),
        least_log: usize::MAX,
    };
    let (mut durable, seats) = DurableArray::<'s, D, L, M, R>::resume(
        rt, alloc, blank, live, None, store, policy,
    );
    let mut seats = seats;
    let done = match seats.get_mut(usize::from(addr.host.number())) {
        Some(seat) => fill_unit(alloc, &mut durable, seat, addr, image),
        None => Err(ImageCause::NoUnit),
    };
    drop(durable);
    done
}

// Creates a unit, unless it is there, and writes an image to it.
fn fill_unit<'a, D: Disk + Drop, L: Ledger, M: Media, R: Clock + Log>(
    alloc: Global,
    durable: &mut DurableArray<'a, D, L, M, R>,
    seat: &mut Seat<L>,
    addr: Addr,
    image: &[u8],
) -> Result<(), ImageCause> {
    if durable.array().sectors(addr).is_none() {
        let sectors = u32::try_from(image.len() / SECTOR_LEN).unwrap_or(u32::MAX);
        let outcome = durable.make(addr, sectors);
        if let OutcomeOf::Make(Err(refusal)) = &outcome {
            return Err(ImageCause::Refused(*refusal));
        }
    }
    write_pieces(alloc, durable, seat, addr.lun, image)
}

// Writes an image piece by piece.
fn write_pieces<'a, D: Disk + Drop, L: Ledger, M: Media, R: Clock + Log>(
    alloc: Global,
    durable: &mut DurableArray<'a, D, L, M, R>,
    seat: &mut Seat<L>,
    lun: u8,
    image: &[u8],
) -> Result<(), ImageCause> {
    make_ready(durable, seat, lun)?;
    let mut lba: u32 = 0;
    for piece in image.chunks(PIECE as usize * SECTOR_LEN) {
        let count = u32::try_from(piece.len() / SECTOR_LEN).unwrap_or(u32::MAX);
        let block = command_block(WRITE_10, lba, count);
        let data = Bytes::copy_from_slice(alloc, piece).map_err(|_| ImageCause::NoMemory)?;
        write_piece(durable, seat, lun, block, data)?;
        lba = lba.saturating_add(count);
    }
    if durable.commit() {
        Ok(())
    } else {
        Err(ImageCause::Commit)
    }
}

// Has a unit report what it has to report before it takes a WRITE.
fn make_ready<'a, D: Disk + Drop, L: Ledger, M: Media, R>(
    durable: &mut DurableArray<'a, D, L, M, R>,
    seat: &mut Seat<L>,
    lun: u8,
) -> Result<(), ImageCause> {
    let block = command_block(TEST_UNIT_READY, 0, 0);
    for _ in 0..ATTEMPTS {
        let reply = durable.host(seat, lun, block, Bytes::new());
        if !is_attention(&reply) {
            return done(&reply);
        }
    }
    Err(ImageCause::Failed)
}

// Writes one piece.
fn write_piece<'a, D: Disk + Drop, L: Ledger, M: Media, R: Clock + Log>(
    durable: &mut DurableArray<'a, D, L, M, R>,
    seat: &mut Seat<L>,
    lun: u8,
    block: [u8; 16],
    data: Bytes,
) -> Result<(), ImageCause> {
    let reply = durable.host(seat, lun, block, data);
    done(&reply)?;
    if durable.settle(&block, &reply) {
        Ok(())
    } else {
        Err(ImageCause::Commit)
    }
}

// Whether a command was done, or why not.
fn done(reply: &Reply) -> Result<(), ImageCause> {
    match reply.status {
        Status::Good => Ok(()),
        _ => Err(failed(reply)),
    }
}

// Why a command has failed.
fn failed(reply: &Reply) -> ImageCause {
    match reply.status {
        Status::Busy => ImageCause::NoMemory,
        _ => ImageCause::Failed,
    }
}

fn is_attention(reply: &Reply) -> bool {
    match &reply.sense {
        Some(sense) => sense[2] == UNIT_ATTENTION,
        None => false,
    }
}

// A command block of ten bytes (SBC-2, READ (10) and WRITE (10) commands). No piece has 65,536 sectors.
fn command_block(code: u8, lba: u32, count: u32) -> [u8; 16] {
    let [a, b, c, d] = lba.to_be_bytes();
    let [_, _, high, low] = count.to_be_bytes();
    [code, 0, a, b, c, d, 0, high, low, 0, 0, 0, 0, 0, 0, 0]
}
