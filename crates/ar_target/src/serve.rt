// What is done with a command: it is given to the port, or answered by what the port tells of the unit.
ghost use Rattle.std.specs.Prelude.{◌≡◌, true};
ghost use Rattle.ar_frames.specs.Frame.{IsReply};
ghost use Rattle.ar_target.specs.Request.{SuitsRequest};
ghost use Rattle.ar_target.specs.Serving as serving;

use crate::answer::{
    answer_capacity, answer_mode, answer_report, answer_sense, answer_standard, answer_verify,
    answer_vpd, refuse,
};
use crate::attributes::Attributes;
use crate::discard_port::DiscardPort;
use crate::discarding::{unmap, write_same};
use crate::flush_port::{FlushOutcome, FlushPort};
use crate::lba_status::lba_status;
use crate::luns::{list_reply, report_luns};
use crate::own_commands::{CAPACITY, INQUIRY, READY, ask, handed_on, last_block};
use crate::request::Request;
use ar_scsi::{Reply, Sense};
use bytes::Bytes;
use std::alloc::Global;

/// Does what a request asks for at the unit of `lun`, which is of this generation. `cdb` is its command block, and
/// `payload` the data that came with it, which the device server's own requests ignore.
pub(crate) fn serve<P: DiscardPort>(
    alloc: Global,
    port: &mut P,
    attributes: &Attributes,
    request: Request,
    lun: u8,
    generation: u16,
    cdb: &[u8; 16],
    payload: Bytes,
) -> Reply
    requires logged { P.has_login port.old ≡ true }
    requires suits { SuitsRequest request }
    ensures answers { serving.MeetsRequest P.commands P.flushes (record { discards = P.discards; runs = P.runs })
        attributes.now request port.old lun generation cdb.now payload result port.new }
    ensures reply { IsReply result }
    ensures stays { P.has_login port.new ≡ true }
{
    match request {
        Request::Given => port.command(lun, cdb, payload),
        Request::StandardData { len } => answer_standard(
            alloc,
            len,
            port.command(lun, cdb, payload),
        ),
        Request::Transfer(own) => port.command(lun, &own, payload),
        Request::Verify { read, compares } => {
            answer_verify(compares, payload.as_slice(), ask(port, lun, &read))
        }
        Request::InvalidAtTarget(sense) => Reply::check(sense),
        Request::InvalidAtUnit(sense) => refuse(sense, ask(port, lun, &CAPACITY)),
        Request::Vpd { page, len } => {
            answer_vpd(
                alloc,
                attributes,
                lun,
                generation,
                page,
                len,
                ask(port, lun, &INQUIRY),
            )
        }
        Request::ReportLuns { len } => report_luns(alloc, port, len),
        Request::ReportWellKnown { len } => list_reply(alloc, &[], len as usize),
        Request::ModeSense(sense) => {
            answer_mode(
                alloc,
                attributes.write_back,
                sense,
                ask(port, lun, &CAPACITY),
            )
        }
        Request::RequestSense { len } => answer_sense(alloc, len, ask(port, lun, &READY)),
        Request::LongCapacity { len } => {
            let block_sectors = attributes.block_sectors;
            answer_capacity(alloc, block_sectors, len, ask(port, lun, &CAPACITY))
        }
        Request::LbaStatus { lba, len } => {
            lba_status(alloc, port, attributes.block_sectors, lba, len, lun)
        }
        Request::Synchronize { lba, count } => synchronize(port, lun, lba, count),
        Request::Unmap { len } => {
            unmap(port, attributes.block_sectors, len, lun, payload.as_slice())
        }
        Request::WriteSame(same) => {
            let block_sectors = attributes.block_sectors;
            write_same(alloc, port, block_sectors, same, lun, payload.as_slice())
        }
        Request::StartStop | Request::SelfTest => ask(port, lun, &READY),
        Request::Report { of, len } => answer_report(alloc, of, len, ask(port, lun, &CAPACITY)),
    }
}

// SYNCHRONIZE CACHE. The whole unit is flushed, whatever part of it is asked for.
fn synchronize<P: FlushPort>(port: &mut P, lun: u8, lba: u64, count: u32) -> Reply
    requires { P.has_login port.old ≡ true }
    ensures synchronizes { serving.Synchronizes P.commands P.flushes lba count port.old lun result port.new }
    ensures reply { IsReply result }
    ensures stays { P.has_login port.new ≡ true }
{
    let own_reply = ask(port, lun, &CAPACITY);
    match last_block(&own_reply) {
        Some(last) => {
            if is_after(last, lba, count) {
                Reply::check(Sense::LOGICAL_BLOCK_ADDRESS_OUT_OF_RANGE)
            } else {
                flush_unit(port, lun)
            }
        }
        None => handed_on(own_reply),
    }
}

// Flushes a unit, and replies by the outcome.
fn flush_unit<P: FlushPort>(port: &mut P, lun: u8) -> Reply
    requires { P.has_login port.old ≡ true }
    ensures flushes { serving.FlushesAtPort P.flushes port.old lun result port.new }
    ensures reply { IsReply result }
    ensures stays { P.has_login port.new ≡ true }
{
    flush_reply(port.flush(lun))
}

// Whether `count` blocks from `lba` on, or all from there on if it is 0, aren't on a unit whose last block is `last`.
// The sum, in 128 bits, doesn't overflow.
fn is_after(last: u32, lba: u64, count: u32) -> bool
    ensures { result ≡ serving.is_after last lba count }
{
    u128::from(last) < u128::from(lba) + u128::from(count.saturating_sub(1))
}

// The reply to SYNCHRONIZE CACHE by the outcome of the flush.
fn flush_reply(outcome: FlushOutcome) -> Reply
    ensures answer { result ≡ serving.flush_reply outcome }
    ensures reply { IsReply result }
{
    match outcome {
        FlushOutcome::Done => Reply::good(Bytes::new()),
        FlushOutcome::NoUnit => Reply::check(Sense::LOGICAL_UNIT_NOT_SUPPORTED),
        FlushOutcome::ArrayFailed => Reply::check(Sense::INTERNAL_TARGET_FAILURE),
    }
}
