// The answer to a PDU, as it is kept until it is sent: whole PDUs. The data of a READ aren't copied between them: they
// stay in the reply's payload, and are cut into the other bytes where they are sent.
//
//     bytes    | header | padding, header | padding, SCSI Response |
//     carried           |    data         |    data                |
ghost use Rattle.std.specs.Prelude.{◌≡◌, ◌<◌, ◌≤◌, ◌++◌, ◌^◌, [], IfNone, IfOk, IfSome, OnOk, length};
ghost use Rattle.std.specs.Prelude.{slice_index_or};
ghost use Rattle.ar_frames.specs.Stream.{Sending};
ghost use Rattle.ar_iscsi.specs.Answer.{AreCut, PutsCut, no_cut, woven};
ghost use Rattle.ar_iscsi.specs.Digest.{sent_by};
ghost use Rattle.ar_iscsi.specs.Reply.{PutsDataIn};
ghost use Rattle.ar_iscsi.specs.Response.{target_pdu};

use crate::digest::{CrcTable, Digests};
use crate::response::{SequenceNumbers, TargetPdu, put_padding, put_pdu, target_header};
use ar_frames::{Sent, Sink, send_parts};
use bytes::Bytes;
use std::alloc::{AllocError, Global};
use std::marker::Model;

/// Whole PDUs that answer one of the initiator.
#[derive(Drop)]
pub struct Answer {
    // All but the data of Data-In PDUs.
    bytes: Vec<u8>,
    // Those data.
    carried: Bytes,
    // Where they are cut into the bytes, in order.
    cuts: Vec<Cut>,
}

/// A place among the bytes of an answer.
#[derive(Clone, Copy, Debug, PartialEq, Eq)]
pub(crate) struct Cut {
    /// The number of bytes after the place before it.
    pub front: usize,
    /// The number of data here.
    pub len: usize,
}

impl Model for Answer {
    ghost use Rattle.std.specs.Prelude.{ℕ, List};
    ghost use Rattle.ar_iscsi.specs.Answer.{AreCut, woven};

    ghost Value = { List ℕ };

    ghost view = { λ answer. woven answer.cuts.items answer.bytes.items answer.carried };

    ghost invariant = { λ answer. AreCut answer.cuts.items answer.bytes.items answer.carried };
}

impl Answer {
    /// An empty answer.
    pub fn new(alloc: Global) -> Answer
        ensures { result ≡ [] }
    {
        Answer {
            bytes: Vec::new(alloc),
            carried: Bytes::new(),
            cuts: Vec::new(alloc),
        }
    }

    /// Empties the answer, and releases its data.
    pub fn clear(&mut self)
        ensures { self.new ≡ [] }
    {
        self.bytes.clear();
        self.carried = Bytes::new();
        self.cuts.clear();
    }

    /// Appends a whole PDU. `Err` if the allocation fails; the answer is then unspecified.
    pub fn put(
        &mut self,
        pdu: TargetPdu,
        numbers: SequenceNumbers,
        segment: &[u8],
    ) -> Result<(), AllocError>
        requires { length segment.now < 2 ^ 24 }
        ensures { OnOk result (self.new ≡ self.old ++ target_pdu pdu numbers segment.now) }
    {
        match put_pdu(&mut self.bytes, pdu, numbers, segment) {
            Ok(()) => Ok(()),
            Err(error) => {
                self.cuts.clear();
                Err(error)
            }
        }
    }

    /// Makes an empty answer Data-In PDUs of at most `most` bytes of these data each, and returns how many they are.
    /// `Err` if the allocation fails; the answer is then unspecified.
    pub fn put_data_in(
        &mut self,
        task_tag: u32,
        numbers: SequenceNumbers,
        most: u32,
        carried: Bytes,
    ) -> Result<u32, AllocError>
        requires some { 0 < most }
        requires short { most < 2 ^ 24 }
        requires fits { length carried < 2 ^ 32 }
        requires empty { self.old ≡ [] }
        ensures { IfOk result (λ count. PutsDataIn task_tag numbers most carried count self.old self.new) }
    {
        self.bytes.clear();
        self.cuts.clear();
        let data = carried.as_slice();
        match cut_data_in(
            &mut self.bytes,
            &mut self.cuts,
            task_tag,
            numbers,
            most,
            data,
        ) {
            Ok(count) => {
                self.carried = carried;
                Ok(count)
            }
            Err(error) => {
                self.cuts.clear();
                Err(error)
            }
        }
    }

    /// Sends the answer with these digests. None: memory for it ran out, and nothing was written.
    pub(crate) fn send_with<W: Sink>(
        &self,
        alloc: Global,
        writer: &mut W,
        digests: Digests,
        table: &CrcTable,
    ) -> Option<Sent>
        ensures sent { IfSome result (λ sent. Sending (W.state writer.old) (W.state writer.new)
            (sent_by digests self.now) sent) }
        ensures same { IfNone result (W.state writer.new ≡ W.state writer.old) }
    {
        if digests.is_plain() {
            return Some(self.send(writer));
        }
        match self.joined(alloc) {
            Ok(pdus) => table.send(alloc, writer, digests, &pdus),
            Err(_) => None,
        }
    }

    // Sends the answer; each PDU with data by one call, if the stream takes it whole.
    fn send<W: Sink>(&self, writer: &mut W) -> Sent
        ensures { Sending (W.state writer.old) (W.state writer.new) self.now result }
    {
        send_woven(writer, &self.cuts, &self.bytes, self.carried.as_slice())
    }

    // A copy of the answer in one piece.
    fn joined(&self, alloc: Global) -> Result<Vec<u8>, AllocError>
        ensures { IfOk result (λ all. all.items ≡ self.now) }
    {
        join(alloc, &self.cuts, &self.bytes, self.carried.as_slice())
    }
}

// Appends Data-In PDUs of at most `most` bytes each, without their data.
fn cut_data_in(
    bytes: &mut Vec<u8>,
    cuts: &mut Vec<Cut>,
    task_tag: u32,
    numbers: SequenceNumbers,
    most: u32,
    carried: &[u8],
) -> Result<u32, AllocError>
    requires some { 0 < most }
    requires short { most < 2 ^ 24 }
    requires fits { length carried.now < 2 ^ 32 }
    requires empty { bytes.old.items ≡ [] }
    requires uncut { cuts.old.items ≡ [] }
    ensures puts { IfOk result (λ count. PutsDataIn task_tag numbers most carried.now count []
        (woven cuts.new.items bytes.new.items carried.now)) }
    ensures cut { OnOk result (AreCut cuts.new.items bytes.new.items carried.now) }
{
    let mut count = 0;
    let mut at = 0;
    let mut marked = 0;
    while at < carried.len() {
        let end = carried.len().min(at + most as usize);
        let pdu = TargetPdu::DataIn {
            task_tag,
            data_sn: count,
            offset: at as u32,
        };
        marked = put_cut(bytes, cuts, marked, pdu, numbers, end - at)?;
        at = end;
        count += 1;
    }
    Ok(count)
}

// Appends a PDU without its `len` bytes of data, and returns where they belong. The data before belong at `marked`.
fn put_cut(
    bytes: &mut Vec<u8>,
    cuts: &mut Vec<Cut>,
    marked: usize,
    pdu: TargetPdu,
    numbers: SequenceNumbers,
    len: usize,
) -> Result<usize, AllocError>
    requires within { marked ≤ length bytes.old.items }
    requires short { len < 2 ^ 24 }
    ensures { IfOk result (λ place. PutsCut pdu numbers len bytes.old.items bytes.new.items cuts.old.items
        cuts.new.items marked place) }
{
    bytes.extend_from_slice(&target_header(pdu, numbers, len as u32))?;
    let place = bytes.len();
    put_padding(bytes, len)?;
    cuts.push(Cut {
        front: place - marked,
        len,
    })?;
    Ok(place)
}

// Sends bytes with the data that are cut into them. The bytes behind the last data go with these.
fn send_woven<W: Sink>(writer: &mut W, cuts: &[Cut], bytes: &[u8], carried: &[u8]) -> Sent
    requires { AreCut cuts.now bytes.now carried.now }
    ensures { Sending (W.state writer.old) (W.state writer.new) (woven cuts.now bytes.now carried.now) result }
{
    let last = cuts.len().saturating_sub(1);
    let mut i = 0;
    let mut from = 0;
    let mut at = 0;
    while i < last {
        let cut = cut_at(cuts, i);
        let front = from + cut.front;
        let end = at + cut.len;
        match send_parts(writer, &bytes[from..front], &carried[at..end], &[]) {
            Sent::Whole => {
                i += 1;
                from = front;
                at = end;
            }
            Sent::Part(n) => return Sent::Part(from + at + n),
        }
    }
    let cut = cut_at(cuts, i);
    let front = from + cut.front;
    let end = at + cut.len;
    match send_parts(
        writer,
        &bytes[from..front],
        &carried[at..end],
        &bytes[front..],
    ) {
        Sent::Whole => Sent::Whole,
        Sent::Part(n) => Sent::Part(from + at + n),
    }
}

// Place number `i`, or after the last one a place for no data.
fn cut_at(cuts: &[Cut], i: usize) -> Cut
    ensures { result ≡ slice_index_or cuts.now i no_cut }
{
    match cuts.get(i) {
        Some(cut) => *cut,
        None => Cut { front: 0, len: 0 },
    }
}

// Bytes with the data that are cut into them.
fn join(alloc: Global, cuts: &[Cut], bytes: &[u8], carried: &[u8]) -> Result<Vec<u8>, AllocError>
    requires { AreCut cuts.now bytes.now carried.now }
    ensures { IfOk result (λ all. all.items ≡ woven cuts.now bytes.now carried.now) }
{
    let mut all = Vec::new(alloc);
    let mut from = 0;
    let mut at = 0;
    for i in 0..cuts.len() {
        let cut = cut_at(cuts, i);
        let front = from + cut.front;
        let end = at + cut.len;
        all.extend_from_slice(&bytes[from..front])?;
        all.extend_from_slice(&carried[at..end])?;
        from = front;
        at = end;
    }
    all.extend_from_slice(&bytes[from..])?;
    Ok(all)
}
