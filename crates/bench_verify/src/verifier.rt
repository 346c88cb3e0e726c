// A host in its session: it sends what is drawn, and judges each reply by what it knows.
ghost use Rattle.std.specs.Prelude.{◌≤◌, IfOk, vec_len};
ghost use Rattle.ar_frames.specs.Frame.{most_data};

use crate::content::{Origin, SECTOR_LEN};
use crate::draw::{draw, draw_absent};
use crate::finding::{Finding, ReplyStatus};
use crate::order::{Form, Order, Span};
use crate::shadow::Shadow;
use ar_frames::{Sink, Source, ask, hello};
use ar_scsi::Reply;
use bytes::Bytes;
use rand::RngExt;
use rand_core::SeedableRng;
use rand_xoshiro::Xoshiro256PlusPlus;
use std::alloc::Global;
use std::fmt;
use std::fmt::{Display, Formatter, Write};

/// One command in this many goes to a LUN without a unit.
const ABSENT: u32 = 256;

/// How often a host asks for a capacity before it takes a unit to be growing without end.
const GROWTHS: u32 = 16;

/// Sectors of a READ with which a unit is read back at the end.
const PIECE: u32 = 128;

/// What a host does.
#[derive(Clone, Copy, Debug)]
pub struct Plan {
    /// Units of the host, at LUNs 0 and up: 1 to 8.
    pub units: u8,
    /// The sectors that each has when the session begins. All are zero.
    pub sectors: u32,
    /// Commands that are drawn.
    pub requests: u32,
    pub seed: u64,
    /// Whether the array may fail, with all data.
    pub may_break: bool,
}

/// What a host met.
#[derive(Clone, Copy, Debug, PartialEq, Eq)]
pub struct Counts {
    /// Commands that got a reply.
    pub requests: u64,
    /// READs whose data were compared.
    pub compared: u64,
    /// Replies that the capacity has changed.
    pub attentions: u64,
    pub busy: u64,
    /// Replies that the array has failed.
    pub broken: u64,
}

impl Counts {
    pub const NONE: Counts = Counts {
        requests: 0,
        compared: 0,
        attentions: 0,
        busy: 0,
        broken: 0,
    };

    /// With those of another host.
    pub fn and(self, other: Counts) -> Counts {
        Counts {
            requests: self.requests.saturating_add(other.requests),
            compared: self.compared.saturating_add(other.compared),
            attentions: self.attentions.saturating_add(other.attentions),
            busy: self.busy.saturating_add(other.busy),
            broken: self.broken.saturating_add(other.broken),
        }
    }
}

impl Display for Counts {
    fn fmt<W: Write>(&self, f: &mut Formatter<W>) -> fmt::Result {
        let Counts {
            requests,
            compared,
            attentions,
            busy,
            broken,
        } = *self;
        write!(
            f,
            "requests {requests} compared {compared} attentions {attentions} busy {busy} broken {broken}"
        )
    }
}

/// A host in its session.
#[derive(Drop)]
pub struct Verifier<S: Source + Drop, W: Sink + Drop> {
    alloc: Global,
    host: u8,
    plan: Plan,
    reader: S,
    writer: W,
    units: Vec<Shadow>,
    draws: Xoshiro256PlusPlus,
    // The number of the last WRITE.
    write: u32,
    is_broken: bool,
    counts: Counts,
}

impl<S: Source + Drop, W: Sink + Drop> Verifier<S, W> {
    /// Logs a host in.
    pub fn log_in(
        alloc: Global,
        host: u8,
        plan: Plan,
        mut reader: S,
        mut writer: W,
    ) -> Result<Verifier<S, W>, Finding> {
        let units = units_of(alloc, host, plan)?;
        match hello(&mut reader, &mut writer, host) {
            Ok(true) => Ok(Verifier {
                alloc,
                host,
                plan,
                reader,
                writer,
                units,
                draws: Xoshiro256PlusPlus::seed_from_u64(plan.seed.wrapping_add(u64::from(host))),
                write: 0,
                is_broken: false,
                counts: Counts::NONE,
            }),
            Ok(false) => Err(Finding::Refused),
            Err(fault) => Err(Finding::Session(fault)),
        }
    }

    pub fn host(&self) -> u8 {
        self.host
    }

    /// What the host has met so far.
    pub fn counts(&self) -> Counts {
        self.counts
    }

    /// Asks for the capacity of each unit, sends the drawn commands, and reads all units back. `Err` has the first
    /// reply that is not right.
    pub fn run(&mut self) -> Result<(), Finding> {
        for lun in 0..self.plan.units {
            self.send(lun, Order::Capacity)?;
        }
        for _ in 0..self.plan.requests {
            self.send_drawn()?;
        }
        for lun in 0..self.plan.units {
            self.read_back(lun)?;
        }
        Ok(())
    }

    // Sends a command that is drawn.
    fn send_drawn(&mut self) -> Result<(), Finding> {
        if self.draws.random_range(0..ABSENT) == 0 {
            let lun = draw_absent(&mut self.draws);
            return self.send(lun, Order::TestReady);
        }
        let lun = self.draws.random_range(0..self.plan.units.max(1));
        let sectors = self.sectors(lun);
        let order = draw(&mut self.draws, sectors);
        self.send(lun, order)
    }

    // Reads a whole unit. A piece whose READ is answered otherwise is left out.
    fn read_back(&mut self, lun: u8) -> Result<(), Finding> {
        let sectors = self.sectors(lun);
        for piece in 0..sectors.div_ceil(PIECE) {
            let first = piece.saturating_mul(PIECE);
            let count = sectors.saturating_sub(first).min(PIECE);
            let span = Span {
                lba: u64::from(first),
                count: u16::try_from(count).unwrap_or(0),
            };
            let form = Form::Ten;
            self.send(lun, Order::Read { span, form })?;
        }
        Ok(())
    }

    // Sends a command, and judges the reply. BUSY is always right, and has changed nothing.
    fn send(&mut self, lun: u8, order: Order) -> Result<(), Finding> {
        let reply = self.ask(lun, order)?;
        match ReplyStatus::of(&reply) {
            ReplyStatus::Busy => {
                self.counts.busy = self.counts.busy.saturating_add(1);
                Ok(())
            }
            ReplyStatus::CHANGED if lun < self.plan.units => self.learn(lun),
            found => self.judge(lun, order, found, &reply.payload),
        }
    }

    // Judges a reply that is neither BUSY nor about a unit that has grown.
    fn judge(
        &mut self,
        lun: u8,
        order: Order,
        found: ReplyStatus,
        payload: &Bytes,
    ) -> Result<(), Finding> {
        if found == ReplyStatus::BROKEN && self.plan.may_break {
            self.is_broken = true;
        }
        let wanted = self.wanted(lun, order);
        if found != wanted {
            return Err(Finding::Reply {
                lun,
                order,
                wanted,
                found,
            });
        }
        match found {
            ReplyStatus::Good => self.settle(lun, order, payload.as_slice()),
            ReplyStatus::BROKEN => {
                self.counts.broken = self.counts.broken.saturating_add(1);
                Ok(())
            }
            _ => Ok(()),
        }
    }

    // The reply that a command has to get.
    fn wanted(&self, lun: u8, order: Order) -> ReplyStatus {
        if lun >= self.plan.units {
            return ReplyStatus::ABSENT;
        }
        match order.refusal(self.sectors(lun)) {
            Some(sense) => ReplyStatus::Check(sense),
            None if self.is_broken && order.needs_disks() => ReplyStatus::BROKEN,
            None => ReplyStatus::Good,
        }
    }

    // Compares the data of a GOOD reply, or notes what was written.
    fn settle(&mut self, lun: u8, order: Order, payload: &[u8]) -> Result<(), Finding> {
        let wanted = length_of(order);
        if payload.len() != wanted {
            return Err(Finding::Length {
                lun,
                order,
                wanted,
                found: payload.len(),
            });
        }
        match order {
            Order::Read { span, .. } => self.compare(lun, order, span, payload),
            Order::Write { span, .. } => {
                self.note(lun, span);
                Ok(())
            }
            Order::Capacity => self.compare_capacity(lun, payload),
            _ => Ok(()),
        }
    }

    fn note(&mut self, lun: u8, span: Span) {
        let write = self.write;
        if let Some(unit) = self.units.get_mut(usize::from(lun)) {
            unit.note(span, write);
        }
    }

    fn compare(
        &mut self,
        lun: u8,
        order: Order,
        span: Span,
        payload: &[u8],
    ) -> Result<(), Finding> {
        self.counts.compared = self.counts.compared.saturating_add(1);
        let Some(unit) = self.units.get(usize::from(lun)) else {
            return Ok(());
        };
        match unit.difference(span.first(), payload) {
            None => Ok(()),
            Some(mismatch) => Err(Finding::Content {
                lun,
                order,
                mismatch,
            }),
        }
    }

    fn compare_capacity(&self, lun: u8, payload: &[u8]) -> Result<(), Finding> {
        let (found, length) = capacity_in(payload);
        let wanted = self.sectors(lun).wrapping_sub(1);
        if found == wanted && length == SECTOR_LEN as u32 {
            Ok(())
        } else {
            Err(Finding::Capacity {
                lun,
                wanted,
                found,
                length,
            })
        }
    }

    // Counts that a unit has grown, and asks how large it is now. It may grow again meanwhile.
    fn learn(&mut self, lun: u8) -> Result<(), Finding> {
        self.counts.attentions = self.counts.attentions.saturating_add(1);
        for _ in 0..GROWTHS {
            let reply = self.ask(lun, Order::Capacity)?;
            match ReplyStatus::of(&reply) {
                ReplyStatus::CHANGED => self.counts.attentions = self
                    .counts
                    .attentions
                    .saturating_add(1),
                ReplyStatus::Busy => self.counts.busy = self.counts.busy.saturating_add(1),
                found => return self.learn_from(lun, found, reply.payload.as_slice()),
            }
        }
        let had = self.sectors(lun);
        Err(Finding::NotGrown {
            lun,
            had,
            found: had,
        })
    }

    fn learn_from(&mut self, lun: u8, found: ReplyStatus, payload: &[u8]) -> Result<(), Finding> {
        let order = Order::Capacity;
        if found != ReplyStatus::Good || payload.len() != length_of(order) {
            return Err(Finding::Reply {
                lun,
                order,
                wanted: ReplyStatus::Good,
                found,
            });
        }
        let had = self.sectors(lun);
        let (last, _) = capacity_in(payload);
        let sectors = last.saturating_add(1);
        if sectors <= had {
            return Err(Finding::NotGrown {
                lun,
                had,
                found: sectors,
            });
        }
        match self.units.get_mut(usize::from(lun)) {
            Some(unit) => unit.grow(sectors).map_err(|_| Finding::NoMemory)?,
            None => (),
        }
        self.compare_capacity(lun, payload)
    }

    fn sectors(&self, lun: u8) -> u32 {
        match self.units.get(usize::from(lun)) {
            Some(unit) => unit.sectors(),
            None => 0,
        }
    }

    // Sends a command with its data, and waits for the reply.
    fn ask(&mut self, lun: u8, order: Order) -> Result<Reply, Finding> {
        let data = self.data(lun, order.sent())?;
        let tag = self.counts.requests;
        self.counts.requests = tag.saturating_add(1);
        let block = order.command_block();
        ask(
            self.alloc,
            &mut self.reader,
            &mut self.writer,
            tag,
            lun,
            &block,
            data.as_slice(),
        )
        .map_err(Finding::Session)
    }

    // The content of the next WRITE, for these sectors.
    fn data(&mut self, lun: u8, span: Span) -> Result<Vec<u8>, Finding>
        ensures { IfOk result (λ bytes. vec_len bytes ≤ most_data) }
    {
        self.write = self.write.wrapping_add(1);
        let mut data = zeros(self.alloc, span.count)?;
        let first = Origin {
            host: self.host,
            lun,
            sector: span.first(),
            write: self.write,
        };
        fill(&mut data, first);
        Ok(data)
    }
}

// Fills sectors with the content of a write, the first of which is `first`.
fn fill(data: &mut [u8], first: Origin) {
    let (sectors, _) = data.as_chunks_mut::<SECTOR_LEN>();
    let mut origin = first;
    for sector in sectors {
        *sector = origin.content();
        origin.sector = origin.sector.saturating_add(1);
    }
}

// Sectors of zeros.
fn zeros(alloc: Global, count: u16) -> Result<Vec<u8>, Finding>
    ensures { IfOk result (λ bytes. vec_len bytes ≤ most_data) }
{
    let len = usize::from(count) * SECTOR_LEN;
    vec![in alloc; 0u8; len].map_err(|_| Finding::NoMemory)
}

// The units of a host, all new.
fn units_of(alloc: Global, host: u8, plan: Plan) -> Result<Vec<Shadow>, Finding> {
    let mut units = Vec::new(alloc);
    for lun in 0..plan.units {
        let unit = Shadow::new(alloc, host, lun, plan.sectors).map_err(|_| Finding::NoMemory)?;
        units.push(unit).map_err(|_| Finding::NoMemory)?;
    }
    Ok(units)
}

// The bytes of data of a GOOD reply.
fn length_of(order: Order) -> usize {
    match order {
        Order::Read { span, .. } => usize::from(span.count) * SECTOR_LEN,
        Order::Capacity => 8,
        _ => 0,
    }
}

// The last sector, and the length of sectors, that READ CAPACITY (10) returned.
fn capacity_in(payload: &[u8]) -> (u32, u32) {
    match payload {
        [a, b, c, d, e, f, g, h] => (
            u32::from_be_bytes([*a, *b, *c, *d]),
            u32::from_be_bytes([*e, *f, *g, *h]),
        ),
        _ => (0, 0),
    }
}
