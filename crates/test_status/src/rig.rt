// An array that stands still, and connections to it.
use ar_latency::{CommandLatencies, LatencyCounters};
use ar_status::{
    ArrayCounters, ArrayHealth, ArrayInventory, ArrayName, ArrayStatus, DiskCounters, DiskList,
    DiskUsage, EventKind, HostCounters, HostSession, InitiatorSession, Look, MaintenanceSteps,
    OperationCounters, RecentEvent, RecentEvents, RecentSamples, RefusedLogins, ReplyCounters,
    Sample, SectorUsage, SessionNumbers, UnitUsage, Watched, serve_named,
};
use std::alloc::{AllocError, Global};
use std::hash::RandomState;
use std::io::Write;
use std::process::Abort;
use std::{io, str};

/// The picture of the array.
pub const PICTURE: &[u8] = b"<svg xmlns='http://www.w3.org/2000/svg'/>\n";

/// An array that always looks the same or, without memory, can't be looked at.
#[derive(Drop)]
pub struct Still {
    pub status: ArrayStatus,
    pub has_memory: bool,
}

impl Watched for Still {
    ghost shows = { λ _ _ _ _. Unit {0} };

    fn look(&self, alloc: Global, draws: bool, lists: bool) -> Result<Look, AllocError> {
        if !self.has_memory {
            return Err(AllocError);
        }
        let picture = if draws { PICTURE } else { b"" };
        Ok(Look {
            status: self.status,
            picture: picture.to_vec(alloc)?,
            inventory: if lists { Some(inventory(alloc)?) } else { None },
        })
    }
}

// An inventory with a unit that initiators see and one that they don't, a disk of each kind, and a session of each.
fn inventory(alloc: Global) -> Result<ArrayInventory, AllocError> {
    Ok(ArrayInventory {
        usage: SectorUsage {
            room_sectors: 36,
            mirrored_sectors: 1,
            parity_sectors: 2,
            unwritten_sectors: u64::MAX,
        },
        units: vec![in alloc;
            unit(0, 0, Some(String::from_str(alloc, "0A0B0C0D0000")?)),
            unit(3, 7, None),
        ]?,
        disks: vec![in alloc;
            disk(0, "in use", None, None),
            disk(1, "rebuilding", Some(12), Some(42)),
            disk(2, "rebuilding", Some(0), None),
        ]?,
        host_sessions: vec![in alloc;
            host_session(0, None, 21, [22, 23]),
            host_session(3, Some(41205), u64::MAX, [0, 0]),
        ]?,
        iscsi_sessions: vec![in alloc;
            session(
                1,
                Some(0),
                Some(41204),
                String::from_str(alloc, "iqn.2026-11.example:a")?
            ),
            session(2, None, None, String::from_str(alloc, "?")?),
        ]?,
    })
}

fn host_session(host: u8, peer_port: Option<u16>, commands: u64, bytes: [u64; 2]) -> HostSession {
    let [read_bytes, written_bytes] = bytes;
    HostSession {
        host,
        peer_port,
        commands,
        read_bytes,
        written_bytes,
    }
}

fn unit(host: u8, lun: u8, serial_number: Option<String>) -> UnitUsage {
    UnitUsage {
        host,
        lun,
        serial_number,
        sectors: 24,
        blocks: 12,
        written_blocks: 4,
        cached_blocks: 3,
    }
}

fn disk(
    disk: u8,
    state: &'static str,
    extents_rebuilt: Option<u16>,
    seconds_left: Option<u64>,
) -> DiskUsage {
    DiskUsage {
        disk,
        state,
        extents_used: 5,
        accesses: 31,
        errors: 2,
        extents_rebuilt,
        seconds_left,
    }
}

fn session(
    number: u64,
    host: Option<u8>,
    peer_port: Option<u16>,
    initiator: String,
) -> InitiatorSession {
    InitiatorSession {
        number,
        host,
        peer_port,
        initiator,
    }
}

/// An array of five disks of 64 extents in this health, after two events.
pub fn array_in(health: ArrayHealth) -> Still {
    let mut events = RecentEvents::new();
    events.add(RecentEvent {
        seconds: 7,
        kind: EventKind::DiskFailed { disk: 3 },
    });
    events.add(RecentEvent {
        seconds: 60,
        kind: EventKind::DiskReplaced { disk: 3 },
    });
    let status = ArrayStatus {
        name: ArrayName::of(b"the \"first\""),
        uptime_seconds: 61,
        health,
        lost_disks: None,
        disks: 5,
        spares: 2,
        extents: 64,
        extent_rows: 2,
        disk_counters: disks(),
        free_groups: 7,
        block_bytes: 1024,
        room_blocks: 18,
        unit_sectors: units(),
        cached_blocks: 10,
        history_entries: 9,
        history_bytes: 4096,
        store: None,
        hosts: hosts(),
        latencies: latencies(),
        sessions: SessionNumbers {
            hosts: [true, false, false, false],
            discovery: 2,
        },
        refused_logins: RefusedLogins {
            iscsi: 15,
            operators: 16,
        },
        counters: ArrayCounters {
            promotions: 11,
            squeezes: 12,
            cache_hits: 13,
            destages: u64::MAX,
            discards: 14,
        },
        steps: MaintenanceSteps {
            flush: 1,
            demote: 2,
            clean: 3,
            balance: 4,
            rebuild: 5,
        },
        events,
        samples: samples(),
    };
    Still {
        status,
        has_memory: true,
    }
}

// A spell in which hosts read, and one in which they did nothing.
fn samples() -> RecentSamples {
    let mut samples = RecentSamples::new();
    samples.add(Sample {
        seconds: 55,
        spell: 5,
        commands: 6,
        bytes: 7,
        slowest: Some(11),
    });
    samples.add(Sample {
        seconds: 61,
        spell: 6,
        commands: 0,
        bytes: 0,
        slowest: None,
    });
    samples
}

// Commands of three operations. One took the longest time that there is.
fn latencies() -> CommandLatencies {
    CommandLatencies {
        read: LatencyCounters {
            buckets: [1, 2, 3, 4, 5, 6, 7, 8, 9, 10, 11, 12],
            sum_micros: 1_000_023,
        },
        write: LatencyCounters {
            buckets: [0; 12],
            sum_micros: 0,
        },
        synchronize_cache: LatencyCounters {
            buckets: [0, 0, 0, 0, 0, 0, 0, 0, 0, 0, 0, 1],
            sum_micros: u64::MAX,
        },
        other: LatencyCounters {
            buckets: [7, 0, 0, 0, 0, 0, 0, 0, 0, 0, 0, 0],
            sum_micros: 70,
        },
    }
}

// Two disks that were accessed, and one after the last.
fn disks() -> DiskList {
    let none = DiskCounters {
        accesses: 0,
        errors: 0,
    };
    let mut list = [none; 12];
    list[0] = DiskCounters {
        accesses: u64::MAX,
        errors: 0,
    };
    list[4] = DiskCounters {
        accesses: 31,
        errors: 2,
    };
    list[5] = DiskCounters {
        accesses: 99,
        errors: 99,
    };
    DiskList::new(list, 5)
}

// The first unit of all, and the last one, as long as one may be.
fn units() -> [[Option<u32>; 8]; 4] {
    let mut units = [[None; 8]; 4];
    units[0][0] = Some(24);
    units[3][7] = Some(u32::MAX);
    units
}

fn hosts() -> [HostCounters; 4] {
    [
        counters(1, 2, 3, 100),
        counters(0, 0, 0, 0),
        counters(u64::MAX, 7, 8, 200),
        counters(4, 5, 6, 300),
    ]
}

fn counters(commands: u64, read_bytes: u64, written_bytes: u64, replies: u64) -> HostCounters {
    HostCounters {
        commands,
        read_bytes,
        written_bytes,
        replies: OperationCounters {
            test_unit_ready: replies_from(replies),
            inquiry: replies_from(replies.saturating_add(10)),
            read_capacity: replies_from(replies.saturating_add(20)),
            read: replies_from(replies.saturating_add(30)),
            write: replies_from(replies.saturating_add(40)),
            other: replies_from(replies.saturating_add(50)),
        },
    }
}

// Three numbers in a row.
fn replies_from(first: u64) -> ReplyCounters {
    ReplyCounters {
        good: first,
        check_condition: first.saturating_add(1),
        busy: first.saturating_add(2),
    }
}

/// A response that is wanted.
#[derive(Clone, Copy)]
pub struct Wanted<'a> {
    /// The status code and its phrase.
    pub code: &'a str,
    pub media_type: &'a str,
    /// The fields after `connection`, each with its CR LF.
    pub more: &'a str,
    pub body: &'a str,
}

impl Wanted<'_> {
    // The response to GET, or to HEAD.
    fn text(&self, alloc: Global, is_head: bool) -> io::Result<Vec<u8>> {
        let mut out = Vec::new(alloc);
        let (code, media_type, more) = (self.code, self.media_type, self.more);
        write!(out, "HTTP/1.1 {code}\r\ncontent-type: {media_type}\r\n")?;
        write!(
            out,
            "cache-control: no-store\r\nconnection: close\r\n{GUARDS}{more}"
        )?;
        let len = self.body.len();
        write!(out, "content-length: {len}\r\n\r\n")?;
        if !is_head {
            out.write_all(self.body.as_bytes())?;
        }
        Ok(out)
    }
}

/// The fields of each response that keep pages of other sites away.
const GUARDS: &str = "\
x-content-type-options: nosniff\r\ncontent-security-policy: frame-ancestors 'none'\r\n\
cross-origin-resource-policy: same-origin\r\n";

/// The name by which requests ask for the server.
const NAME: Option<&str> = Some("h");

/// Asserts that a request has this response.
pub fn responds(
    rt: &impl Abort,
    alloc: Global,
    keys: RandomState,
    watched: &Still,
    request: &[u8],
    wanted: Wanted<'_>,
) {
    let is_head = request.starts_with(b"HEAD");
    let text = wanted.text(alloc, is_head).expect(rt, "memory");
    sends(rt, alloc, keys, watched, request, text.as_slice());
}

/// Asserts that the response to a request has this text.
pub fn shows(
    rt: &impl Abort,
    alloc: Global,
    keys: RandomState,
    watched: &Still,
    request: &[u8],
    wanted: &str,
) {
    let mut reader = request;
    let mut out = Vec::new(alloc);
    let done = serve_named(alloc, keys, NAME, watched, &mut reader, &mut out).is_ok();
    assert!(rt; done, "{request:?} failed");
    let sent = str::from_utf8(&out).expect(rt, "text");
    assert!(rt;
        sent.contains(wanted),
        "{request:?}: {sent}, without {wanted}"
    );
}

/// Asserts that a connection sends these bytes.
pub fn sends(
    rt: &impl Abort,
    alloc: Global,
    keys: RandomState,
    watched: &Still,
    request: &[u8],
    wanted: &[u8],
) {
    let mut reader = request;
    let mut out = Vec::new(alloc);
    let done = serve_named(alloc, keys, NAME, watched, &mut reader, &mut out).is_ok();
    assert!(rt; done, "{request:?} failed");
    let (sent, wanted) = (str::from_utf8(&out), str::from_utf8(wanted));
    assert!(rt; sent == wanted, "{request:?}: {sent:?}");
}
