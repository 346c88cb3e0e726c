// A conversation with a device server, cut off after each of its bytes: what was whole is answered, and nothing else
// is given to the port.
ghost use Rattle.std.specs.Prelude.{◌≡◌, false};

use crate::fake::Fake;
use crate::pdus;
use crate::sessions::{ends, joined, wrote};
use ar_frames::{MemSink, MemSource};
use ar_iscsi::{FeatureEnd, IscsiEnd, LoginEnd, ReceiveEnd, serve_target};
use ar_target::{Attributes, DeviceServer};
use std::alloc::Global;
use std::process::Abort;

// What an initiator sends, its answer, and then how many commands the port was given, with how many bytes of data. The
// device server looks for a unit before it reports a new session, and before it returns a page; it asks for the
// capacity before it returns mode data.
type Exchange<'a> = (&'a [&'a [u8]], &'a [&'a [u8]], usize, usize);

const ALL: &[u8] = &[0xA5; 1024];

const READ_BYTES: &[u8] = &[0x5A; 512];

static EXCHANGES: [Exchange; 8] = [
    (&[pdus::LOGIN], &[pdus::LOGGED_IN], 0, 0),
    (&[pdus::READY], &[pdus::NEW_SESSION], 1, 0),
    (&[pdus::SERIAL], &[pdus::SERIAL_IN], 2, 0),
    (&[pdus::SERVED_WRITE], &[pdus::SERVED_R2T], 2, 0),
    (&[pdus::SERVED_READ], &[], 2, 0),
    (
        &[pdus::SERVED_DATA_HEAD, ALL],
        &[
            pdus::SERVED_WRITTEN,
            pdus::SERVED_READ_HEAD_0,
            READ_BYTES,
            pdus::SERVED_READ_HEAD_1,
            READ_BYTES,
            pdus::SERVED_READ_DONE,
        ],
        4,
        1024,
    ),
    (&[pdus::MODE], &[pdus::MODE_IN], 5, 1024),
    (&[pdus::SERVED_LOGOUT], &[pdus::SERVED_LOGGED_OUT], 5, 1024),
];

#[test]
fn a_conversation_is_cut_at_each_byte(rt: HostRuntime) {
    let alloc = rt.alloc();
    let mut before = Vec::new(alloc);
    let mut answered = Vec::new(alloc);
    let mut counts = (0, 0);
    for (number, exchange) in EXCHANGES.iter().enumerate() {
        let (sent, answer, given, bytes) = *exchange;
        let sent = joined(&rt, alloc, sent);
        for len in 0..sent.len() {
            let part = joined(&rt, alloc, &[&before, &sent[..len]]);
            cut(&rt, alloc, part, end_of(number, len), &answered, counts);
        }
        append(&rt, &mut before, &sent);
        append(&rt, &mut answered, &joined(&rt, alloc, answer));
        counts = (given, bytes);
    }
    let whole = IscsiEnd::Feature(FeatureEnd::LoggedOut);
    cut(&rt, alloc, before, whole, &answered, counts);
    drop(answered);
}

fn append(rt: &impl Abort, all: &mut Vec<u8>, piece: &[u8]) {
    all.extend_from_slice(piece).expect(rt, "memory");
}

// How a session ends of whose exchange `number` came `len` bytes.
fn end_of(number: usize, len: usize) -> IscsiEnd {
    let reason = if len == 0 {
        ReceiveEnd::End
    } else {
        ReceiveEnd::Cut
    };
    if number == 0 {
        IscsiEnd::Login(LoginEnd::Unread(reason))
    } else {
        IscsiEnd::Feature(FeatureEnd::Unread(reason))
    }
}

// A device server of array 0CBCh, with a cache and blocks of 128 sectors.
fn device_server(alloc: Global) -> DeviceServer<Fake>
    ensures { result.port.taken ≡ false }
{
    DeviceServer::new(
        alloc,
        Fake::new(alloc),
        Attributes {
            array: 3260,
            host: 0,
            write_back: true,
            block_sectors: 128,
        },
    )
}

// Serves a session over these bytes, and compares its end, what it wrote, and what the port was given.
fn cut(
    rt: &impl Abort,
    alloc: Global,
    input: Vec<u8>,
    end: IscsiEnd,
    output: &[u8],
    counts: (usize, usize),
) {
    let mut reader = MemSource::new(input);
    let mut writer = MemSink::new(vec![in alloc; 0; 8192].expect(rt, "memory"));
    let mut server = device_server(alloc);
    let address = b"127.0.0.1:3260";
    let ended = serve_target(alloc, &mut reader, &mut writer, &mut server, address);
    ends(rt, ended, end);
    wrote(rt, writer.written(), output);
    let port = server.into_port();
    assert!(rt;
        (port.given, port.bytes) == counts,
        "{} commands, {} bytes",
        port.given,
        port.bytes
    );
}
