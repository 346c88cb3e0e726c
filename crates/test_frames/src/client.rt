// Replies that the client doesn't take.
use ar_frames::{AskFault, MemSink, MemSource, ask, hello};
use ar_scsi::Reply;
use std::alloc::Global;
use std::process::Abort;

// Asks TEST UNIT READY with tag 1, with these bytes as what comes back.
fn asks(rt: &impl Abort, alloc: Global, input: &[u8], fault: AskFault, left: usize) {
    let mut reader = MemSource::new(input.to_vec(alloc).expect(rt, "memory"));
    let mut writer = MemSink::new(vec![in alloc; 0; 64].expect(rt, "memory"));
    let answer = ask(alloc, &mut reader, &mut writer, 1, 0, &[0; 16], &[]);
    faults(rt, input, answer, fault);
    leaves(rt, input, reader.len(), left);
}

fn leaves(rt: &impl Abort, input: &[u8], left: usize, wanted: usize) {
    assert!(rt; left == wanted, "{left} left of {input:?}");
}

fn faults(rt: &impl Abort, input: &[u8], answer: Result<Reply, AskFault>, fault: AskFault) {
    assert!(rt; answer == Err(fault), "{answer:?} of {input:?}");
}

#[test]
fn bad_replies(rt: HostRuntime) {
    let alloc = rt.alloc();
    for (input, left) in [
        // N of 9, and one that is too large: nothing after it is read.
        (
            &b"\x00\x00\x00\x09\x00\x00\x00\x00\x00\x00\x00\x01\x00"[..],
            9,
        ),
        (b"\x01\xFF\xFE\x0B\x00\x00\x00\x00\x00\x00\x00\x01\x00", 9),
        // Status 01.
        (
            b"\x00\x00\x00\x0A\x00\x00\x00\x00\x00\x00\x00\x01\x01\x00",
            0,
        ),
        // A sense length beside status 00 and 08, and none beside 02.
        (
            b"\x00\x00\x00\x1C\x00\x00\x00\x00\x00\x00\x00\x01\x00\x12\
            \x70\x00\x05\x00\x00\x00\x00\x0A\x00\x00\x00\x00\x25\x00\x00\x00\x00\x00",
            0,
        ),
        (
            b"\x00\x00\x00\x0B\x00\x00\x00\x00\x00\x00\x00\x01\x08\x01\x70",
            0,
        ),
        (
            b"\x00\x00\x00\x0A\x00\x00\x00\x00\x00\x00\x00\x01\x02\x00",
            0,
        ),
        // Data beside status 02 and 08.
        (
            b"\x00\x00\x00\x1D\x00\x00\x00\x00\x00\x00\x00\x01\x02\x12\
            \x70\x00\x05\x00\x00\x00\x00\x0A\x00\x00\x00\x00\x25\x00\x00\x00\x00\x00\xAA",
            0,
        ),
        (
            b"\x00\x00\x00\x0B\x00\x00\x00\x00\x00\x00\x00\x01\x08\x00\xAA",
            0,
        ),
        // A bad reply of another tag is a bad reply.
        (
            b"\x00\x00\x00\x0A\x00\x00\x00\x00\x00\x00\x00\x02\x01\x00",
            0,
        ),
    ] {
        asks(&rt, alloc, input, AskFault::BadFrame, left);
    }
}

#[test]
fn other_tags_and_cut_replies(rt: HostRuntime) {
    let alloc = rt.alloc();
    for (input, fault) in [
        (
            &b"\x00\x00\x00\x0A\x00\x00\x00\x00\x00\x00\x00\x02\x00\x00"[..],
            AskFault::WrongTag,
        ),
        (
            b"\x00\x00\x00\x0A\x01\x00\x00\x00\x00\x00\x00\x01\x08\x00",
            AskFault::WrongTag,
        ),
        (b"", AskFault::Cut),
        (b"\x00\x00\x00", AskFault::Cut),
        (b"\x00\x00\x00\x0A", AskFault::Cut),
        (
            b"\x00\x00\x00\x0A\x00\x00\x00\x00\x00\x00\x00\x01\x00",
            AskFault::Cut,
        ),
        (
            b"\x00\x00\x00\x0C\x00\x00\x00\x00\x00\x00\x00\x01\x00\x00\xAA",
            AskFault::Cut,
        ),
    ] {
        asks(&rt, alloc, input, fault, 0);
    }
}

fn greets(
    rt: &impl Abort,
    alloc: Global,
    input: &[u8],
    room: usize,
    wanted: Result<bool, AskFault>,
) {
    let mut reader = MemSource::new(input.to_vec(alloc).expect(rt, "memory"));
    let mut writer = MemSink::new(vec![in alloc; 0; room].expect(rt, "memory"));
    let answer = hello(&mut reader, &mut writer, 3);
    assert!(rt; answer == wanted, "{answer:?} of {input:?}");
}

#[test]
fn greetings(rt: HostRuntime) {
    let alloc = rt.alloc();
    for (input, room, wanted) in [
        (&b"\x00"[..], 9, Ok(true)),
        (b"\x01", 9, Ok(false)),
        (b"\x02", 9, Err(AskFault::BadFrame)),
        (b"", 9, Err(AskFault::Cut)),
        (b"\x00", 8, Err(AskFault::Write)),
    ] {
        greets(&rt, alloc, input, room, wanted);
    }
}
