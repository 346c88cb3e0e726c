// The faults of a line. Those of its bytes end the conversation, the others don't.
use crate::rig::{Play, Row, plays};
use ar_conversation::OperatorEnd;
use std::alloc::Global;
use std::process::Abort;

#[test]
fn faulty_lines(rt: HostRuntime) {
    plays(
        &rt,
        rt.alloc(),
        Play::Rows(&[
            // No answer.
            (b"\n# a  comment \n#\n", b""),
            (b"x\nhealth\n", b"fault: unknown word\nwhole\n"),
            (
                b"Health\nsession\n",
                b"fault: unknown word\nfault: unknown word\n",
            ),
            (b"make 0 0\n", b"fault: bad argument\n"),
            (
                b"health \n health\nmake  0 0 4\n",
                b"fault: bad argument\nfault: bad argument\nfault: bad argument\n",
            ),
            (
                b"stop now\nhelp 1\ncounts 0\nsessions 0\n",
                b"fault: bad argument\nfault: bad argument\nfault: bad argument\nfault: bad argument\n",
            ),
            (
                b"usage 0\nunits 0 0\ndisks 0\nversion 1\n",
                b"fault: bad argument\nfault: bad argument\nfault: bad argument\nfault: bad argument\n",
            ),
            (
                b"fail\nfail 0\nfail 0 x\nfail 256 1\n",
                b"fault: bad argument\nfault: bad argument\nfault: bad argument\nfault: bad argument\n",
            ),
            (
                b"fail 0 off off\nfail 0 12345678901\nfail 0 1 1 1 1 1 1 1 1\n",
                b"fault: bad argument\nfault: bad argument\nfault: bad argument\n",
            ),
            // A host's words, with arguments or without.
            (
                b"read 0 0 0 1\nread\nwrite\ncdb\n",
                b"fault: not an operator's word\n\
                fault: not an operator's word\n\
                fault: not an operator's word\n\
                fault: not an operator's word\n",
            ),
            (
                b"tur 0 0\ninquiry\ncapacity\nread16\nwrite16\n",
                b"fault: not an operator's word\n\
                fault: not an operator's word\n\
                fault: not an operator's word\n\
                fault: not an operator's word\n\
                fault: not an operator's word\n",
            ),
            (
                b"unmap 0 0 0 1\nunmap\nblock 0 0 0\n",
                b"fault: not an operator's word\n\
                fault: not an operator's word\n\
                fault: not an operator's word\n",
            ),
            (b"", b""),
        ]),
    );
}

#[test]
fn cut_lines(rt: HostRuntime) {
    let alloc = rt.alloc();
    for (input, wanted) in [
        // The front of `out 11`, after a look.
        (&b"health\nout 1"[..], &b"whole\nfault: cut line\n"[..]),
        (b"health", b"fault: cut line\n"),
        (b"# a comment", b"fault: cut line\n"),
        (b"\r", b"fault: cut line\n"),
        (b"\n\nsto", b"fault: cut line\n"),
    ] {
        let row: Row<'_> = (input, wanted);
        plays(&rt, alloc, Play::To(row, OperatorEnd::CutLine, usize::MAX));
    }
}

#[test]
fn a_cut_answer_to_a_cut_line(rt: HostRuntime) {
    let row: Row<'_> = (b"out 1", b"fault: cu");
    plays(&rt, rt.alloc(), Play::To(row, OperatorEnd::Write, 9));
}

#[test]
fn bad_characters(rt: HostRuntime) {
    let alloc = rt.alloc();
    for input in [
        &b"health\r\nhealth\n"[..],
        b"\t\nhealth\n",
        b"#\x7F\nhealth\n",
        b"h\xC3\xA4\nhealth\n",
        b"\0\nhealth\n",
        b"POST / HTTP/1.1\r\nHost: 127.0.0.1\r\n\r\nout 0\nout 1\n",
    ] {
        let row: Row<'_> = (input, b"fault: bad character\n");
        plays(&rt, alloc, Play::To(row, OperatorEnd::BadLine, usize::MAX));
    }
}

// A line of `count` times `byte` and then `last`, and another line.
fn long_line(
    rt: &impl Abort,
    alloc: Global,
    byte: u8,
    count: usize,
    last: &[u8],
    (wanted, end): (&[u8], OperatorEnd),
) {
    let mut input = vec![in alloc; byte; count].expect(rt, "memory");
    input.extend_from_slice(last).expect(rt, "memory");
    input.extend_from_slice(b"\nhealth\n").expect(rt, "memory");
    let row: Row<'_> = (input.as_slice(), wanted);
    plays(rt, alloc, Play::To(row, end, usize::MAX));
}

#[test]
fn long_lines(rt: HostRuntime) {
    let alloc = rt.alloc();
    let too_long = (&b"fault: line too long\n"[..], OperatorEnd::BadLine);
    let bad_character = (&b"fault: bad character\n"[..], OperatorEnd::BadLine);
    for (byte, count, last, wanted) in [
        (b'#', 4_096, &b""[..], (&b"whole\n"[..], OperatorEnd::End)),
        (b'#', 4_097, b"", too_long),
        (
            b'x',
            4_096,
            b"",
            (b"fault: unknown word\nwhole\n", OperatorEnd::End),
        ),
        (b'x', 100_000, b"", too_long),
        // A bad character is reported among the first 4,096 bytes alone.
        (b'#', 4_095, b"\r", bad_character),
        (b'#', 4_096, b"\r", too_long),
        (b'\r', 100_000, b"", bad_character),
    ] {
        long_line(&rt, alloc, byte, count, last, wanted);
    }
}
