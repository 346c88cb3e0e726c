// Each end of a conversation, and answers for which there is no memory.
ghost use Rattle.std.specs.Prelude.{None};

use crate::rig::{Play, Taker, is_end, plays, says};
use ar_conversation::{Controller, OperatorEnd, OperatorOrder, converse};
use ar_frames::Source;
use std::alloc::AllocError;

#[test]
fn stop_ends_it(rt: HostRuntime) {
    plays(
        &rt,
        rt.alloc(),
        Play::To(
            (b"health\nstop\nhealth\n", b"whole\n"),
            OperatorEnd::Stop,
            usize::MAX,
        ),
    );
}

#[test]
fn write_faults_end_it(rt: HostRuntime) {
    let alloc = rt.alloc();
    for (most, wanted) in [
        (0, &b""[..]),
        (3, b"who"),
        (5, b"whole"),
        (8, b"whole\nro"),
        (13, b"whole\nroom 18"),
    ] {
        plays(
            &rt,
            alloc,
            Play::To(
                (b"health\nroom\nmake 0 0 4\n", wanted),
                OperatorEnd::Write,
                most,
            ),
        );
    }
}

// Gives these bytes one by one, and faults after the last.
#[derive(Drop)]
struct Cut<'a> {
    bytes: &'a [u8],
    faults: u64,
}

impl Source for Cut<'_> {
    ghost state = { λ source. record { left = None; faults = source.faults } };

    fn read(&mut self, into: &mut [u8]) -> Option<usize> {
        if self.bytes.is_empty() {
            self.faults = self.faults.saturating_add(1);
            return None;
        }
        let count = into.len().min(1);
        into[..count].copy_from_slice(&self.bytes[..count]);
        self.bytes = &self.bytes[count..];
        Some(count)
    }

    fn faults(&self) -> u64 {
        self.faults
    }
}

// Has no memory for the answer to `help`, and leaves a part of it; counts the other orders.
#[derive(Drop)]
struct Forgetful {
    others: u64,
}

impl Controller for Forgetful {
    ghost answers = { λ old order result bytes new. Unit {0} };

    fn answer(&mut self, order: OperatorOrder, out: &mut Vec<u8>) -> Result<(), AllocError> {
        if let OperatorOrder::Help = order {
            let _ = out.push(b'm');
            return Err(AllocError);
        }
        self.others = self.others.saturating_add(1);
        out.extend_from_slice(b"ok\n")
    }
}

#[test]
fn forgotten_answers(rt: HostRuntime) {
    let mut forgetful = Forgetful { others: 0 };
    says(
        &rt,
        rt.alloc(),
        &mut forgetful,
        (b"health\nhelp\nhealth\n", b"ok\nfault: no memory\nok\n"),
        OperatorEnd::End,
    );
}

#[test]
fn read_faults_end_it(rt: HostRuntime) {
    let alloc = rt.alloc();
    let input = b"health\nhea";
    let mut reader = Cut {
        bytes: input,
        faults: 0,
    };
    let mut writer = Taker::new(alloc, usize::MAX);
    let mut forgetful = Forgetful { others: 0 };
    let ended = converse(alloc, &mut reader, &mut writer, &mut forgetful);
    is_end(&rt, input, ended, OperatorEnd::Read);
    assert!(rt; forgetful.others == 1, "the part of a line was answered");
}
