// The host's side of a session: sends the commands of a script one at a time, each after the reply to the one before.
use crate::fault::Failure;
use crate::prompt::Prompt;
use ar_answers::write_outcome;
use ar_core::OutcomeOf;
use ar_disks::Host;
use ar_frames::{AskFault, Sink, Source, ask, hello};
use ar_language::{Action, Data, FaultKind, Lines, Notation, Order, next_line, order_in};
use ar_scsi::Reply;
use std::alloc::Global;
use std::io::{BufWriter, Read, Write};

/// A session after its login.
#[derive(Drop)]
pub struct Client<S: Source + Drop, W: Sink + Drop> {
    alloc: Global,
    host: Host,
    reader: S,
    writer: W,
    /// The next command's tag.
    tag: u64,
}

/// A command and how its answer is printed.
#[derive(Clone, Copy)]
struct Asked {
    lun: u8,
    cdb: [u8; 16],
    data: Data,
    notation: Notation,
}

impl<S: Source + Drop, W: Sink + Drop> Client<S, W> {
    /// Logs a host in.
    pub fn log_in(
        alloc: Global,
        host: Host,
        mut reader: S,
        mut writer: W,
    ) -> Result<Client<S, W>, Failure> {
        match hello(&mut reader, &mut writer, host.number()) {
            Ok(true) => Ok(Client {
                alloc,
                host,
                reader,
                writer,
                tag: 1,
            }),
            Ok(false) => Err(Failure::Refused),
            Err(_) => Err(Failure::Session),
        }
    }

    /// Sends the commands of all lines, and writes the answers, and a prompt before each line. Answers are written
    /// before more input is read; the first fault ends it.
    pub fn run<R: Read + Drop, O: Write + Drop>(
        &mut self,
        input: R,
        output: O,
        prompt: Prompt,
    ) -> Result<(), Failure> {
        let Ok(mut lines) = Lines::new(self.alloc, input) else {
            return Err(Failure::at(1, FaultKind::NoMemory));
        };
        let Ok(mut out) = BufWriter::new(self.alloc, output) else {
            return Err(Failure::at(1, FaultKind::NoMemory));
        };
        let done = self.run_lines(&mut lines, &mut out, prompt);
        let flushed = out.flush();
        let (_output, _unwritten) = out.into_parts();
        match flushed {
            Ok(()) => done,
            Err(_) => Err(Failure::at(lines.number(), FaultKind::WriteFault)),
        }
    }

    fn run_lines<R: Read + Drop, O: Write + Drop>(
        &mut self,
        lines: &mut Lines<R>,
        out: &mut BufWriter<O>,
        prompt: Prompt,
    ) -> Result<(), Failure> {
        for _ in 0..u32::MAX {
            prompt
                .show(out)
                .map_err(|_| Failure::at(lines.number(), FaultKind::WriteFault))?;
            if !next_line(lines, out).map_err(Failure::Line)? {
                break;
            }
            self.answer_line(lines.number(), lines.line(), out)?;
        }
        prompt
            .end(out)
            .map_err(|_| Failure::at(lines.number(), FaultKind::WriteFault))
    }

    // Sends the command of a line, if it has one, and writes the answer.
    fn answer_line<O: Write>(
        &mut self,
        number: u32,
        line: &str,
        out: &mut O,
    ) -> Result<(), Failure> {
        let fault = |kind| Failure::at(number, kind);
        let Some(order) = order_in(line).map_err(fault)? else {
            return Ok(());
        };
        let asked = self.asked_by(number, order)?;
        let reply = self
            .ask(asked)
            .map_err(|kind| Failure::asked(number, kind))?;
        let outcome = OutcomeOf::<()>::Cmd(reply);
        write_outcome(out, &outcome, asked.notation).map_err(|_| fault(FaultKind::WriteFault))
    }

    // The command of a line. Any other word is unknown here, and another host's commands are out of range.
    fn asked_by(&self, number: u32, order: Order) -> Result<Asked, Failure> {
        let Order::Act(
            Action::Command {
                addr,
                cdb,
                data,
                notation,
            },
        ) = order
        else {
            return Err(Failure::no_command(number));
        };
        if addr.host.number() != self.host.number() {
            return Err(Failure::other_host(number));
        }
        Ok(Asked {
            lun: addr.lun,
            cdb,
            data,
            notation,
        })
    }

    // Sends a command and waits for the reply.
    fn ask(&mut self, asked: Asked) -> Result<Reply, AskFault> {
        let Asked { lun, cdb, data, .. } = asked;
        let len = data.len.min(ar_frames::MOST_DATA) as usize;
        let Ok(bytes) = vec![in self.alloc; data.byte; len] else {
            return Err(AskFault::NoMemory);
        };
        let tag = self.tag;
        self.tag = tag.wrapping_add(1);
        ask(
            self.alloc,
            &mut self.reader,
            &mut self.writer,
            tag,
            lun,
            &cdb,
            bytes.as_slice(),
        )
    }
}
