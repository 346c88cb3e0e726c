// The operator's side: lines go to the server as they come, and its answers to the output. Both at once, since neither
// side waits for the other. Behind the input a word is sent that no operator has: its answer, which isn't shown, says
// that all lines before it were answered.
use crate::fault::Failure;
use crate::prompt::Prompt;
use std::alloc::Global;
use std::io::{BufWriter, Read, Write};
use std::net::{Shutdown, TcpStream};
use std::sync::Arc;
use std::sync::atomic::{AtomicBool, Ordering};
use std::thread;
use std::thread::Threads;

/// The last line that is sent, and the answer to it.
const CLOSING: &[u8] = b"end-of-input\n";

const CLOSED: &[u8] = b"fault: unknown word\n";

/// How a line begins that answers a faulty line.
const FAULT: &[u8] = b"fault: ";

/// The line that answers `stop`.
const STOPPED: &[u8] = b"stopped\n";

/// Bytes that are passed on at a time.
const PIECE: usize = 4_096;

// What is looked for at the beginning of each line.
#[derive(Clone, Copy)]
struct Search {
    text: &'static [u8],
    // How many of its bytes the line so far begins with. None: the line begins otherwise.
    matched: Option<usize>,
    was_found: bool,
}

// The answers so far.
#[derive(Clone, Copy)]
struct Answers {
    // How many bytes of `CLOSED` the last line begins with, which aren't shown yet. None: it begins otherwise.
    held: Option<usize>,
    fault: Search,
    stopped: Search,
    prompt: Prompt,
}

/// Sends the input, and writes the answers, until the server closes the connection. A faulty line ends nothing, but is
/// reported at the end. A server that closes before it has answered all lines is a session fault, unless it was
/// stopped. At a terminal a prompt follows the answers that have come.
pub fn operate<R: Threads, I: Read + Send + Drop + 'static, O: Write + Drop>(
    rt: &R,
    alloc: Global,
    stream: TcpStream,
    input: I,
    output: O,
    prompt: Prompt,
) -> Result<(), Failure> {
    let stream = Arc::new(alloc, stream).map_err(|_| Failure::NoMemory)?;
    let requests = Arc::try_clone(&stream).map_err(|_| Failure::NoMemory)?;
    let is_closing = Arc::new(alloc, AtomicBool::new(false)).map_err(|_| Failure::NoMemory)?;
    let closing = Arc::try_clone(&is_closing).map_err(|_| Failure::NoMemory)?;
    // It isn't joined: where the server closes first, the rest of the input is of no use.
    let Ok(_sender) = thread::spawn(rt, move || send_all(input, &requests, &closing)) else {
        return Err(Failure::NoMemory);
    };
    let Ok(mut output) = BufWriter::new(alloc, output) else {
        return Err(Failure::NoMemory);
    };
    let mut answers = Answers::new(prompt);
    let done = answers.pass_on(&stream, &is_closing, &mut output);
    let (_output, _unwritten) = output.into_parts();
    done
}

// Sends the input to its end, or until the server takes no more, and the closing line, after it has set `is_closing`.
fn send_all<I: Read + Drop>(mut input: I, stream: &TcpStream, is_closing: &AtomicBool) {
    let mut piece = [0; PIECE];
    let mut to = stream;
    let mut last = b'\n';
    for _ in 0..u64::MAX {
        let count = match input.read(&mut piece) {
            Ok(0) | Err(_) => break,
            Ok(count) => count,
        };
        let sent = &piece[..count];
        if let Some(byte) = sent.last() {
            last = *byte;
        }
        if to.write_all(sent).is_err() {
            return;
        }
    }
    if last != b'\n' && to.write_all(b"\n").is_err() {
        return;
    }
    is_closing.store(true, Ordering::SeqCst);
    if to.write_all(CLOSING).is_ok() {
        let _ = stream.shutdown(Shutdown::Write);
    }
}

impl Answers {
    fn new(prompt: Prompt) -> Answers {
        Answers {
            held: Some(0),
            fault: Search::new(FAULT),
            stopped: Search::new(STOPPED),
            prompt,
        }
    }

    // Writes the answers to their end.
    fn pass_on<O: Write>(
        &mut self,
        stream: &TcpStream,
        is_closing: &AtomicBool,
        output: &mut O,
    ) -> Result<(), Failure> {
        self.await_line(output)?;
        let mut piece = [0; PIECE];
        let mut from = stream;
        for _ in 0..u64::MAX {
            let Ok(count) = from.read(&mut piece) else {
                return Err(Failure::Session);
            };
            if count == 0 {
                break;
            }
            for byte in &piece[..count] {
                self.pass(*byte, output)?;
            }
            // (the closing line isn't sent so far: this is the answer to another)
            if self.is_closed() && !is_closing.load(Ordering::SeqCst) {
                self.show_held(output)?;
            }
            self.await_line(output)?;
        }
        self.end(output)
    }

    // Writes what was answered so far and, if that is whole lines, the prompt.
    fn await_line<O: Write>(&mut self, output: &mut O) -> Result<(), Failure> {
        if self.held == Some(0) && !self.stopped.was_found {
            self.prompt.show(output).map_err(|_| Failure::Write)?;
        }
        output.flush().map_err(|_| Failure::Write)
    }

    // Takes the next byte, and shows what isn't the answer to the closing line.
    fn pass<O: Write>(&mut self, byte: u8, output: &mut O) -> Result<(), Failure> {
        if self.is_closed() {
            self.show_held(output)?;
        }
        match self.held {
            Some(count) if CLOSED.get(count) == Some(&byte) => {
                self.held = Some(count.saturating_add(1));
                Ok(())
            }
            _ => {
                self.show_held(output)?;
                self.held = if byte == b'\n' { Some(0) } else { None };
                self.show(&[byte], output)
            }
        }
    }

    // Whether the last line is the answer to the closing one.
    fn is_closed(&self) -> bool {
        self.held == Some(CLOSED.len())
    }

    // Shows the bytes of the last line that were held back.
    fn show_held<O: Write>(&mut self, output: &mut O) -> Result<(), Failure> {
        let held = self.held.unwrap_or(0).min(CLOSED.len());
        self.held = Some(0);
        self.show(&CLOSED[..held], output)
    }

    fn show<O: Write>(&mut self, bytes: &[u8], output: &mut O) -> Result<(), Failure> {
        for byte in bytes {
            self.fault.look_at(*byte);
            self.stopped.look_at(*byte);
        }
        output.write_all(bytes).map_err(|_| Failure::Write)
    }

    // What a conversation comes to that the server has closed.
    fn end<O: Write>(&mut self, output: &mut O) -> Result<(), Failure> {
        let is_closed = self.is_closed();
        if !is_closed {
            self.show_held(output)?;
        }
        if !self.stopped.was_found {
            self.prompt.end(output).map_err(|_| Failure::Write)?;
        }
        output.flush().map_err(|_| Failure::Write)?;
        if self.fault.was_found {
            return Err(Failure::Faulty);
        }
        if is_closed || self.stopped.was_found {
            return Ok(());
        }
        Err(Failure::Session)
    }
}

impl Search {
    fn new(text: &'static [u8]) -> Search {
        Search {
            text,
            matched: Some(0),
            was_found: false,
        }
    }

    // Looks at the next byte.
    fn look_at(&mut self, byte: u8) {
        self.matched = match self.matched {
            Some(count) if self.text.get(count) == Some(&byte) => Some(count.saturating_add(1)),
            _ => None,
        };
        if self.matched == Some(self.text.len()) {
            self.was_found = true;
        }
        if byte == b'\n' {
            self.matched = Some(0);
        }
    }
}
