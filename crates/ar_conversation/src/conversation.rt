// A conversation: lines are read, each is answered once and in order, and the answers are written.
ghost use Rattle.std.specs.Prelude.{◌≡◌, ◌⊎◌, [], false, Ok, IfOk, IfSome};
ghost use Rattle.ar_conversation.specs.Lines.{seen_behind};
ghost use Rattle.ar_conversation.specs.Orders.{IsOperatorOrder};
ghost use Rattle.ar_conversation.specs.Talk.{OperatorTalk, Converses, ExecutesOrder, ReadsBytes, RespondsToBytes};
ghost use Rattle.ar_conversation.specs.Talk.{RespondsToRead, LineIsAnswered, NextIsAnswered, fault_answer, is_stop};
ghost use Rattle.ar_conversation.specs.Talk.{is_unreadable, ends_service, line_result_after, response_bytes};
ghost use Rattle.ar_conversation.specs.Talk.{CutIsAnswered, cut_end, line_result_by, no_memory};

use crate::input::{Line, LineRead, Piece, read_line};
use crate::{Controller, LineFault, OperatorOrder, operator_order_in};
use ar_frames::{Sent, Sink, Source, send};
use ar_language::FaultKind;
use std::alloc::{AllocError, Global};
use std::io::Write;

/// The most operators that converse at once.
pub const MOST_OPERATORS: u64 = 4;

/// The most lines of a conversation.
pub const MOST_LINES: u32 = 1_000_000;

/// Bytes of an answer for which memory is there from the start.
const ANSWER_ROOM: usize = 4_096;

/// The answer to a line when out of memory for one.
const NO_MEMORY: &[u8] = b"fault: no memory\n";

/// Why a conversation ended.
#[derive(Clone, Copy, Debug, PartialEq, Eq)]
pub enum OperatorEnd {
    /// The input ended.
    End,
    /// `stop` was accepted. It has no answer yet.
    Stop,
    /// A line had more than 4,096 bytes, or one that isn't printable ASCII, as each line of HTTP has. It was answered.
    BadLine,
    /// The input ended in a line. That was answered.
    CutLine,
    /// A read faulted.
    Read,
    /// A write faulted.
    Write,
    /// The limit of 1,000,000 lines was reached, or that of 2^32 - 1 bytes in a line.
    Bound,
    /// Out of memory for the longest line. Nothing was read.
    NoMemory,
}

/// The memory of a conversation. It may serve one after another.
#[derive(Drop)]
pub struct Buffers {
    line: Line,
    answer: Vec<u8>,
}

impl Buffers {
    /// Memory for the longest line, and for all but the longest answers.
    pub fn new(alloc: Global) -> Result<Buffers, AllocError> {
        Ok(Buffers {
            line: Line::new(alloc)?,
            answer: Vec::with_capacity(alloc, ANSWER_ROOM)?,
        })
    }
}

/// Reads lines, answers each through the controller, and writes the answers. A line with a fault is answered by its
/// text, as `fault: unknown word`; an empty line and one that begins with `#` have no answer. A line has at most 4,096
/// bytes without its LF, all of them printable ASCII. One without its LF may be the front of another: it is answered
/// `fault: cut line`, and not executed. It allocates a buffer for the line at the start, and one for answers; if an
/// answer can't be allocated, `fault: no memory` is written in its place. A line that is too long or has another byte
/// ends the conversation. Each line of HTTP's ends with CR, so that no web page can have a browser send orders.
pub fn converse<R: Source, W: Sink, C: Controller>(
    alloc: Global,
    reader: &mut R,
    writer: &mut W,
    controller: &mut C,
) -> OperatorEnd
    ensures { OperatorTalk C.answers (R.state reader.old) (R.state reader.new) (W.state writer.old) (W.state writer.new)
        controller.old controller.new result }
{
    let Ok(mut buffers) = Buffers::new(alloc) else {
        return OperatorEnd::NoMemory;
    };
    converse_in(reader, writer, controller, &mut buffers)
}

/// Answers lines as `converse` does, in memory that is there.
pub fn converse_in<R: Source, W: Sink, C: Controller>(
    reader: &mut R,
    writer: &mut W,
    controller: &mut C,
    buffers: &mut Buffers,
) -> OperatorEnd
    ensures { OperatorTalk C.answers (R.state reader.old) (R.state reader.new) (W.state writer.old) (W.state writer.new)
        controller.old controller.new result }
{
    let mut piece = Piece::new();
    answer_lines(
        reader,
        writer,
        controller,
        &mut piece,
        &mut buffers.line,
        &mut buffers.answer,
    )
}

// The result of a line.
#[derive(Clone, Copy)]
enum LineResult {
    Answered,
    Ended(OperatorEnd),
}

fn answer_lines<R: Source, W: Sink, C: Controller>(
    reader: &mut R,
    writer: &mut W,
    controller: &mut C,
    piece: &mut Piece,
    line: &mut Line,
    answer: &mut Vec<u8>,
) -> OperatorEnd
    ensures { Converses C.answers
        (record {
          source = seen_behind piece.old (R.state reader.old);
          sink = W.state writer.old;
          controller = controller.old;
        })
        result
        (record {
          source = seen_behind piece.new (R.state reader.new);
          sink = W.state writer.new;
          controller = controller.new;
        }) }
{
    for _ in 0..MOST_LINES {
        match answer_next(reader, writer, controller, piece, line, answer) {
            LineResult::Answered => {}
            LineResult::Ended(end) => return end,
        }
    }
    OperatorEnd::Bound
}

// Reads a line and answers it.
fn answer_next<R: Source, W: Sink, C: Controller>(
    reader: &mut R,
    writer: &mut W,
    controller: &mut C,
    piece: &mut Piece,
    line: &mut Line,
    answer: &mut Vec<u8>,
) -> LineResult
    ensures { NextIsAnswered C.answers
        (record {
          source = seen_behind piece.old (R.state reader.old);
          sink = W.state writer.old;
          controller = controller.old;
        })
        result
        (record {
          source = seen_behind piece.new (R.state reader.new);
          sink = W.state writer.new;
          controller = controller.new;
        }) }
{
    match read_line(reader, piece, line) {
        LineRead::Line => {
            let result = answer_line(writer, controller, line, answer);
            result_behind(line, result)
        }
        LineRead::End => LineResult::Ended(OperatorEnd::End),
        LineRead::Cut => answer_cut(writer, answer),
        LineRead::Fault => LineResult::Ended(OperatorEnd::Read),
        LineRead::Endless => LineResult::Ended(OperatorEnd::Bound),
    }
}

// What becomes of the conversation after a line with this result: it ends after one that isn't text.
fn result_behind(line: &Line, answered: LineResult) -> LineResult
    ensures { result ≡ line_result_after (is_unreadable line.now.fault) answered }
{
    match answered {
        LineResult::Answered if line.is_unreadable() => LineResult::Ended(OperatorEnd::BadLine),
        _ => answered,
    }
}

// Answers a line.
fn answer_line<W: Sink, C: Controller>(
    writer: &mut W,
    controller: &mut C,
    line: &Line,
    answer: &mut Vec<u8>,
) -> LineResult
    ensures { LineIsAnswered C.answers line.now.fault line.now.text.items controller.old (W.state writer.old) result
        controller.new (W.state writer.new) }
{
    let response = respond(controller, line, answer);
    let sent = send(writer, bytes_of(response, answer));
    line_result(response, sent)
}

// Answers a line that the end of the input cuts.
fn answer_cut<W: Sink>(writer: &mut W, answer: &mut Vec<u8>) -> LineResult
    ensures { CutIsAnswered (W.state writer.old) result (W.state writer.new) }
{
    answer.clear();
    let response = write_fault(LineFault::Cut, answer);
    let sent = send(writer, bytes_of(response, answer));
    LineResult::Ended(cut_end(sent))
}

fn cut_end(sent: Sent) -> OperatorEnd
    ensures { result ≡ cut_end sent }
{
    match sent {
        Sent::Whole => OperatorEnd::CutLine,
        Sent::Part(_) => OperatorEnd::Write,
    }
}

// The bytes of an answer.
fn bytes_of(response: Response, answer: &Vec<u8>) -> &[u8]
    ensures { result.now ≡ response_bytes response answer.now.items }
{
    match response {
        Response::NoMemory => NO_MEMORY,
        Response::Answer | Response::Stop => answer.as_slice(),
    }
}

fn line_result(response: Response, sent: Sent) -> LineResult
    ensures { result ≡ line_result_by (ends_service response) sent }
{
    match (response, sent) {
        (_, Sent::Part(_)) => LineResult::Ended(OperatorEnd::Write),
        (Response::Stop, Sent::Whole) => LineResult::Ended(OperatorEnd::Stop),
        _ => LineResult::Answered,
    }
}

// The response to a line.
#[derive(Clone, Copy)]
enum Response {
    // What is in the buffer.
    Answer,
    // The same, and `stop` was accepted.
    Stop,
    // There is no memory for the answer.
    NoMemory,
}

// Has a line answered, into an emptied buffer.
fn respond<C: Controller>(controller: &mut C, line: &Line, answer: &mut Vec<u8>) -> Response
    ensures { RespondsToBytes C.answers line.now.fault line.now.text.items controller.old
        (response_bytes result answer.new.items)
        (ends_service result) controller.new }
{
    answer.clear();
    respond_to(controller, order_of(line), answer)
}

// Answers what a line is read as.
fn respond_to<C: Controller>(
    controller: &mut C,
    read: Result<Option<OperatorOrder>, LineFault>,
    answer: &mut Vec<u8>,
) -> Response
    requires allowed { IfOk read (λ asked. IfSome asked IsOperatorOrder) }
    requires empty { answer.old.items ≡ [] }
    ensures { RespondsToRead C.answers controller.old read (response_bytes result answer.new.items)
        (ends_service result) controller.new }
{
    match read {
        Ok(asked) => respond_to_order(controller, asked, answer),
        Err(fault) => write_fault(fault, answer),
    }
}

// Answers a line that asks for something, or for nothing.
fn respond_to_order<C: Controller>(
    controller: &mut C,
    asked: Option<OperatorOrder>,
    answer: &mut Vec<u8>,
) -> Response
    requires allowed { IfSome asked IsOperatorOrder }
    requires empty { answer.old.items ≡ [] }
    ensures { RespondsToRead C.answers controller.old (Ok asked) (response_bytes result answer.new.items)
        (ends_service result) controller.new }
{
    match asked {
        Some(order) => execute_order(controller, order, answer),
        None => Response::Answer,
    }
}

// What a line asks for.
fn order_of(line: &Line) -> Result<Option<OperatorOrder>, LineFault>
    ensures reads { ReadsBytes line.now.fault line.now.text.items result }
    ensures allowed { IfOk result (λ asked. IfSome asked IsOperatorOrder) }
{
    match line.text() {
        Ok(text) => operator_order_in(text),
        Err(kind) => Err(LineFault::Line(kind)),
    }
}

// Gives an order to the controller.
fn execute_order<C: Controller>(
    controller: &mut C,
    order: OperatorOrder,
    answer: &mut Vec<u8>,
) -> Response
    requires allowed { IsOperatorOrder order }
    requires empty { answer.old.items ≡ [] }
    ensures { ExecutesOrder C.answers controller.old order (response_bytes result answer.new.items)
        (ends_service result) controller.new }
{
    match controller.answer(order, answer) {
        Ok(()) if is_stop(order) => Response::Stop,
        Ok(()) => Response::Answer,
        Err(AllocError) => Response::NoMemory,
    }
}

fn is_stop(order: OperatorOrder) -> bool
    ensures { result ≡ is_stop order }
{
    matches!(order, OperatorOrder::Stop)
}

// Writes a fault's text.
fn write_fault(fault: LineFault, answer: &mut Vec<u8>) -> Response
    requires empty { answer.old.items ≡ [] }
    ensures response { (response_bytes result answer.new.items ≡ fault_answer fault)
        ⊎ (response_bytes result answer.new.items ≡ no_memory) }
    ensures goes_on { ends_service result ≡ false }
{
    match writeln!(answer, "fault: {fault}") {
        Ok(()) => Response::Answer,
        Err(_) => Response::NoMemory,
    }
}
