// Runs a script, from its first line to its end or its first fault. The output is flushed before more input is
// accessed.
ghost use Rattle.std.specs.Prelude.{◌≡◌, ◌≢◌, ◌≤◌, ◌⊎◌, max, true, false, [], None, Some, Err, IfSome, IfErr, IsErr};
ghost use Rattle.std.specs.Prelude.{OnOk};
ghost use Rattle.std.specs.Io.Buffered.{writer_buffer, writer_contents};
ghost use Rattle.std.specs.Io.KnownBytes.{Keeps};
ghost use Rattle.ar_extents.specs.Changes.{start_fault};
ghost use Rattle.ar_language.specs.Forms.{is_silent};
ghost use Rattle.ar_language.specs.Left.{lines_left, lines_begun, IsFresh};
ghost use Rattle.ar_language.specs.Lines.{lines_of, is_write_fault as tells_write_fault, AreThere, IsNumbered};
ghost use Rattle.ar_language.specs.Lines.{IsReached};
ghost use Rattle.ar_script.specs.Ends.{Ends};
ghost use Rattle.ar_script.specs.Answers.{AnswersLine};
ghost use Rattle.ar_script.specs.Orders.{MeetsLine};
ghost use Rattle.ar_script.specs.Plays.{SaysWrong, IsUnanswered, IsLineThere, IsReportedAt, IsReportedOf, PlaysScript};
ghost use Rattle.ar_script.specs.Plays.{PlaysTo};
ghost use Rattle.ar_script.specs.Plays.{AnswersScript, HasPlayed, HasAnswered};
ghost use Rattle.ar_answers.specs.Setups.{disks_of};

use crate::runner::Runner;
use ar_answers::Setup;
use ar_language::{Fault, FaultKind, Lines, next_line, order_in};
use std::alloc::Global;
use std::io::{BufWriter, Read, Write};

/// How a script ended, and the writer that has its answers.
#[derive(Drop)]
pub struct Ended<W> {
    /// Ok if all lines were executed, otherwise the first fault.
    pub end: Result<(), Fault>,
    /// The writer, with nothing left to flush unless the end is a write fault. None if no buffer for it could be
    /// allocated: the script then ended before its first line.
    pub writer: Option<W>,
}

/// Runs a script on a new array whose disks are in memory: executes the lines in order and writes a text for each that
/// asks for something. The first fault ends it. Output is buffered and flushed before more input is accessed, so that a
/// write fault names the last line that was reached, and may have lost answers to earlier lines; at any other fault
/// these are written. The executed lines are the first of the reader's, each once and in order, and without a fault all
/// of them; a line's fault is one that the line has. At `Start` no line was read.
pub fn run_script<R: Read + Drop, W: Write + Drop>(
    alloc: Global,
    reader: R,
    writer: W,
    setup: Setup,
) -> Ended<W>
    // The output is exactly the text of the answers to the lines of the input: to all of them or, at a fault other than
    // a write fault, to those before it.
    ensures answers { result.end ≢ Err Fault.Start → IfSome result.writer (λ written.
        HasAnswered (disks_of setup) setup.cache (lines_of (R.remaining reader)) result.end
        (W.contents writer) (W.contents written)) }
    ensures played { result.end ≢ Err Fault.Start
        → HasPlayed (disks_of setup) setup.cache (lines_of (R.remaining reader)) result.end }
    ensures begun { result.end ≢ Err Fault.Start → (setup.cache ≤ 65536) × (start_fault (disks_of setup) ≡ None) }
    ensures unstarted { result.end ≡ Err Fault.Start → result.writer ≡ Some writer }
    ensures lost { result.writer ≡ None → result.end ≡ Err (Fault.Line 1 FaultKind.NoMemory) }

    ensures numbered { IfErr result.end IsNumbered }
    ensures there { IfErr result.end (IsLineThere (lines_of (R.remaining reader))) }
{
    match Runner::start(alloc, setup) {
        Ok(mut runner) => {
            let ended = run_on(alloc, &mut runner, reader, writer);
            drop(runner);
            ended
        }
        Err(fault) => Ended {
            end: Err(fault),
            writer: Some(writer),
        },
    }
}

/// Runs a script on the array of a runner, as `run_script` does. (Separate from it, so that no function owns more than
/// one of array, lines and output: with all three the proof of its exits took a quarter of the crate's.)
pub fn run_on<R: Read + Drop, W: Write + Drop>(
    alloc: Global,
    runner: &mut Runner,
    reader: R,
    writer: W,
) -> Ended<W>
    ensures answers { IfSome result.writer (λ written.
        AnswersScript (lines_of (R.remaining reader)) result.end runner.old runner.new
        (W.contents writer) (W.contents written)) }
    ensures plays { PlaysScript (lines_of (R.remaining reader)) result.end runner.old runner.new }
    ensures lost { result.writer ≡ None → (result.end ≡ Err (Fault.Line 1 FaultKind.NoMemory))
        × (runner.new ≡ runner.old) }

    ensures numbered { IfErr result.end IsNumbered }
    ensures there { IfErr result.end (IsLineThere (lines_of (R.remaining reader))) }
{
    let Ok(mut lines) = Lines::new(alloc, reader) else {
        return Ended {
            end: Err(fault_at(1, FaultKind::NoMemory)),
            writer: Some(writer),
        };
    };
    write_answers(alloc, runner, &mut lines, writer)
}

// Executes all lines with a buffer for the output, which is empty afterwards unless a write failed, and drops the
// buffer.
fn write_answers<R: Read + Drop, W: Write + Drop>(
    alloc: Global,
    runner: &mut Runner,
    lines: &mut Lines<R>,
    writer: W,
) -> Ended<W>
    requires fresh { IsFresh lines.old }
    ensures answers { IfSome result.writer (λ written.
        AnswersScript (lines_left lines.old) result.end runner.old runner.new
        (W.contents writer) (W.contents written)) }
    ensures plays { PlaysScript (lines_left lines.old) result.end runner.old runner.new }
    ensures lost { result.writer ≡ None → (result.end ≡ Err (Fault.Line 1 FaultKind.NoMemory))
        × (runner.new ≡ runner.old) }

    ensures numbered { IfErr result.end IsNumbered }
    ensures there { IfErr result.end (IsLineThere (lines_left lines.old)) }
    ensures ended { OnOk result.end (lines.new.is_at_end ≡ true) }
    // After a fault nothing more is read. `NoMemory` is reported at line 1 with nothing read, or at a line that
    // allocates.
    ensures reported { IfErr result.end (λ fault. ((fault ≡ Fault.Line 1 FaultKind.NoMemory) × (lines.new ≡ lines.old))
        ⊎ (IsReached (lines_begun lines.new) fault × IsReportedOf lines.new fault)) }
{
    let Ok(mut out) = BufWriter::new(alloc, writer) else {
        return Ended {
            end: Err(fault_at(1, FaultKind::NoMemory)),
            writer: None,
        };
    };
    let end = answer_all(alloc, runner, lines, &mut out);
    let (writer, _unwritten) = out.into_parts();
    Ended {
        end,
        writer: Some(writer),
    }
}

// Executes all lines, and flushes the output.
fn answer_all<R: Read + Drop, W: Write + Drop>(
    alloc: Global,
    runner: &mut Runner,
    lines: &mut Lines<R>,
    out: &mut BufWriter<W>,
) -> Result<(), Fault>
    requires fresh { IsFresh lines.old }
    ensures plays { PlaysScript (lines_left lines.old) result runner.old runner.new }
    ensures numbered { IfErr result IsNumbered }
    ensures there { IfErr result (IsLineThere (lines_left lines.old)) }
    ensures ended { OnOk result (lines.new.is_at_end ≡ true) }
    ensures reached { IfErr result (IsReached (lines_begun lines.new)) }
    ensures reported { IfErr result (IsReportedOf lines.new) }
    // Unless a write fault is reported, all answers are written, in order, after what the writer had: to all lines, or
    // to those before the fault.
    ensures written { tells_write_fault result ≡ false → writer_buffer out.new ≡ [] }
    ensures grows { AnswersScript (lines_left lines.old) result runner.old runner.new
        (writer_contents W.contents out.old) (writer_contents W.contents out.new) }
{
    let done = run_lines(alloc, runner, lines, out);
    finish(out, lines.number(), done)
}

// A fault at a line, or at the first if none was begun.
fn fault_at(line: u32, kind: FaultKind) -> Fault
    requires known { line ≤ 1000000 }
    requires few { kind ≢ FaultKind.TooManyLines }
    ensures same { result ≡ Fault.Line (max line 1) kind }
    ensures numbered { IsNumbered result }
{
    let line = line.max(1);
    Fault::Line { line, kind }
}

// Executes all lines, each once.
fn run_lines<R: Read + Drop, W: Write + Drop>(
    alloc: Global,
    runner: &mut Runner,
    lines: &mut Lines<R>,
    out: &mut BufWriter<W>,
) -> Result<(), Fault>
    requires fresh { IsFresh lines.old }
    ensures plays { PlaysTo (lines_left lines.old) result runner.old runner.new (lines_begun lines.new) }
    ensures there { AreThere (lines_left lines.old) (lines_begun lines.new) }
    ensures ended { OnOk result (lines.new.is_at_end ≡ true) }
    ensures reached { IfErr result (IsReached (lines_begun lines.new)) }
    // `ReadFault` is reported only while a line is awaited, and a fault of a line only if the line has it.
    ensures reported { IfErr result (IsReportedAt lines.new) }
    ensures numbered { IfErr result IsNumbered }
    // Each answer is appended to those before it: to all lines, or to those before a fault that isn't a write fault.
    ensures grows { AnswersScript (lines_left lines.old) result runner.old runner.new
        (writer_contents W.contents out.old) (writer_contents W.contents out.new) }
{
    for _ in 0..u32::MAX {
        if !next_line(lines, out)? {
            return Ok(());
        }
        if let Err(kind) = answer_line(alloc, runner, lines, out) {
            return Err(fault_at(lines.number(), kind));
        }
    }
    Ok(())
}

// Executes the current line, and writes the answer.
fn answer_line<R: Read + Drop, W: Write + Drop>(
    alloc: Global,
    runner: &mut Runner,
    lines: &Lines<R>,
    out: &mut BufWriter<W>,
) -> Result<(), FaultKind>
    ensures meets { MeetsLine lines.now.line.items runner.old result runner.new }
    ensures reported { IfErr result
        (λ kind. IsUnanswered lines.now.line.items kind ⊎ SaysWrong lines.now.line.items kind) }
    ensures few { IfErr result (λ kind. kind ≢ FaultKind.TooManyLines) }
    ensures adds { OnOk result
        (AnswersLine lines.now.line.items runner.old runner.new (writer_contents W.contents out.old)
        (writer_contents W.contents out.new)) }
    // A line that asks for nothing writes nothing, and neither does one with a fault, but for a write fault.
    ensures silent { is_silent lines.now.line.items ≡ true → out.new ≡ out.old }
    ensures kept { IsErr result → result ≢ Err FaultKind.WriteFault → out.new ≡ out.old }
{
    match order_in(lines.line())? {
        Some(order) => runner.answer(alloc, order, out),
        None => Ok(()),
    }
}

// Flushes the output: unless a write fault is reported, nothing is left in the buffer. After an earlier write fault
// nothing more is written.
fn finish<W: Write + Drop>(
    out: &mut BufWriter<W>,
    line: u32,
    done: Result<(), Fault>,
) -> Result<(), Fault>
    requires line { line ≤ 1000000 }
    requires numbered { IfErr done IsNumbered }

    ensures ends { Ends line done result }
    ensures numbered { IfErr result IsNumbered }

    ensures written { tells_write_fault result ≡ false → writer_buffer out.new ≡ [] }
    ensures given { Keeps (writer_contents W.contents out.old) (writer_contents W.contents out.new) }
    ensures let_go { tells_write_fault done ≡ true → out.new ≡ out.old }
{
    if is_write_fault(&done) || out.flush().is_err() {
        Err(fault_at(line, FaultKind::WriteFault))
    } else {
        done
    }
}

fn is_write_fault(done: &Result<(), Fault>) -> bool
    ensures { result ≡ tells_write_fault done.now }
{
    matches!(
        done,
        Err(Fault::Line {
            kind: FaultKind::WriteFault,
            ..
        })
    )
}
