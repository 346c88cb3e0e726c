// A script as a dialogue: its lines are echoed before their answers, or typed at a terminal, where a faulty line is
// answered by its fault and doesn't end the script. (A plain run is `run_script`'s, whose output is proved.)
use ar_language::{
    Explanation, Fault, FaultKind, Lines, explanation_of, line_forms, next_line, order_in,
};
use ar_script::Runner;
use std::alloc::Global;
use std::io::{self, BufWriter, Read, Write};

/// What is shown before each line that is read from a terminal.
const PROMPT: &[u8] = b"autoraid> ";

/// How a script is run.
#[derive(Clone, Copy)]
pub struct Manner {
    /// Whether lines are printed before their answers.
    pub echoes: bool,
    /// Whether both standard input and standard output are a terminal.
    pub at_terminal: bool,
}

/// Runs a script on the array of a runner. Answers are written before more input is read. The first fault ends it; at
/// a terminal that is one of a stream, or of a line that can't be read to its end.
pub fn converse<R: Read + Drop, W: Write + Drop>(
    alloc: Global,
    runner: &mut Runner,
    reader: R,
    writer: W,
    manner: Manner,
) -> Result<(), Fault> {
    let (Ok(mut lines), Ok(mut out)) = (Lines::new(alloc, reader), BufWriter::new(alloc, writer))
    else {
        return Err(fault_at(1, FaultKind::NoMemory));
    };
    let done = answer_lines(alloc, runner, &mut lines, &mut out, manner);
    let flushed = out.flush();
    let (_writer, _unwritten) = out.into_parts();
    match flushed {
        Ok(()) => done,
        Err(_) => Err(fault_at(lines.number(), FaultKind::WriteFault)),
    }
}

// Answers all lines.
fn answer_lines<R: Read + Drop, W: Write + Drop>(
    alloc: Global,
    runner: &mut Runner,
    lines: &mut Lines<R>,
    out: &mut BufWriter<W>,
    manner: Manner,
) -> Result<(), Fault> {
    for _ in 0..u32::MAX {
        write_at_terminal(out, lines.number(), manner, PROMPT)?;
        if !next_line(lines, out)? {
            return write_at_terminal(out, lines.number(), manner, b"\n");
        }
        answer_line(alloc, runner, lines.line(), out, manner).map_err(|kind| fault_at(
            lines.number(),
            kind,
        ))?;
    }
    Ok(())
}

// Writes what a terminal alone is shown.
fn write_at_terminal<W: Write + Drop>(
    out: &mut BufWriter<W>,
    line: u32,
    manner: Manner,
    text: &[u8],
) -> Result<(), Fault> {
    if !manner.at_terminal {
        return Ok(());
    }
    match out.write_all(text) {
        Ok(()) => Ok(()),
        Err(_) => Err(fault_at(line, FaultKind::WriteFault)),
    }
}

// Answers a line, after its echo.
fn answer_line<W: Write + Drop>(
    alloc: Global,
    runner: &mut Runner,
    line: &str,
    out: &mut BufWriter<W>,
    manner: Manner,
) -> Result<(), FaultKind> {
    if manner.echoes {
        writeln!(out, "{line}").map_err(|_| FaultKind::WriteFault)?;
    }
    if manner.at_terminal && line == "help" {
        return write_help(out).map_err(|_| FaultKind::WriteFault);
    }
    match answer(alloc, runner, line, out) {
        Err(kind) if manner.at_terminal && kind != FaultKind::WriteFault => {
            write_fault(out, line, kind).map_err(|_| FaultKind::WriteFault)
        }
        done => done,
    }
}

// Executes a line, and writes its answer.
fn answer<W: Write + Drop>(
    alloc: Global,
    runner: &mut Runner,
    line: &str,
    out: &mut BufWriter<W>,
) -> Result<(), FaultKind> {
    match order_in(line)? {
        Some(order) => runner.answer(alloc, order, out),
        None => Ok(()),
    }
}

// Writes why a line wasn't executed.
fn write_fault<W: Write>(out: &mut W, line: &str, kind: FaultKind) -> io::Result<()> {
    match explain_kind(line, kind) {
        Some(explanation) => writeln!(out, "{kind}: {explanation}"),
        None => writeln!(out, "{kind}"),
    }
}

// What is wrong with a line that has this fault.
fn explain_kind(line: &str, kind: FaultKind) -> Option<Explanation<'_>> {
    match kind {
        FaultKind::NoMemory => None,
        _ => explanation_of(line.as_bytes()),
    }
}

// Writes the forms of all lines.
fn write_help<W: Write>(out: &mut W) -> io::Result<()> {
    for form in line_forms() {
        let (usage, does) = (form.3, form.4);
        writeln!(out, "{usage:<32}  {does}")?;
    }
    Ok(())
}

// A fault at a line, or at the first if none was begun.
fn fault_at(line: u32, kind: FaultKind) -> Fault {
    let line = line.max(1);
    Fault::Line { line, kind }
}
