// Waits for the next line. The output is flushed before the input is accessed, so that no answer is held back
// meanwhile.
ghost use Rattle.std.specs.Prelude.{◌≡◌, ◌==◌, ◌⊎◌, IsSome, IfErr, OnOk, true, false, [], length};
ghost use Rattle.std.specs.List.{position};
ghost use Rattle.std.specs.Io.Buffered.{reader_buffer, writer_buffer, writer_contents};
ghost use Rattle.std.specs.Io.KnownBytes.{Keeps};
ghost use Rattle.ar_language.specs.Lines.{Took, IsFirst, IsUnasked, is_given, is_write_fault, IsNextLineFault};
ghost use Rattle.ar_language.specs.Lines.{IsOfNext, IsReached, IsNumbered};
ghost use Rattle.ar_language.specs.Left.{bytes_read, lines_begun, lines_left, IsAwaited, IsBegunByByte, IsSettled};
ghost use Rattle.ar_language.specs.Left.{EndsReading, GoesOn};

use crate::{Fault, FaultKind, Lines};
use std::io::{BufWriter, Read, Write};

/// Advances to the next line, and returns whether there is one. Only if no whole line was read yet, `out` is flushed
/// and then the input accessed. Nothing is added to the output and nothing of it is lost: what couldn't be written is
/// still in the buffer. After an error the line is still the next one.
pub fn next_line<R: Read + Drop, W: Write + Drop>(
    lines: &mut Lines<R>,
    out: &mut BufWriter<W>,
) -> Result<bool, Fault>
    ensures goes_on { GoesOn lines.old result lines.new }
    ensures begun { IsBegunByByte lines.old → IsBegunByByte lines.new }
    ensures awaited { OnOk result (lines.new.is_awaited ≡ false) }

    // Neither stream is accessed where what was read holds a whole line or a fault, or where the input has ended.
    ensures settled { IsSettled lines.old → IsUnasked lines.old.source lines.new.source × (out.new ≡ out.old) }
    ensures buffered { IsSome (position (λ byte. byte == 10) (reader_buffer lines.old.source)) → is_given result ≡ true
        → IsFirst lines.old.is_at_end (bytes_read lines.old) lines.new.line.items (bytes_read lines.new) }

    // No answer is added or lost. If the input was accessed, the buffer of the output is empty, unless the flush
    // failed.
    ensures answers { Keeps (writer_contents W.contents out.old) (writer_contents W.contents out.new) }
    ensures written { is_write_fault result ≡ false
        → IsUnasked lines.old.source lines.new.source ⊎ (writer_buffer out.new ≡ []) }
{
    let is_given = lines.advance()?;
    if !lines.is_awaited() {
        return Ok(is_given);
    }
    await_line(lines, out)
}

// The same for a line that needs more input.
fn await_line<R: Read + Drop, W: Write + Drop>(
    lines: &mut Lines<R>,
    out: &mut BufWriter<W>,
) -> Result<bool, Fault>
    requires { IsAwaited lines.old }
    ensures goes_on { GoesOn lines.old result lines.new }
    ensures begun { IsBegunByByte lines.old → IsBegunByByte lines.new }
    ensures awaited { OnOk result (lines.new.is_awaited ≡ false) }
    ensures answers { Keeps (writer_contents W.contents out.old) (writer_contents W.contents out.new) }
    ensures written { is_write_fault result ≡ false → writer_buffer out.new ≡ [] }
{
    for _ in 0..u32::MAX {
        wait(lines, out)?;
        let is_given = lines.advance()?;
        if !lines.is_awaited() {
            return Ok(is_given);
        }
    }
    // Each round adds a byte to the line, and a line too long is an error.
    unreachable!()
}

// Flushes the output, and reads more input once.
fn wait<R: Read + Drop, W: Write + Drop>(
    lines: &mut Lines<R>,
    out: &mut BufWriter<W>,
) -> Result<(), Fault>
    requires { IsAwaited lines.old }
    ensures answers { Keeps (writer_contents W.contents out.old) (writer_contents W.contents out.new) }
    // If the flush fails, the input isn't accessed.
    ensures written { is_write_fault result ≡ false → writer_buffer out.new ≡ [] }
    ensures unasked { is_write_fault result ≡ true → lines.new ≡ lines.old }
    ensures kept { Took (lines_left lines.old) (lines_left lines.new) [] }
    ensures begun { IsBegunByByte lines.old → IsBegunByByte lines.new }
    ensures same { (lines.new.line.items ≡ lines.old.line.items) × (lines.new.is_begun ≡ lines.old.is_begun)
        × (lines.new.given ≡ lines.old.given) }
    ensures ended { OnOk result (lines.new.is_at_end ≡ (length (reader_buffer lines.new.source) == 0)) }

    ensures stopped { IfErr result (EndsReading lines.new) }
    ensures stops { IfErr result (IsNextLineFault (lines_left lines.old)) }
    ensures next { IfErr result (IsOfNext lines.old.given (lines_begun lines.old)) }
    ensures reached { IfErr result (IsReached (lines_begun lines.old)) }
    ensures numbered { IfErr result IsNumbered }
{
    if out.flush().is_err() {
        return Err(Fault::Line {
            line: lines.number().max(1),
            kind: FaultKind::WriteFault,
        });
    }
    lines.ask(out)
}
