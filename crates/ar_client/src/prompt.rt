// What someone at a terminal is shown before each line.
use std::io::{self, Write};

const TEXT: &[u8] = b"autoraid> ";

/// A prompt, or none where nobody is at a terminal.
#[derive(Clone, Copy)]
pub struct Prompt {
    pub is_shown: bool,
}

impl Prompt {
    /// Writes it.
    pub fn show<W: Write>(self, out: &mut W) -> io::Result<()> {
        self.write(out, TEXT)
    }

    /// Ends the line of the last one, at which the input has ended.
    pub fn end<W: Write>(self, out: &mut W) -> io::Result<()> {
        self.write(out, b"\n")
    }

    fn write<W: Write>(self, out: &mut W, text: &[u8]) -> io::Result<()> {
        if self.is_shown {
            out.write_all(text)?;
        }
        Ok(())
    }
}
