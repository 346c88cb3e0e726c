// Draws the array of a script.
use ar_picture::write_svg;
use ar_script::Runner;
use std::fs;
use std::rt::Files;
use thiserror::Error;

/// Why the picture was not written.
#[derive(Debug, Drop, Error)]
pub enum DrawingFault {
    /// The file can't be written.
    #[error("the picture can't be written")]
    Write,
    /// An allocation failed.
    #[error("no memory for the picture")]
    NoMemory,
}

/// Writes a picture of the array to a file, as an SVG, and replaces its content. Out of memory, the file is unchanged.
pub fn draw<R: Files + AllocGlobal>(
    rt: &R,
    runner: &Runner,
    file: &str,
) -> Result<(), DrawingFault> {
    let picture = runner
        .picture(rt.alloc())
        .map_err(|_| DrawingFault::NoMemory)?;
    let mut svg = Vec::new(rt.alloc());
    write_svg(rt.alloc(), &mut svg, &picture).map_err(|_| DrawingFault::NoMemory)?;
    fs::write(rt, file, &svg).map_err(|_| DrawingFault::Write)
}
