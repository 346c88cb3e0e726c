// The words of a command line.
use crate::fault::CommandLineFault;
use std::alloc::Global;
use std::env;
use std::rt::Env;

/// The words that the program was started with, its name first. Where one is not UTF-8, the command line is bad.
pub fn words_of<R: Env + AllocGlobal>(
    rt: &R,
    alloc: Global,
) -> Result<Vec<String>, CommandLineFault> {
    let words = env::args(rt)?;
    Ok(words.collect(alloc)?)
}
