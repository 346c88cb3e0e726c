// A program's command, read by `clap`.
use crate::fault::UsageFault;
use ar_cli::CommandLineFault;
use clap::error::ErrorKind;
use clap::{ArgMatches, Command, Error as ParseError};
use std::alloc::{AllocError, Global};
use std::convert::AsStr;

/// What a command reads of its words.
#[derive(Drop)]
pub enum Parsed<'a> {
    /// The values of its options.
    Matches(ArgMatches<'a>),
    /// Its help or its version is asked for: this text.
    Shown(String),
}

/// Reads words, the program's name first. A program without any other word is asked for its help.
pub fn parse<'a, S: AsStr>(
    alloc: Global,
    command: Command<'a>,
    words: &'a [S],
) -> Result<Parsed<'a>, UsageFault> {
    match command
        .arg_required_else_help(true)
        .try_get_matches_from(words)
    {
        Ok(matches) => Ok(Parsed::Matches(matches)),
        Err(error) => shown_or_refused(alloc, &error),
    }
}

fn shown_or_refused<'a>(alloc: Global, error: &ParseError) -> Result<Parsed<'a>, UsageFault> {
    let kind = error.kind();
    if matches!(kind, ErrorKind::OutOfMemory) {
        return Err(UsageFault::Words(CommandLineFault::NoMemory));
    }
    let text = format!(in alloc; "{error}")?;
    match kind {
        ErrorKind::DisplayHelp
        | ErrorKind::DisplayVersion
        | ErrorKind::DisplayHelpOnMissingArgumentOrSubcommand => Ok(Parsed::Shown(text)),
        _ => Err(UsageFault::Bad(reason(alloc, &text)?)),
    }
}

// One line of an error's text: what is wrong, what is similar, and the usage, where it has them.
fn reason(alloc: Global, text: &str) -> Result<String, AllocError> {
    let text = text.strip_prefix("error: ").unwrap_or(text);
    let mut reason = String::new(alloc);
    for part in text.split("\n\n") {
        add_part(&mut reason, part)?;
    }
    Ok(reason)
}

// Adds a paragraph of an error's text. The last names --help, for which this line needs no space.
fn add_part(reason: &mut String, part: &str) -> Result<(), AllocError> {
    if part.starts_with("For more information") {
        return Ok(());
    }
    if !reason.is_empty() {
        reason.push_str("; ")?;
    }
    match part.strip_prefix("Usage: ") {
        Some(usage) => {
            reason.push_str("usage: ")?;
            add_lines(reason, usage)
        }
        None => add_lines(reason, part),
    }
}

// Adds a text's lines as one.
fn add_lines(reason: &mut String, text: &str) -> Result<(), AllocError> {
    for (number, line) in text.lines().enumerate() {
        if number > 0 {
            reason.push(' ')?;
        }
        reason.push_str(line.trim())?;
    }
    Ok(())
}
