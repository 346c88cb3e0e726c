// Options as data. A table of them costs the proof of one function, where a call of `clap` for each costs a proof each.
use clap::builder::ValueParser;
use clap::{Arg, ArgAction, Command};
use std::alloc::{AllocError, Global};

/// What follows an option.
#[derive(Clone, Copy)]
pub enum Value {
    /// A number, within these bounds.
    Number(u64, u64),
    /// One of these names.
    Name(&'static [&'static str]),
    /// Any text.
    Text,
    /// Any text, or nothing: then it is empty.
    OptionalText,
    /// Nothing.
    Flag,
    /// It is no option, but the word after them.
    Word,
    /// It is no option, but the words after them.
    Words,
}

/// What holds where an option isn't given.
#[derive(Clone, Copy)]
pub enum Otherwise {
    /// The command line is refused.
    Refused,
    /// It has this value.
    Value(&'static str),
    /// It has none.
    Nothing,
}

/// An option of a command line: its name, what the help calls its value, its values, what holds without it, and its
/// line of the help.
#[derive(Clone, Copy)]
pub struct Form(
    pub &'static str,
    pub &'static str,
    pub Value,
    pub Otherwise,
    pub &'static str,
);

/// Adds options to a command.
pub fn with_forms<'a>(
    alloc: Global,
    command: Command<'a>,
    forms: &[Form],
) -> Result<Command<'a>, AllocError> {
    let mut command = command;
    for form in forms {
        command = command.arg(argument(alloc, *form))?;
    }
    Ok(command)
}

fn argument<'a>(alloc: Global, form: Form) -> Arg<'a> {
    let Form(name, shown, value, otherwise, help) = form;
    let argument = Arg::new(alloc, name).value_name(shown).help(help);
    let argument = match otherwise {
        Otherwise::Refused => argument.required(true),
        Otherwise::Value(value) => argument.default_value(value),
        Otherwise::Nothing => argument,
    };
    match value {
        Value::Word => argument,
        Value::Words => argument.num_args(0..).action(ArgAction::Append),
        value => with_value(argument.long(name), value),
    }
}

fn with_value(argument: Arg<'_>, value: Value) -> Arg<'_> {
    match value {
        Value::Number(least, most) => argument.value_parser(ValueParser::unsigned(least, most)),
        // The row's help says what each name means, which the bare list would repeat.
        Value::Name(names) => argument.value_parser(names).hide_possible_values(true),
        Value::Flag => argument.action(ArgAction::SetTrue),
        Value::OptionalText => argument.num_args(0..=1).default_missing_value(""),
        Value::Text | Value::Word | Value::Words => argument,
    }
}
