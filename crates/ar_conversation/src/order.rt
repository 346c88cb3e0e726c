// What an operator's line asks for: a word of the operator's own, or a word of scripts that is no host's.
ghost use Rattle.std.specs.Prelude.{◌≡◌, map, IfOk, IfSome};
ghost use Rattle.std.specs.Option.{SomeIff};
ghost use Rattle.ar_language.specs.Forms.{Gives, IsNumberOf, value};
ghost use Rattle.ar_conversation.specs.Orders.{AreAccesses, AsksEnd, AsksFuse, HasEnd, HasForce, HasFuse, IsEnd};
ghost use Rattle.ar_conversation.specs.Orders.{IsFuse};
ghost use Rattle.ar_conversation.specs.Orders.{IsHostNumber, IsOperatorOrder};
ghost use Rattle.ar_conversation.specs.Orders.{ReadsAlone};
ghost use Rattle.ar_conversation.specs.Orders.{ReadsArguments, ReadsFirstWord, ReadsOperatorLine, ReadsOperatorWord};
ghost use Rattle.ar_conversation.specs.Orders.{ReadsReportWord};
ghost use Rattle.ar_conversation.specs.Orders.{ReadsOut, ReadsSharedWord, accesses_in, argument, as_operator};
ghost use Rattle.ar_conversation.specs.Orders.{is_host_word};
ghost use Rattle.ar_conversation.specs.Orders.{text_of};

use ar_language::{Action, FaultKind, MOST_WORDS, Order, Question, first_words, order_in};
use ar_numbers::number;
use std::fmt;
use std::fmt::{Display, Formatter};
use thiserror::Error;

/// An operator's order.
#[derive(Clone, Copy)]
pub enum OperatorOrder {
    /// Execute an action on the array, other than a SCSI command and a discard. A disk without which the array fails
    /// isn't taken out.
    Act(Action),
    /// `out D force`: take a disk out by its number, even if the array fails.
    ForceOut(u8),
    /// Show the result of a query, other than the bytes of a row.
    Ask(Question),
    /// `sessions`: show the connected hosts.
    Sessions,
    /// `counts`: show what was counted since the start.
    Counts,
    /// `usage`: show how the sectors of the array are used, and how many spare disks are left.
    Usage,
    /// `units`: show the units.
    Units,
    /// `disks`: show the disks.
    Disks,
    /// `version`: show the version of the program.
    Version,
    /// `fail`: let a disk, by its number, pass this many more accesses and fault at the next one. None: `off`.
    Fail { disk: u8, accesses: Option<u64> },
    /// `end`: end the iSCSI sessions of a host, by its number from 0 to 3, or the one of this number.
    End { host: u8, session: Option<u64> },
    /// `help`: show the operator's words.
    Help,
    /// `stop`: end the service.
    Stop,
}

/// What is wrong with an operator's line.
#[derive(Clone, Copy, Debug, PartialEq, Eq, Error)]
pub enum LineFault {
    /// What may be wrong with a line of a script, too.
    Line(FaultKind),
    /// The first word is a host's, or shows the bytes of a row.
    NotOperatorWord,
    /// The input ended before the line's LF.
    Cut,
}

// (By hand: the text that a derived `Display` writes is not specified.)
impl Display for LineFault {
    ghost use Rattle.std.specs.Prelude.{Some};
    ghost use Rattle.ar_conversation.specs.Faults.{line_fault_text};

    ghost output = { λ fault. Some (line_fault_text fault) };

    fn fmt<W: fmt::Write>(&self, f: &mut Formatter<W>) -> fmt::Result {
        match self {
            LineFault::Line(kind) => kind.fmt(f),
            LineFault::NotOperatorWord => f.write_str("not an operator's word"),
            LineFault::Cut => f.write_str("cut line"),
        }
    }
}

/// Parses a line; an empty one and one that begins with `#` ask for nothing. The faults are `UnknownWord`,
/// `BadArgument` and `NotOperatorWord`. It allocates nothing.
pub fn operator_order_in(line: &str) -> Result<Option<OperatorOrder>, LineFault>
    ensures reads { ReadsOperatorLine line.now result }
    ensures allowed { IfOk result (λ asked. IfSome asked IsOperatorOrder) }
{
    if line.is_empty() || line.starts_with('#') {
        return Ok(None);
    }
    let mut words = [""; MOST_WORDS];
    let Some(count) = first_words(line, &mut words) else {
        return Err(LineFault::Line(FaultKind::BadArgument));
    };
    order_in_words(line, &words[..count])
}

// Parses the words of a line, or its first eight.
fn order_in_words(line: &str, words: &[&str]) -> Result<Option<OperatorOrder>, LineFault>
    ensures reads { ReadsFirstWord line.now words.now result }
    ensures allowed { IfOk result (λ asked. IfSome asked IsOperatorOrder) }
{
    match words.split_first() {
        Some((name, arguments)) => order_named(line, name, arguments),
        None => Ok(None),
    }
}

// Parses a line by its first word. The words after it are in `arguments`, at most seven of them.
fn order_named(
    line: &str,
    name: &str,
    arguments: &[&str],
) -> Result<Option<OperatorOrder>, LineFault>
    ensures reads { ReadsOperatorWord line.now name.now (map text_of arguments.now) result }
    ensures allowed { IfOk result (λ asked. IfSome asked IsOperatorOrder) }
{
    match name {
        "counts" => alone(arguments, OperatorOrder::Counts),
        "out" => out(line, arguments),
        "fail" => fail(arguments),
        "end" => end(arguments),
        "help" => alone(arguments, OperatorOrder::Help),
        "stop" => alone(arguments, OperatorOrder::Stop),
        _ => report_order(line, name, arguments),
    }
}

// The same for a word that shows what the array has, or one of scripts. (Two functions with a few names each, since a
// match costs the proof more than by the number of its arms.)
fn report_order(
    line: &str,
    name: &str,
    arguments: &[&str],
) -> Result<Option<OperatorOrder>, LineFault>
    ensures reads { ReadsReportWord line.now name.now (map text_of arguments.now) result }
    ensures allowed { IfOk result (λ asked. IfSome asked IsOperatorOrder) }
{
    match name {
        "sessions" => alone(arguments, OperatorOrder::Sessions),
        "usage" => alone(arguments, OperatorOrder::Usage),
        "units" => alone(arguments, OperatorOrder::Units),
        "disks" => alone(arguments, OperatorOrder::Disks),
        "version" => alone(arguments, OperatorOrder::Version),
        _ => shared_order(line, name),
    }
}

// Parses a line as a script's, unless its first word is a host's.
fn shared_order(line: &str, name: &str) -> Result<Option<OperatorOrder>, LineFault>
    ensures reads { ReadsSharedWord line.now name.now result }
    ensures allowed { IfOk result (λ asked. IfSome asked IsOperatorOrder) }
{
    if is_host_word(name) {
        return Err(LineFault::NotOperatorWord);
    }
    as_operator(order_in(line))
}

// Whether a word is a host's, or shows the bytes of a row.
fn is_host_word(name: &str) -> bool
    ensures { result ≡ is_host_word name.now }
{
    matches!(
        name,
        "tur"
            | "inquiry"
            | "capacity"
            | "read"
            | "write"
            | "read16"
            | "write16"
            | "cdb"
            | "unmap"
            | "block"
    )
}

// A script's order as an operator's. (A host's word doesn't come here, but `Action` and `Question` have theirs.)
fn as_operator(read: Result<Option<Order>, FaultKind>) -> Result<Option<OperatorOrder>, LineFault>
    ensures same { result ≡ as_operator read }
    ensures allowed { IfOk result (λ asked. IfSome asked IsOperatorOrder) }
{
    match read {
        Ok(None) => Ok(None),
        Ok(
            Some(
                Order::Act(Action::Command { .. } | Action::Unmap(..))
                | Order::Ask(Question::Block { .. }),
            ),
        ) => Err(LineFault::NotOperatorWord),
        Ok(Some(Order::Act(action))) => Ok(Some(OperatorOrder::Act(action))),
        Ok(Some(Order::Ask(question))) => Ok(Some(OperatorOrder::Ask(question))),
        Err(kind) => Err(LineFault::Line(kind)),
    }
}

// An order without arguments.
fn alone(arguments: &[&str], order: OperatorOrder) -> Result<Option<OperatorOrder>, LineFault>
    requires { IsOperatorOrder order }
    ensures reads { ReadsAlone (map text_of arguments.now) order result }
    ensures allowed { IfOk result (λ asked. IfSome asked IsOperatorOrder) }
{
    if arguments.is_empty() {
        Ok(Some(order))
    } else {
        Err(LineFault::Line(FaultKind::BadArgument))
    }
}

// `out D force`, or `out` as scripts have it.
fn out(line: &str, arguments: &[&str]) -> Result<Option<OperatorOrder>, LineFault>
    ensures reads { ReadsOut line.now (map text_of arguments.now) result }
    ensures allowed { IfOk result (λ asked. IfSome asked IsOperatorOrder) }
{
    match forced_disk(arguments) {
        Some(disk) => Ok(Some(OperatorOrder::ForceOut(disk))),
        None => shared_order(line, "out"),
    }
}

// The disk of `D force`.
fn forced_disk(arguments: &[&str]) -> Option<u8>
    ensures { Gives (HasForce (map text_of arguments.now))
        (λ disk. disk ≡ value (argument (map text_of arguments.now) 0)) result }
{
    match arguments {
        [disk, "force"] => disk_number(disk),
        _ => None,
    }
}

fn fail(arguments: &[&str]) -> Result<Option<OperatorOrder>, LineFault>
    ensures reads { ReadsArguments (HasFuse (map text_of arguments.now)) (AsksFuse (map text_of arguments.now)) result }
    ensures allowed { IfOk result (λ asked. IfSome asked IsOperatorOrder) }
{
    match fuse_in(arguments) {
        Some((disk, accesses)) => Ok(Some(OperatorOrder::Fail { disk, accesses })),
        None => Err(LineFault::Line(FaultKind::BadArgument)),
    }
}

// A disk, and the accesses that it still passes.
fn fuse_in(arguments: &[&str]) -> Option<(u8, Option<u64>)>
    ensures { Gives (HasFuse (map text_of arguments.now)) (IsFuse (map text_of arguments.now)) result }
{
    let [disk, accesses] = arguments else {
        return None;
    };
    Some((disk_number(disk)?, accesses_in(accesses)?))
}

// `end H` and `end H S`.
fn end(arguments: &[&str]) -> Result<Option<OperatorOrder>, LineFault>
    ensures reads { ReadsArguments (HasEnd (map text_of arguments.now)) (AsksEnd (map text_of arguments.now)) result }
    ensures allowed { IfOk result (λ asked. IfSome asked IsOperatorOrder) }
{
    match ended_in(arguments) {
        Some((host, session)) => Ok(Some(OperatorOrder::End { host, session })),
        None => Err(LineFault::Line(FaultKind::BadArgument)),
    }
}

// A host, and the session that is meant, if not all are.
fn ended_in(arguments: &[&str]) -> Option<(u8, Option<u64>)>
    ensures { Gives (HasEnd (map text_of arguments.now)) (IsEnd (map text_of arguments.now)) result }
{
    match arguments {
        [host] => Some((host_number(host)?, None)),
        [host, session] => Some((host_number(host)?, Some(number(session)?))),
        _ => None,
    }
}

fn host_number(word: &str) -> Option<u8>
    ensures { SomeIff result (IsHostNumber word.now) (value word.now) }
{
    let host = number(word)?;
    if host < 4 { Some(host as u8) } else { None }
}

fn disk_number(word: &str) -> Option<u8>
    ensures { SomeIff result (IsNumberOf 8 word.now) (value word.now) }
{
    u8::try_from(number(word)?).ok()
}

// A number of accesses, or `off`.
fn accesses_in(word: &str) -> Option<Option<u64>>
    ensures { SomeIff result (AreAccesses word.now) (accesses_in word.now) }
{
    match word {
        "off" => Some(None),
        _ => Some(Some(number(word)?)),
    }
}
