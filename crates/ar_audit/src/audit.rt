// The audit: each host's transcript must equal its part of a history.
ghost use Rattle.std.specs.Prelude.{◌≡◌, ◌≤◌, ◌∷◌, [], Some, None, All, IfOk, OnOk, IfErr, MatchOption, map, length};
ghost use Rattle.ar_audit.specs.Audit.{DiffersAt, IsHostsPart, IsFirstMismatch, Agrees, Departs, command_of, IsSame};
ghost use Rattle.ar_served.specs.History.{part};
ghost use Rattle.ar_served.specs.Seat.{SeatState};

use ar_disks::Host;
use ar_served::{Entry, Exchange, Seat};
use std::sync::ledger::Ledger;

/// The result of an audit in which each transcript equals its host's part of the history.
#[derive(Clone, Copy, Debug, PartialEq, Eq)]
pub struct Report {
    /// The number of commands of hosts 0 to 3, the same in transcript and history.
    pub commands: [u64; 4],
}

/// The first transcript that differs from its host's part of the history.
#[derive(Clone, Copy, Debug, PartialEq, Eq)]
pub struct Mismatch {
    pub host: Host,
    /// The first position where the two lists differ, from 0; if one is a prefix of the other, the shorter one's
    /// length.
    pub position: u64,
}

/// Returns the first position where a host's transcript differs from its part of a history, or `None` if they are
/// equal. If one is a prefix of the other, it is the shorter one's length.
pub fn first_difference(history: &[Entry], host: Host, transcript: &[Exchange]) -> Option<u64>
    ensures { MatchOption result
        (transcript.now ≡ part host.number history.now)
        (λ position. DiffersAt position transcript.now (part host.number history.now)) }
{
    let mut at = 0;
    for entry in history {
        match follow(entry, host, transcript, at) {
            Some(next) => at = next,
            None => return Some(at as u64),
        }
    }
    if at < transcript.len() {
        Some(at as u64)
    } else {
        None
    }
}

/// Compares the transcripts of four seats with their hosts' parts of a history: `Ok` if all four are equal, else the
/// first host whose lists differ, and the first position where they do. Allocates nothing, and reads the history once
/// for each host.
pub fn audited<L: Ledger>(history: &[Entry], seats: &[Seat<L>; 4]) -> Result<Report, Mismatch>
    requires order { map (λ (s : SeatState). s.host.number) seats.now ≡ 0 ∷ 1 ∷ 2 ∷ 3 ∷ [] }
    ensures parts { OnOk result (All (IsHostsPart history.now) seats.now) }
    ensures commands { IfOk result
        (λ report. report.commands ≡ map (λ (s : SeatState). length s.transcript) seats.now) }
    ensures mismatch { IfErr result
        (λ mismatch. IsFirstMismatch history.now seats.now mismatch.host.number mismatch.position) }
{
    Ok(Report {
        commands: [
            count(history, &seats[0])?,
            count(history, &seats[1])?,
            count(history, &seats[2])?,
            count(history, &seats[3])?,
        ],
    })
}

// The length of a seat's transcript, if it equals its host's part of the history.
fn count<L: Ledger>(history: &[Entry], seat: &Seat<L>) -> Result<u64, Mismatch>
    ensures part { OnOk result (IsHostsPart history.now seat.now) }
    ensures count { IfOk result (λ count. count ≡ length seat.now.transcript) }
    ensures host { IfErr result (λ mismatch. mismatch.host ≡ seat.now.host) }
    ensures position { IfErr result
        (λ mismatch. DiffersAt mismatch.position seat.now.transcript (part seat.now.host.number history.now)) }
{
    let host = seat.host();
    let transcript = seat.transcript();
    match first_difference(history, host, transcript) {
        None => Ok(transcript.len() as u64),
        Some(position) => Err(Mismatch { host, position }),
    }
}

// The position in the transcript after `entry`, or None if the transcript differs from it at `at`.
fn follow(entry: &Entry, host: Host, transcript: &[Exchange], at: usize) -> Option<usize>
    requires { at ≤ length transcript.now }
    ensures { MatchOption result
        (Departs host.number entry.now transcript.now at)
        (λ next. Agrees host.number entry.now transcript.now at next) }
{
    let Some(command) = command_of(entry, host) else {
        return Some(at);
    };
    match transcript.get(at) {
        None => None,
        Some(line) => {
            if is_same(line, command) {
                Some(at + 1)
            } else {
                None
            }
        }
    }
}

// The command of an entry, if it is one of this host.
fn command_of(entry: &Entry, host: Host) -> Option<&Exchange>
    ensures { MatchOption result
        (command_of host.number entry.now ≡ None)
        (λ command. command_of host.number entry.now ≡ Some command.now) }
{
    match entry {
        Entry::Cmd(whose, exchange) if whose.number() == host.number() => Some(exchange),
        _ => None,
    }
}

// Whether two commands and their replies are the same, byte by byte.
fn is_same(one: &Exchange, other: &Exchange) -> bool
    ensures { IsSame result one.now other.now }
{
    *one == *other
}
