// The iSCSI sessions that are known by their initiators: all whose logins were in order, until they end. A login with
// the name and ISID of one with the same host takes its place, and ends it (RFC 7143, 6.3.5).
ghost use Rattle.std.specs.Prelude.{◌≡◌, ◌≤◌, [], IfOk, OnOk, OnErr, false, is_none, length, map};
ghost use Rattle.std.specs.Prelude.{min, take};
ghost use Rattle.std.specs.List.{list_any};
ghost use Rattle.ar_attached.specs.Attached.{after_entry, after_login, after_order, are_of_one_host, attached_with};
ghost use Rattle.ar_attached.specs.Attached.{attached_without, is_meant};
ghost use Rattle.ar_attached.specs.Attached.{discoveries, name_text, numbers_below, takes_place_of};

use crate::initiator_name::InitiatorName;
use ar_frames::Progress;
use ar_status::InitiatorSession;
use ar_target::InitiatorLogin;
use std::alloc::{AllocError, Global};
use std::io::Write;
use std::marker::Model;
use std::sync::Arc;
use std::{fmt, io, str};

/// An iSCSI session whose login is in order.
#[derive(Clone, Copy)]
pub struct Attached {
    /// The number of its connection, as the log has it.
    pub number: u64,
    /// None: it is for discovery.
    pub host: Option<u8>,
    pub name: InitiatorName,
    pub isid_high: u32,
    pub isid_low: u16,
    /// The port of 127.0.0.1 that its initiator connects from, over TCP.
    pub peer: Option<u16>,
    /// Whether its login was accepted, or it is for discovery.
    pub has_entered: bool,
    /// Whether another has taken its place.
    pub is_ended: bool,
}

// A session of the list, and how far it has come.
#[derive(Drop)]
struct Entry {
    session: Attached,
    progress: Option<Arc<Progress>>,
}

/// The iSCSI sessions, by number. Their lock is taken while no other is held.
#[derive(Drop)]
pub struct Initiators {
    list: Vec<Entry>,
}

impl Model for Entry {
    ghost use Rattle.ar_attached.specs.declared.attached.Attached.{Attached};

    ghost Value = { Attached };

    ghost view = { λ entry. entry.session };
}

impl Model for Initiators {
    ghost use Rattle.std.specs.Prelude.{List};
    ghost use Rattle.ar_attached.specs.declared.attached.Attached.{Attached};

    ghost Value = { List Attached };

    ghost view = { λ initiators. initiators.list.items };
}

impl Attached {
    /// A session whose login has come to the port. One for discovery needs nothing more.
    pub fn new(number: u64, login: InitiatorLogin<'_>, peer: Option<u16>) -> Attached
        ensures number { result.number ≡ number }
        ensures host { result.host ≡ login.entry.host }
        ensures name { name_text result.name ≡ take 223 login.entry.initiator.now }
        ensures isid { (result.isid_high ≡ login.entry.isid_high) × (result.isid_low ≡ login.entry.isid_low) }
        ensures entered { result.has_entered ≡ is_none login.entry.host }
        ensures open { result.is_ended ≡ false }
    {
        Attached {
            number,
            host: login.host,
            name: InitiatorName::new(login.initiator),
            isid_high: login.isid_high,
            isid_low: login.isid_low,
            peer,
            has_entered: login.host.is_none(),
            is_ended: false,
        }
    }

    // Whether it is a session of this host, and has this number, if there is one.
    fn is_meant(&self, host: u8, number: Option<u64>) -> bool
        ensures { result ≡ is_meant host number self.now }
    {
        are_of_one_host(self.host, Some(host)) && self.number == number.unwrap_or(self.number)
    }

    // Whether it takes the place of another: it has its initiator's name, its ISID and its host.
    fn takes_place_of(&self, old: &Attached) -> bool
        ensures { result ≡ takes_place_of self.now old.now }
    {
        are_of_one_host(self.host, old.host)
            && self.isid_high == old.isid_high
            && self.isid_low == old.isid_low
            && self.name.as_slice() == old.name.as_slice()
    }
}

/// What the log says of it: `2 of 127.0.0.1:41204: iqn.1993-08.org.debian:01:abc is host 0`, or `.. discovers`.
impl fmt::Display for Attached {
    fn fmt<W: fmt::Write>(&self, f: &mut fmt::Formatter<W>) -> fmt::Result {
        let number = self.number;
        write!(f, "{number}")?;
        if let Some(port) = self.peer {
            write!(f, " of 127.0.0.1:{port}")?;
        }
        let name = self.name.shown();
        let name = str::from_utf8(name.as_slice()).unwrap_or("?");
        write!(f, ": {name} ")?;
        match self.host {
            Some(host) => write!(f, "is host {host}"),
            None => f.write_str("discovers"),
        }
    }
}

// Whether both are of one host. Sessions for discovery are of none.
fn are_of_one_host(one: Option<u8>, other: Option<u8>) -> bool
    ensures { result ≡ are_of_one_host one other }
{
    match (one, other) {
        (Some(one), Some(other)) => one == other,
        _ => false,
    }
}

impl Entry {
    // Ends it, if a session that logs in takes its place.
    fn see_login(&mut self, new: &Attached)
        ensures { self.new ≡ after_login new.now self.old }
    {
        if new.takes_place_of(&self.session) {
            if let Some(progress) = &self.progress {
                progress.end();
            }
            self.session.is_ended = true;
        }
    }

    // Ends it, if an operator means it.
    fn see_order(&mut self, host: u8, number: Option<u64>)
        ensures { self.new ≡ after_order host number self.old }
    {
        if self.session.is_meant(host, number) {
            if let Some(progress) = &self.progress {
                progress.end();
            }
            self.session.is_ended = true;
        }
    }

    // Notes that its login was accepted, if it has this number.
    fn see_entry(&mut self, number: u64)
        ensures { self.new ≡ after_entry number self.old }
    {
        if self.session.number == number {
            self.session.has_entered = true;
        }
    }

    fn session(&self) -> Attached
        ensures { result ≡ self.now }
    {
        self.session
    }
}

impl Initiators {
    /// An empty list without capacity.
    pub fn none(alloc: Global) -> Initiators
        ensures { result ≡ [] }
    {
        Initiators {
            list: Vec::new(alloc),
        }
    }

    /// An empty list with capacity for `most`.
    pub fn new(alloc: Global, most: usize) -> Result<Initiators, AllocError>
        ensures { IfOk result (λ initiators. initiators ≡ []) }
    {
        Ok(Initiators {
            list: Vec::with_capacity(alloc, most)?,
        })
    }

    /// Adds a session whose login is in order, and ends those whose place it takes. `Err`: there is no memory for it;
    /// those are ended all the same.
    pub fn begin(
        &mut self,
        session: Attached,
        progress: Option<Arc<Progress>>,
    ) -> Result<(), AllocError>
        ensures added { OnOk result (self.new ≡ attached_with session (map (after_login session) self.old)) }
        ensures full { OnErr result (self.new ≡ map (after_login session) self.old) }
    {
        end_former(&mut self.list, &session);
        add(&mut self.list, Entry { session, progress })
    }

    /// Notes that the login of the session of this number was accepted.
    pub fn enter(&mut self, number: u64)
        ensures { self.new ≡ map (after_entry number) self.old }
    {
        note_entry(&mut self.list, number);
    }

    /// Ends the sessions of a host, or the one of this number. Returns whether there is one.
    pub fn end_sessions(&mut self, host: u8, number: Option<u64>) -> bool
        ensures ended { self.new ≡ map (after_order host number) self.old }
        ensures found { result ≡ list_any (is_meant host number) self.old }
    {
        let is_found = has_meant(&self.list, host, number);
        end_meant(&mut self.list, host, number);
        is_found
    }

    /// Removes the session of this number, if there is one.
    pub fn end(&mut self, number: u64)
        ensures { self.new ≡ attached_without number self.old }
    {
        remove(&mut self.list, number);
    }

    /// How many are for discovery.
    pub fn discoveries(&self) -> u8
        ensures { result ≡ min (discoveries self.now) 255 }
    {
        count_discoveries(&self.list)
    }

    /// The session of this number, if there is one.
    pub fn session(&self, number: u64) -> Option<Attached> {
        for entry in &self.list {
            let session = entry.session();
            if session.number == number {
                return Some(session);
            }
        }
        None
    }

    /// Writes a line for each whose login was accepted.
    pub fn write(&self, out: &mut Vec<u8>) -> Result<(), AllocError> {
        for entry in &self.list {
            let session = entry.session();
            if session.has_entered {
                write_session(out, &session)?;
            }
        }
        Ok(())
    }
}

impl Initiators {
    /// Lists those whose login was accepted. It fails only when out of memory.
    pub fn listed(&self, alloc: Global) -> Result<Vec<InitiatorSession>, AllocError> {
        let mut sessions = Vec::with_capacity(alloc, self.list.len())?;
        for entry in &self.list {
            let session = entry.session();
            if session.has_entered {
                sessions.push(listed_session(alloc, &session)?)?;
            }
        }
        Ok(sessions)
    }
}

// Ends the sessions whose place another takes.
fn end_former(list: &mut Vec<Entry>, new: &Attached)
    ensures items { list.new.items ≡ map (after_login new.now) list.old.items }
{
    for entry in list.iter_mut() {
        entry.see_login(new);
    }
}

// Whether a session of a host, or the one of this number, is there.
fn has_meant(list: &[Entry], host: u8, number: Option<u64>) -> bool
    ensures { result ≡ list_any (is_meant host number) list.now }
{
    list.iter()
        .any(|entry| entry.session().is_meant(host, number))
}

// Ends the sessions of a host, or the one of this number.
fn end_meant(list: &mut Vec<Entry>, host: u8, number: Option<u64>)
    ensures items { list.new.items ≡ map (after_order host number) list.old.items }
{
    for entry in list.iter_mut() {
        entry.see_order(host, number);
    }
}

// Notes that the login of a session was accepted.
fn note_entry(list: &mut Vec<Entry>, number: u64)
    ensures { list.new.items ≡ map (after_entry number) list.old.items }
{
    for entry in list.iter_mut() {
        entry.see_entry(number);
    }
}

// Adds a session after those of lower numbers.
fn add(list: &mut Vec<Entry>, new: Entry) -> Result<(), AllocError>
    ensures added { OnOk result (list.new.items ≡ attached_with new list.old.items) }
    ensures full { OnErr result (list.new.items ≡ list.old.items) }
{
    let place = numbers_below(list, new.session().number);
    match list.insert(place, new) {
        Ok(()) => Ok(()),
        Err(_) => Err(AllocError),
    }
}

// How many sessions have lower numbers.
fn numbers_below(list: &[Entry], number: u64) -> usize
    ensures place { result ≡ numbers_below number list.now }
    ensures within { result ≤ length list.now }
{
    list.iter()
        .filter(|entry| entry.session().number < number)
        .count()
}

// Removes a session.
fn remove(list: &mut Vec<Entry>, number: u64)
    ensures { list.new.items ≡ attached_without number list.old.items }
{
    list.retain(|entry| entry.session().number != number);
}

fn count_discoveries(list: &[Entry]) -> u8
    ensures { result ≡ min (discoveries list.now) 255 }
{
    let count = list
        .iter()
        .filter(|entry| entry.session().host.is_none())
        .count();
    count.min(255) as u8
}

fn listed_session(alloc: Global, session: &Attached) -> Result<InitiatorSession, AllocError> {
    let name = session.name.shown();
    let initiator = str::from_utf8(name.as_slice()).unwrap_or("?");
    Ok(InitiatorSession {
        number: session.number,
        host: session.host,
        peer_port: session.peer,
        initiator: String::from_str(alloc, initiator)?,
    })
}

// Writes the line of a session.
fn write_session(out: &mut Vec<u8>, session: &Attached) -> Result<(), AllocError> {
    let name = session.name.shown();
    let (number, host, peer) = (session.number, session.host, session.peer);
    write_initiator(out, number, host, peer, name.as_slice()).map_err(|_| AllocError)
}

// Writes an iSCSI session, as a line: its number, its host, or that it is for discovery, the port of 127.0.0.1 that it
// comes from, if it has one, and its initiator's name.
fn write_initiator<W: Write>(
    out: &mut W,
    number: u64,
    host: Option<u8>,
    peer: Option<u16>,
    name: &[u8],
) -> io::Result<()> {
    write!(out, "iscsi {number} ")?;
    write_purpose(out, host)?;
    write_peer(out, peer)?;
    out.write_all(name)?;
    out.write_all(b"\n")
}

fn write_purpose<W: Write>(out: &mut W, host: Option<u8>) -> io::Result<()> {
    match host {
        Some(host) => write!(out, "host {host} "),
        None => out.write_all(b"discovery "),
    }
}

fn write_peer<W: Write>(out: &mut W, peer: Option<u16>) -> io::Result<()> {
    match peer {
        Some(port) => write!(out, "127.0.0.1:{port} "),
        None => Ok(()),
    }
}
