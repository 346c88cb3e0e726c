// Observers of a session's commands. An observer specifies what each call makes of it, and only its calls change it: so
// a session whose contract leads from one state of an observer to another has made exactly the calls between them.
ghost use Rattle.std.specs.Prelude.{ℕ};
ghost use Rattle.ar_disks.specs.declared.address.Host.{Host};
ghost use Rattle.ar_frames.specs.Observer.{Announces, Reports};

use crate::frame::Request;
use crate::transfer::Sent;
use ar_disks::Host;
use std::marker::Model;

/// Observes the commands that one session gives to its port.
pub trait Observer {
    /// What the call before a command does, as the observer specifies it: the observer before, the host, the command's
    /// number, the request, the observer after.
    ghost announces: { Announces Self };

    /// What the call after a reply does, as the observer specifies it: the observer before, the host, the command's
    /// number, how far the reply was written, the observer after.
    ghost reports: { Reports Self };

    /// Called before the n-th command of the session, with its request; `n` counts from 1.
    fn before(&mut self, host: Host, n: u64, request: &Request)
        ensures { announces self.old host n request.now self.new };

    /// Called after the reply to the n-th command was written, or its write faulted.
    fn after(&mut self, host: Host, n: u64, sent: Sent)
        ensures { reports self.old host n sent self.new };
}

/// Observes the commands of sessions that may run at once.
pub trait Gate {
    /// What is known once a host's n-th command was announced.
    ghost announced: { Host → ℕ → Type 0 } = { λ _ _. Unit {0} };

    /// What is known once its reply was reported.
    ghost reported: { Host → ℕ → Type 0 } = { λ _ _. Unit {0} };

    /// Called before the n-th command of a host's session; `n` counts from 1.
    fn before(&self, host: Host, n: u64)
        ensures { announced host n };

    /// Called after the reply to that command was written, or its write faulted.
    fn after(&self, host: Host, n: u64)
        ensures { reported host n };
}

/// A gate that does nothing.
#[derive(Clone, Copy, Debug)]
pub struct NoGate;

impl Gate for NoGate {
    fn before(&self, _host: Host, _n: u64) {}

    fn after(&self, _host: Host, _n: u64) {}
}

// A session's place at a gate. It has no state: a gate may be called by other sessions meanwhile.
#[derive(Drop)]
pub(crate) struct AtGate<'a, G: Gate> {
    pub gate: &'a G,
}

impl<'a, G: Gate> Model for AtGate<'a, G> {
    ghost Value = { Unit {0} };

    ghost view = { λ _. tt };
}

impl<'a, G: Gate> Observer for AtGate<'a, G> {
    ghost announces = { λ _ host n _ _. G.announced host n };

    ghost reports = { λ _ host n _ _. G.reported host n };

    fn before(&mut self, host: Host, n: u64, _request: &Request) {
        self.gate.before(host, n);
    }

    fn after(&mut self, host: Host, n: u64, _sent: Sent) {
        self.gate.after(host, n);
    }
}
