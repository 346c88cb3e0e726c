// A port that answers what initiators ask of a device server beyond the array's commands.
ghost use Rattle.std.specs.Prelude.{◌≡◌, true};
ghost use Rattle.ar_frames.specs.Frame.{IsReply};
ghost use Rattle.ar_target.specs.DeviceServer.{ServesAsDevice, reset_outcome};

use crate::attention::{
    Pending, Report, look, make_all_due, make_due, make_report, of_new_session, owes_report,
    see_reply, sense_due, settle,
};
use crate::attributes::Attributes;
use crate::discard_port::DiscardPort;
use crate::inventory_port::InventoryPort;
use crate::own_commands::{INQUIRY, ask, presence};
use crate::request::request_of;
use crate::reset_port::{ResetOutcome, ResetPort};
use crate::serve::serve;
use ar_frames::{Login, Port};
use ar_scsi::Reply;
use bytes::Bytes;
use std::alloc::Global;

/// The device server of the units of one host. It answers by what the port below it tells, and holds nothing of a unit
/// but what it has yet to report: that the session is new, a reset, or that the host's units have changed.
#[derive(Drop)]
pub struct DeviceServer<P> {
    alloc: Global,
    /// The port of the array's own commands.
    pub port: P,
    /// What is reported of the array and of the host, which is that of the latest login.
    pub attributes: Attributes,
    pending: Pending,
}

impl<P> DeviceServer<P> {
    /// A device server over `port`. `attributes.host` counts only after a login, and is that login's.
    pub fn new(alloc: Global, port: P, attributes: Attributes) -> DeviceServer<P>
        ensures port { result.port ≡ port }
        ensures attributes { result.attributes ≡ attributes }
    {
        DeviceServer {
            alloc,
            port,
            attributes,
            pending: of_new_session(0),
        }
    }

    /// Returns the port.
    pub fn into_port(self) -> P
        ensures { result ≡ self.port }
    {
        self.port
    }
}

impl<P: DiscardPort> DeviceServer<P> {
    // Answers a command, once the session has looked whether the inventory of the host's units has changed, and of
    // which generation the unit is.
    fn answer(&mut self, lun: u8, generation: u16, cdb: &[u8; 16], payload: Bytes) -> Reply
        requires { P.has_login self.old.port ≡ true }
        ensures serves { ServesAsDevice P.commands P.flushes (record { discards = P.discards; runs = P.runs })
            (record { attributes = self.old.attributes; pending = self.old.pending; port = self.old.port }) lun
            generation cdb.now payload result
            (record { attributes = self.new.attributes; pending = self.new.pending; port = self.new.port }) }
        ensures reply { IsReply result }
        ensures stays { P.has_login self.new.port ≡ true }
    {
        let request = request_of(cdb);
        if owes_report(&self.pending, lun, request, cdb) {
            let sense = sense_due(&self.pending, lun);
            match make_report(self.alloc, &mut self.port, lun, request, sense) {
                Report::Made(reply) => {
                    settle(&mut self.pending, lun);
                    return reply;
                }
                Report::Due(reply) => return reply,
                Report::NoUnit => {}
            }
        }
        let attributes = self.attributes;
        let reply = serve(
            self.alloc,
            &mut self.port,
            &attributes,
            request,
            lun,
            generation,
            cdb,
            payload,
        );
        see_reply(&mut self.pending, request, reply.status);
        reply
    }
}

impl<P: DiscardPort + InventoryPort> Port for DeviceServer<P> {
    ghost use Rattle.ar_target.specs.DeviceServer.{LogsInAs, ServesAfterLook};

    ghost has_login = { λ server. P.has_login server.port };

    ghost logins = { λ old host login new. LogsInAs P.logins P.counts
        (record { attributes = old.attributes; pending = old.pending; port = old.port }) host login
        (record { attributes = new.attributes; pending = new.pending; port = new.port }) };

    ghost commands = { λ old lun cdb payload reply new. ServesAfterLook P.commands P.flushes
        (record { discards = P.discards; runs = P.runs })
        (record { counts = P.counts; generations = P.generations })
        (record { attributes = old.attributes; pending = old.pending; port = old.port }) lun cdb payload reply
        (record { attributes = new.attributes; pending = new.pending; port = new.port }) };

    ghost refuses = { λ old cdb new. P.refuses old.port cdb new.port };

    fn login(&mut self, host: u8) -> Login {
        self.attributes.host = host;
        let login = self.port.login(host);
        self.pending = of_new_session(self.port.changes());
        login
    }

    fn command(&mut self, lun: u8, cdb: &[u8; 16], payload: Bytes) -> Reply {
        let count = self.port.changes();
        look(&mut self.pending, count);
        let generation = self.port.generation(lun);
        self.answer(lun, generation, cdb, payload)
    }

    fn refuse(&mut self, cdb: &[u8; 16]) -> Reply {
        self.port.refuse(cdb)
    }
}

impl<P: DiscardPort + InventoryPort> ResetPort for DeviceServer<P> {
    ghost use Rattle.ar_target.specs.DeviceServer.{ResetsUnits};

    ghost resets = { λ old lun outcome new. ResetsUnits P.commands
        (record { attributes = old.attributes; pending = old.pending; port = old.port }) lun outcome
        (record { attributes = new.attributes; pending = new.pending; port = new.port }) };

    fn reset(&mut self, lun: Option<u8>) -> ResetOutcome {
        let Some(lun) = lun else {
            make_all_due(&mut self.pending);
            return ResetOutcome::Done;
        };
        make_due(&mut self.pending, lun);
        reset_outcome(presence(&ask(&mut self.port, lun, &INQUIRY)))
    }
}

// The outcome of a reset by whether there is a unit, if the port states that.
fn reset_outcome(is_there: Option<bool>) -> ResetOutcome
    ensures { result ≡ reset_outcome is_there }
{
    match is_there {
        Some(false) => ResetOutcome::NoUnit,
        Some(true) | None => ResetOutcome::Done,
    }
}
