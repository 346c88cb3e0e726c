// The interface from a session to the array. A port executes one host's commands, and only after an accepted login.
ghost use Rattle.std.specs.Prelude.{◌≡◌, ◌<◌, ◌↔◌, ℕ, Bool, true, false, List};
ghost use Rattle.ar_scsi.specs.declared.reply.Reply.{Reply};
ghost use Rattle.ar_scsi.specs.Reply.{busy};
ghost use Rattle.ar_frames.specs.Frame.{IsReply};
ghost use Rattle.ar_frames.specs.Conversation.{Commands};
ghost use Rattle.ar_frames.specs.Port.{CommandRefusals, Logins, is_taken};

use ar_disks::Host;
use ar_scsi::Reply;
use bytes::Bytes;

/// A port's reply to a login.
#[derive(Clone, Copy, Debug, PartialEq, Eq)]
pub enum Login {
    /// The login is accepted; commands may follow.
    Taken,
    /// There is no such host: its number is above 3.
    BadHost,
    /// Another session of the host is open.
    InUse,
}

/// Executes the commands of one host, once its login is accepted.
pub trait Port {
    /// Whether a login was accepted.
    ghost has_login: { Self → Bool };

    /// What a login may do, as the port specifies it: the port before, the host's number, the result, the port after.
    ghost logins: { Logins Self };

    /// What a command may do, as the port specifies it: the port before, the LUN, the command block, the data, the
    /// reply, the port after.
    ghost commands: { Commands Self };

    /// What a refusal may do, as the port specifies it: the port before, the command block, the port after.
    ghost refuses: { CommandRefusals Self };

    /// Logs a host in by its number. `BadHost` is returned exactly for a number above 3. Unless the result is `Taken`,
    /// the port stays without a login.
    fn login(&mut self, host: u8) -> Login
        requires { has_login self.old ≡ false }
        ensures login { logins self.old host result self.new }
        ensures bad_host { result ≡ Login.BadHost ↔ 3 < host }
        ensures taken { has_login self.new ≡ is_taken result };

    /// Executes a command of the host: its block, and the data that came with it. The reply has 18 bytes of sense data
    /// with CHECK CONDITION alone, and a payload with GOOD alone, of at most 33,553,920 bytes.
    fn command(&mut self, lun: u8, cdb: &[u8; 16], payload: Bytes) -> Reply
        requires { has_login self.old ≡ true }
        ensures command { commands self.old lun cdb.now payload result self.new }
        ensures reply { IsReply result }
        ensures stays { has_login self.new ≡ true };

    /// Answers BUSY to a command of the host, by its block, without executing it. The port stays as it is; whether it
    /// counts the reply, it specifies itself. It allocates nothing, since memory for the command's data has run out.
    fn refuse(&mut self, cdb: &[u8; 16]) -> Reply
        requires { has_login self.old ≡ true }
        ensures refusal { refuses self.old cdb.now self.new }
        ensures same { self.new ≡ self.old }
        ensures busy { result ≡ busy };
}
