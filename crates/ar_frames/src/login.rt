// The login of a session. The port is given commands only after a login that it has accepted.
//
//     login  | 'ARAIDHO1':8 | host:1 |  ->  reply  | 00 accepted, 01 refused |
ghost use Rattle.std.specs.Prelude.{◌≡◌, ◌↔◌, ◌<◌, IsTrue, take, ◌∷◌, [], false, true};
ghost use Rattle.ar_frames.specs.Session.{Opening, login_name};
ghost use Rattle.ar_frames.specs.Login.{Enters, Names, ReportsAdmission, stage_of, greeting_of, result_of_login};
ghost use Rattle.ar_disks.specs.declared.address.Host.{Host};

use crate::end::EndReason;
use crate::port::{Login, Port};
use crate::stream::{Sink, Source};
use crate::transfer::{FillResult, Sent, fill, send};
use ar_disks::Host;

/// The first eight bytes of a login.
pub const LOGIN_NAME: [u8; 8] = *b"ARAIDHO1";

// The result of a whole login.
#[derive(Clone, Copy)]
pub(crate) enum Admission {
    Admitted(Host),
    BadLogin,
    HostInUse,
}

// How a session begins: with a host, or with its end.
#[derive(Clone, Copy)]
pub(crate) enum LoginResult {
    Admitted(Host),
    Ended(EndReason),
}

// Reads a login and writes the reply to it.
pub(crate) fn enter<R: Source, W: Sink, P: Port>(
    reader: &mut R,
    writer: &mut W,
    port: &mut P,
) -> LoginResult
    requires { P.has_login port.old ≡ false }
    ensures enters { Enters P.logins P.commands (R.state reader.old) (R.state reader.new)
        (W.state writer.old) (W.state writer.new) port.old port.new result }
    ensures logged { (host : Host) → result ≡ LoginResult.Admitted host → P.has_login port.new ≡ true }
{
    let mut login = [0; 9];
    match fill(reader, &mut login) {
        FillResult::Full => tell(writer, admit(port, &login)),
        FillResult::Ended(_) => LoginResult::Ended(EndReason::Cut),
        FillResult::Failed(_) => LoginResult::Ended(EndReason::Read),
    }
}

// Gives the login to the port, if it begins with `LOGIN_NAME`.
fn admit<P: Port>(port: &mut P, login: &[u8; 9]) -> Admission
    requires { P.has_login port.old ≡ false }
    ensures opening { Opening P.logins port.old login.now (greeting_of result ∷ []) (stage_of result) port.new }
    ensures named { (host : Host) → result ≡ Admission.Admitted host → Names host login.now }
    ensures logged { (host : Host) → result ≡ Admission.Admitted host → P.has_login port.new ≡ true }
{
    if !has_name(login) {
        return Admission::BadLogin;
    }
    let number = login[8];
    match port.login(number) {
        Login::Taken => admitted(number),
        Login::BadHost => Admission::BadLogin,
        Login::InUse => Admission::HostInUse,
    }
}

// Whether a login begins with `LOGIN_NAME`.
fn has_name(login: &[u8; 9]) -> bool
    ensures { IsTrue result ↔ (take 8 login.now ≡ login_name) }
{
    login[..8] == LOGIN_NAME[..]
}

// The host with a number that the port has accepted.
fn admitted(number: u8) -> Admission
    requires { number < 4 }
    ensures { (host : Host) × (result ≡ Admission.Admitted host) × (host.number ≡ number) }
{
    match Host::new(number) {
        Some(host) => Admission::Admitted(host),
        None => unreachable!(),
    }
}

// Writes the byte that reports an admission.
fn tell<W: Sink>(writer: &mut W, admission: Admission) -> LoginResult
    ensures { ReportsAdmission (W.state writer.old) (W.state writer.new) admission result }
{
    match send(writer, &[byte_of(admission)]) {
        Sent::Whole => result_of_login(admission),
        Sent::Part(_) => LoginResult::Ended(EndReason::Write),
    }
}

fn byte_of(admission: Admission) -> u8
    ensures { result ≡ greeting_of admission }
{
    match admission {
        Admission::Admitted(_) => 0x00,
        Admission::BadLogin | Admission::HostInUse => 0x01,
    }
}

fn result_of_login(admission: Admission) -> LoginResult
    ensures { result ≡ result_of_login admission }
{
    match admission {
        Admission::Admitted(host) => LoginResult::Admitted(host),
        Admission::BadLogin => LoginResult::Ended(EndReason::BadLogin),
        Admission::HostInUse => LoginResult::Ended(EndReason::HostInUse),
    }
}
