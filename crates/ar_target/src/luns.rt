// REPORT LUNS: each LUN that a host's unit may have is looked for by an INQUIRY, which leaves a UNIT ATTENTION pending.
ghost use Rattle.std.specs.Prelude.{◌≡◌, ◌≤◌, ◌<◌, ◌++◌, ◌∷◌, ◌+◌, ◌*◌, [], IfOk, IfSome, IfNone, IsTrue, true, length};
ghost use Rattle.std.specs.Prelude.{take, vec_len};
ghost use Rattle.ar_scsi.specs.Reply.{good};
ghost use Rattle.ar_frames.specs.Frame.{IsReply};
ghost use Rattle.ar_target.specs.Luns as luns;
ghost use Rattle.ar_target.specs.OwnCommands.{IsReturned};

use crate::own_commands::{INQUIRY, ask, cut_reply, handed_on, presence};
use ar_disks::MAX_LUN;
use ar_frames::Port;
use ar_scsi::Reply;
use std::alloc::{AllocError, Global};

/// Asks the port for the host's units, and returns their LUNs, cut to `len` bytes.
pub(crate) fn report_luns<P: Port>(alloc: Global, port: &mut P, len: u32) -> Reply
    requires logged { P.has_login port.old ≡ true }
    requires some { 16 ≤ len }
    ensures reports { luns.ReportsLuns P.commands len port.old result port.new }
    ensures reply { IsReply result }
    ensures stays { P.has_login port.new ≡ true }
{
    let mut found = Vec::new(alloc);
    for lun in 0..MAX_LUN + 1 {
        if let Some(reply) = look_for(port, lun, &mut found) {
            return reply;
        }
    }
    list_reply(alloc, &found, len as usize)
}

// Looks for a LUN, and appends it if there is a unit. Some: the search stops with this answer.
fn look_for<P: Port>(port: &mut P, lun: u8, found: &mut Vec<u8>) -> Option<Reply>
    requires { P.has_login port.old ≡ true }
    ensures seeks { IfNone result (luns.SeeksLun P.commands port.old lun found.old.items found.new.items port.new) }
    ensures stops { IfSome result (λ reply. luns.StopsLooking P.commands port.old lun reply port.new) }
    ensures reply { IfSome result IsReply }
    ensures stays { P.has_login port.new ≡ true }
{
    let own_reply = ask(port, lun, &INQUIRY);
    match presence(&own_reply) {
        Some(true) => {
            if hold(found, lun) {
                None
            } else {
                Some(Reply::busy())
            }
        }
        Some(false) => None,
        None => Some(handed_on(own_reply)),
    }
}

// Appends a LUN. False: the allocation failed.
fn hold(found: &mut Vec<u8>, lun: u8) -> bool
    ensures { IsTrue result → found.new.items ≡ found.old.items ++ lun ∷ [] }
{
    found.push(lun).is_ok()
}

/// GOOD with the list of these LUNs, cut to `len` bytes.
pub(crate) fn list_reply(alloc: Global, found: &[u8], len: usize) -> Reply
    requires some { 16 ≤ len }
    requires few { length found.now ≤ luns.lun_count }
    ensures answer { IsReturned (good (take len (luns.lun_list found.now))) result }
    ensures reply { IsReply result }
{
    match lun_list(alloc, found) {
        Ok(list) => cut_reply(alloc, &list, len),
        Err(_) => Reply::busy(),
    }
}

// The list of these LUNs. Fails if out of memory.
fn lun_list(alloc: Global, found: &[u8]) -> Result<Vec<u8>, AllocError>
    requires { length found.now ≤ luns.lun_count }
    ensures list { IfOk result (λ list. list.items ≡ luns.lun_list found.now) }
    ensures len { IfOk result (λ list. vec_len list ≡ 8 + 8 * length found.now) }
{
    let mut list = Vec::new(alloc);
    list.extend_from_slice(&(8 * found.len() as u32).to_be_bytes())?;
    list.extend_from_slice(&[0; 4])?;
    for lun in found {
        list.extend_from_slice(&[0, *lun, 0, 0, 0, 0, 0, 0])?;
    }
    Ok(list)
}
