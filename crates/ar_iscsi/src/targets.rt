// Discovery: the targets of the four hosts and their address, as `SendTargets` asks for them (RFC 7143, Appendix C).
ghost use Rattle.std.specs.Prelude.{◌≡◌, ◌++◌, ◌<◌, ◌==◌, OnOk};
ghost use Rattle.ar_iscsi.specs.Targets as targets;

use crate::keys::{Key, key_named};
use crate::negotiation::{TargetChoice, target_of};
use crate::text::{behind, item_name, item_value, place_of, put_item};
use std::alloc::AllocError;

/// Appends the answer to the text of a text request: the targets that each `SendTargets` asks for, in a session with
/// the target of `host`, or for discovery. `address` is the target's address and port, as `127.0.0.1:3260`. Other keys
/// are rejected here.
pub fn answer_targets(
    out: &mut Vec<u8>,
    address: &[u8],
    host: Option<u8>,
    asked: &[u8],
) -> Result<(), AllocError>
    ensures { OnOk result (out.new.items ≡ out.old.items ++ targets.targets_answer address.now host asked.now) }
{
    let mut rest = asked;
    let mut end = place_of(0, rest);
    while end < rest.len() {
        answer_asked(out, address, host, &rest[..end])?;
        rest = behind(rest, end);
        end = place_of(0, rest);
    }
    answer_asked(out, address, host, rest)
}

// Appends the answer to an item, unless it is empty.
fn answer_asked(
    out: &mut Vec<u8>,
    address: &[u8],
    host: Option<u8>,
    item: &[u8],
) -> Result<(), AllocError>
    ensures { OnOk result (out.new.items ≡ out.old.items ++ targets.asked_answer address.now host item.now) }
{
    if item.is_empty() {
        return Ok(());
    }
    match key_named(item_name(item)) {
        Key::SendTargets => send_targets(out, address, host, item),
        _ => put_item(out, item_name(item), b"Reject"),
    }
}

// Appends the answer to `SendTargets`. A session with the target of a host names no others.
fn send_targets(
    out: &mut Vec<u8>,
    address: &[u8],
    host: Option<u8>,
    item: &[u8],
) -> Result<(), AllocError>
    ensures { OnOk result (out.new.items ≡ out.old.items ++ targets.send_targets address.now host item.now) }
{
    let wanted = item_value(item);
    match host {
        None => put_chosen(out, address, wanted),
        Some(host) => {
            if wanted == b"All".as_slice() {
                put_item(out, item_name(item), b"Reject")
            } else {
                put_own(out, address, host, wanted)
            }
        }
    }
}

// Appends the target of a host, if a value of `SendTargets` is its name or empty.
fn put_own(out: &mut Vec<u8>, address: &[u8], host: u8, wanted: &[u8]) -> Result<(), AllocError>
    ensures { OnOk result (out.new.items ≡ out.old.items ++ targets.own_target address.now host wanted.now) }
{
    if wanted.is_empty() || is_of_host(target_of(wanted), host) {
        put_host(out, address, host)
    } else {
        Ok(())
    }
}

// Whether a name is that of a host's target.
fn is_of_host(choice: TargetChoice, host: u8) -> bool
    ensures { result ≡ targets.is_of_host choice host }
{
    match choice {
        TargetChoice::OfHost(named) => named == host,
        TargetChoice::Unnamed | TargetChoice::Unknown => false,
    }
}

// Appends the targets that a value of `SendTargets` asks for in a session for discovery: all, or the one of this name.
fn put_chosen(out: &mut Vec<u8>, address: &[u8], wanted: &[u8]) -> Result<(), AllocError>
    ensures { OnOk result (out.new.items ≡ out.old.items ++ targets.chosen address.now wanted.now) }
{
    if wanted.is_empty() || wanted == b"All".as_slice() {
        put_all(out, address)
    } else {
        put_choice(out, address, target_of(wanted))
    }
}

// Appends the target of a choice, if there is one.
fn put_choice(out: &mut Vec<u8>, address: &[u8], choice: TargetChoice) -> Result<(), AllocError>
    ensures { OnOk result (out.new.items ≡ out.old.items ++ targets.target_chosen address.now choice) }
{
    match choice {
        TargetChoice::OfHost(host) => put_host(out, address, host),
        TargetChoice::Unnamed | TargetChoice::Unknown => Ok(()),
    }
}

// Appends the target of a host, if there is such a host.
fn put_host(out: &mut Vec<u8>, address: &[u8], host: u8) -> Result<(), AllocError>
    ensures { OnOk result (out.new.items ≡ out.old.items ++ targets.host_target address.now host) }
{
    if host < 4 {
        put_target(out, address, host)
    } else {
        Ok(())
    }
}

// Appends all targets.
fn put_all(out: &mut Vec<u8>, address: &[u8]) -> Result<(), AllocError>
    ensures { OnOk result (out.new.items ≡ out.old.items ++ targets.all_targets address.now) }
{
    put_target(out, address, 0)?;
    put_target(out, address, 1)?;
    put_target(out, address, 2)?;
    put_target(out, address, 3)
}

// Appends the target of a host: its name, and its address.
fn put_target(out: &mut Vec<u8>, address: &[u8], host: u8) -> Result<(), AllocError>
    requires { host < 10 }
    ensures { OnOk result (out.new.items ≡ out.old.items ++ targets.one_target address.now host) }
{
    put_name(out, host)?;
    put_address(out, address)
}

// Appends the name of the target of a host.
fn put_name(out: &mut Vec<u8>, host: u8) -> Result<(), AllocError>
    requires { host < 10 }
    ensures { OnOk result (out.new.items ≡ out.old.items ++ targets.name_item host) }
{
    out.extend_from_slice(b"TargetName=iqn.2026-11.example.autoraid:host")?;
    out.extend_from_slice(&[b'0' + host, 0])
}

// Appends an address, with the number of its portal group.
fn put_address(out: &mut Vec<u8>, address: &[u8]) -> Result<(), AllocError>
    ensures { OnOk result (out.new.items ≡ out.old.items ++ targets.address_item address.now) }
{
    out.extend_from_slice(b"TargetAddress=")?;
    out.extend_from_slice(address)?;
    out.extend_from_slice(b",1\0")
}
