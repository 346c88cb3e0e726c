// Units and blocks as tables name them, by plain numbers.
use ar_disks::{Addr, Host, Key};
use std::process::Abort;

/// A unit, by host and LUN.
pub type Unit = (u8, u8);

pub fn addr(rt: &impl Abort, unit: Unit) -> Addr {
    let (host, lun) = unit;
    Addr {
        host: Host::new(host).expect(rt, "a host is refused"),
        lun,
    }
}

pub fn key(rt: &impl Abort, unit: Unit, rb: u32) -> Key {
    Key {
        addr: addr(rt, unit),
        rb,
    }
}

pub fn unit(addr: Addr) -> Unit {
    (addr.host.number(), addr.lun)
}
