// Heads of both versions, byte for byte.
ghost use Rattle.std.specs.Prelude.{◌≤◌, IfOk, length};

use ar_compaction::{HeadError, Makes, StoreHead, decode_head, encode_head};
use ar_disks::{Addr, Geometry, Host};
use std::alloc::{AllocError, Global};
use std::process::Abort;

// A head of version 1: generation 7, the small geometry, 4 disks of 9 extents, and the name `ab`.
static FORMER: &[u8] =
    b"\x01\0\0\0\0\0\0\0\x07\x03\x03\x03\x03\x03\x03\x03\x03\x03\x03\x03\x03\x03\x03\x03\x03\x01\x04\0\x09\x02ab";

// The place of the numbers of units made in version 2, after all fields but the name.
const PLACE: usize = 29;

fn addr(rt: &impl Abort, host: u8, lun: u8) -> Addr {
    match Host::new(host) {
        Some(host) => Addr { host, lun },
        None => panic!(rt; "host {host}"),
    }
}

// The same head, before whose log two units were made at host 1's LUN 2, and 258 at host 3's LUN 7.
fn head(rt: &impl Abort, alloc: Global) -> Result<StoreHead, AllocError>
    ensures { IfOk result (λ head. length head.name.items ≤ 64) }
{
    let mut makes = Makes::none();
    for _ in 0..2 {
        makes.count(addr(rt, 1, 2));
    }
    for _ in 0..258 {
        makes.count(addr(rt, 3, 7));
    }
    Ok(StoreHead {
        generation: 7,
        identity: [3; 16],
        geometry: Geometry::SMALL,
        disks: 4,
        extents: 9,
        makes,
        name: Vec::from_slice(alloc, b"ab")?,
    })
}

#[test]
fn numbers_of_units_made_are_after_the_extents(rt: HostRuntime) -> Result<(), AllocError> {
    let bytes = encode_head(rt.alloc(), &head(&rt, rt.alloc())?)?;
    assert!(&rt; bytes.len() == FORMER.len() + 64, "{bytes:?}");
    assert!(&rt;
        bytes[0] == 2 && bytes[1..PLACE] == FORMER[1..PLACE],
        "{bytes:?}"
    );
    let makes = &bytes[PLACE..PLACE + 64];
    for (place, byte) in makes.iter().enumerate() {
        let wanted = match place {
            21 | 63 => 2,
            62 => 1,
            _ => 0,
        };
        assert!(&rt; *byte == wanted, "byte {place}: {makes:?}");
    }
    assert!(&rt; bytes[PLACE + 64..] == FORMER[PLACE..], "{bytes:?}");
    Ok(())
}

#[test]
fn a_head_of_the_former_version_has_none(rt: HostRuntime) {
    match decode_head(rt.alloc(), FORMER) {
        Ok(found) => {
            assert!(&rt; found.makes == Makes::none(), "{found:?}");
            assert!(&rt; found.generation == 7 && found.extents == 9, "{found:?}");
            assert!(&rt; found.name.as_slice() == b"ab".as_slice(), "{found:?}");
        }
        Err(error) => panic!(&rt; "{error:?}"),
    }
    let mut later = [0; 32];
    later.copy_from_slice(FORMER);
    later[0] = 3;
    assert!(&rt;
        matches!(
            decode_head(rt.alloc(), &later),
            Err(HeadError::OtherVersion)
        )
    );
}

#[test]
fn numbers_of_units_made_are_decoded(rt: HostRuntime) -> Result<(), AllocError> {
    let bytes = encode_head(rt.alloc(), &head(&rt, rt.alloc())?)?;
    match decode_head(rt.alloc(), &bytes) {
        Ok(found) => {
            let (one, other) = (addr(&rt, 1, 2), addr(&rt, 3, 7));
            assert!(&rt;
                found.makes.at(one) == 2 && found.makes.at(other) == 258,
                "{found:?}"
            );
            assert!(&rt; found.makes.at(addr(&rt, 1, 3)) == 0, "{found:?}");
        }
        Err(error) => panic!(&rt; "{error:?}"),
    }
    Ok(())
}
