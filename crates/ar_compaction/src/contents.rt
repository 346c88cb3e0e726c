// A present unit of which records are made.
ghost use Rattle.std.specs.Prelude.{◌≡◌, ◌≤◌, ◌*◌, vec_len};

use ar_disks::Addr;

// A unit's length, the length with which it is created, and its bytes.
#[derive(Drop)]
pub(crate) struct Contents {
    pub addr: Addr,
    pub sectors: u32,
    pub base: u32,
    pub attention: bool,
    pub bytes: Vec<u8>,
    pub ghost whole: { vec_len bytes ≡ sectors * 512 },
    pub ghost within: { base ≤ sectors },
}
