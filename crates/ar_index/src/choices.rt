// What a search may choose in a range of groups.
ghost use Rattle.std.specs.Prelude.{◌≡◌, ◌≢◌, true, false};
ghost use Rattle.ar_index.specs.Choices.{place_in, comes_no_later};

use ar_disks::{Addr, Key};
use indexmap::IndexMap;

/// The age of a mirrored block: its write sequence number (`stamp`). Ties go by its unit's place in order of creation,
/// then by its number in the unit.
///
/// The place isn't stored, as it changes when an earlier unit is deleted: it is looked up when two stamps are equal.
#[derive(Clone, Copy, Debug, PartialEq, Eq)]
pub struct Age {
    pub stamp: u64,
    pub key: Key,
}

/// What a search finds in some groups: the lowest mirrored group with a hole (an empty slot), the lowest parity group
/// with one, the lowest free group, and the oldest mirrored block.
#[derive(Clone, Copy, Debug, PartialEq, Eq)]
pub struct Choices {
    pub mirrored: Option<u32>,
    pub parity: Option<u32>,
    pub free: Option<u32>,
    pub oldest: Option<Age>,
}

// A unit's place in order of creation; past the last if there is no such unit.
fn place_of<V>(units: &IndexMap<Addr, V>, addr: Addr) -> usize
    ensures { result ≡ place_in units.now.entries addr }
{
    match units.get_index_of(&addr) {
        Some(place) => place,
        None => units.len(),
    }
}

impl Age {
    ghost use Rattle.std.specs.Prelude.{◌≡◌};
    ghost use Rattle.ar_index.specs.Choices.{place_in, is_no_newer};

    // Whether the block is older than `other`, or as old.
    pub(crate) fn is_no_newer<V>(&self, other: &Age, units: &IndexMap<Addr, V>) -> bool
        ensures { result ≡ is_no_newer (place_in units.now.entries) self.now other.now }
    {
        if self.stamp == other.stamp {
            return is_no_later(self.key, other.key, units);
        }
        self.stamp < other.stamp
    }
}

// Whether a block comes no later than another with the same stamp. Ties are rare: kept out of line, so that the
// comparison of stamps is inlined.
#[cold]
fn is_no_later<V>(key: Key, other: Key, units: &IndexMap<Addr, V>) -> bool
    ensures { result ≡ comes_no_later (place_in units.now.entries) key other }
{
    let own = place_of(units, key.addr);
    let others = place_of(units, other.addr);
    own < others || (own == others && key.rb <= other.rb)
}

// Whether two blocks with the same stamp are one. Kept out of line, so that comparing two ages mostly ends with their
// stamps.
#[cold]
fn is_same_key(one: Key, other: Key) -> bool
    ensures same { result ≡ true → one ≡ other }
    ensures another { result ≡ false → one ≢ other }
{
    one == other
}

/// Whether both are one block, or both are none.
pub(crate) fn is_same_age(one: Option<Age>, other: Option<Age>) -> bool
    ensures same { result ≡ true → one ≡ other }
    ensures another { result ≡ false → one ≢ other }
{
    match (one, other) {
        (Some(one), Some(other)) => one.stamp == other.stamp && is_same_key(one.key, other.key),
        (None, None) => true,
        _ => false,
    }
}

impl Choices {
    ghost use Rattle.std.specs.Prelude.{◌≡◌};
    ghost use Rattle.ar_index.specs.Choices.{nothing, is_nothing};

    /// The choices among no groups: none.
    pub fn nothing() -> Choices
        ensures { result ≡ nothing }
    {
        Choices {
            mirrored: None,
            parity: None,
            free: None,
            oldest: None,
        }
    }

    /// Whether there is no choice.
    pub fn is_nothing(&self) -> bool
        ensures { result ≡ is_nothing self.now }
    {
        self.mirrored.is_none()
            && self.parity.is_none()
            && self.free.is_none()
            && self.oldest.is_none()
    }
}

impl Age {
    ghost use Rattle.std.specs.Prelude.{◌≡◌};
    ghost use Rattle.ar_index.specs.Choices.{place_in, older};

    /// The older of two blocks, or the one that there is; the first on ties.
    pub fn older<V>(
        first: Option<Age>,
        second: Option<Age>,
        units: &IndexMap<Addr, V>,
    ) -> Option<Age>
        ensures { result ≡ older (place_in units.now.entries) first second }
    {
        let (Some(one), Some(other)) = (first, second) else {
            return first.or(second);
        };
        if one.is_no_newer(&other, units) {
            first
        } else {
            second
        }
    }
}
