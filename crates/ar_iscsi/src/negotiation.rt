// What the items of a login's text say of the session: its kind, its target, and what it may transfer.
ghost use Rattle.std.specs.Prelude.{◌≡◌, ◌<◌, ◌==◌};
ghost use Rattle.ar_iscsi.specs.Negotiation as login;

use crate::digest::Digests;
use crate::keys::{Key, KeyAnswer, key_answer, key_named, numeral};
use crate::text::{behind, item_name, item_value, place_of};

/// What a session is for (RFC 7143, 13.21).
#[derive(Clone, Copy, Debug, PartialEq, Eq)]
pub enum SessionKind {
    Normal,
    Discovery,
    /// A kind that there isn't.
    Unsupported,
}

/// The target that a login names.
#[derive(Clone, Copy, Debug, PartialEq, Eq)]
pub enum TargetChoice {
    Unnamed,
    /// A name that isn't of this target's form.
    Unknown,
    /// The target of the host of this number, which is one digit.
    OfHost(u8),
}

/// What was agreed on for a session: what it may transfer, in bytes, and its target.
#[derive(Clone, Copy, Debug, PartialEq, Eq)]
pub struct Limits {
    /// The most in a data segment to the initiator, 512 to 2^24 - 1.
    pub max_segment: u32,
    /// The most that one R2T asks for, 512 to 262,144.
    pub max_burst: u32,
    /// The most unsolicited data of a command, 512 to 65,536.
    pub first_burst: u32,
    /// A command may carry data.
    pub immediate_data: bool,
    /// All other data of a WRITE are asked for: no unsolicited Data-Out PDU follows it.
    pub initial_r2t: bool,
    /// The digests of all PDUs of the full feature phase.
    pub digests: Digests,
    /// The host whose target the session is with; None in a login, and in a session for discovery.
    pub host: Option<u8>,
}

/// The keys that have come in a login.
#[derive(Clone, Copy, Debug, PartialEq, Eq)]
pub struct KeysSeen {
    /// For each key, whether it has come.
    pub seen: [bool; 24],
    /// A key has come twice.
    pub is_repeated: bool,
}

impl KeysSeen {
    // The keys after one more.
    fn after(self, key: Key) -> KeysSeen
        ensures { result ≡ login.keys_after self key }
    {
        let place = key_place(key);
        let was_seen = place != 23 && self.seen[place];
        let mut seen = self.seen;
        seen[place] = true;
        KeysSeen {
            seen,
            is_repeated: self.is_repeated || was_seen,
        }
    }
}

// The place of a key among those that were seen; the last one is of keys that are unknown.
fn key_place(key: Key) -> usize
    ensures place { result ≡ login.key_place key }
    ensures within { result < 24 }
{
    match key {
        Key::InitiatorName => 0,
        Key::InitiatorAlias => 1,
        Key::TargetName => 2,
        Key::SessionType => 3,
        Key::AuthMethod => 4,
        Key::SendTargets => 5,
        Key::HeaderDigest => 6,
        Key::DataDigest => 7,
        Key::MaxRecvDataSegmentLength => 8,
        Key::MaxBurstLength => 9,
        Key::FirstBurstLength => 10,
        Key::InitialR2T => 11,
        Key::ImmediateData => 12,
        Key::DataPDUInOrder => 13,
        Key::DataSequenceInOrder => 14,
        Key::MaxOutstandingR2T => 15,
        Key::MaxConnections => 16,
        Key::ErrorRecoveryLevel => 17,
        Key::DefaultTime2Wait => 18,
        Key::DefaultTime2Retain => 19,
        Key::IFMarker => 20,
        Key::OFMarker => 21,
        Key::TaskReporting => 22,
        Key::Unknown => 23,
    }
}

/// What the text of a login has said so far.
#[derive(Clone, Copy, Debug, PartialEq, Eq)]
pub struct Negotiation {
    pub keys: KeysSeen,
    /// The initiator has named itself.
    pub is_named: bool,
    pub kind: SessionKind,
    pub target: TargetChoice,
    /// No method of authentication was offered that is supported.
    pub is_refused: bool,
    pub limits: Limits,
}

impl Negotiation {
    /// The default values (RFC 7143, 13).
    pub fn new() -> Negotiation
        ensures { result ≡ login.at_first }
    {
        Negotiation {
            keys: KeysSeen {
                seen: [false; 24],
                is_repeated: false,
            },
            is_named: false,
            kind: SessionKind::Normal,
            target: TargetChoice::Unnamed,
            is_refused: false,
            limits: Limits {
                max_segment: 8_192,
                max_burst: 262_144,
                first_burst: 65_536,
                immediate_data: true,
                initial_r2t: true,
                digests: Digests {
                    header: false,
                    segment: false,
                },
                host: None,
            },
        }
    }
}

/// What is negotiated after the items of a text.
pub fn negotiated(mut so_far: Negotiation, asked: &[u8]) -> Negotiation
    ensures { result ≡ login.negotiated so_far asked.now }
{
    let mut rest = asked;
    let mut end = place_of(0, rest);
    while end < rest.len() {
        so_far = after_item(so_far, &rest[..end]);
        rest = behind(rest, end);
        end = place_of(0, rest);
    }
    after_item(so_far, rest)
}

// What is negotiated after an item; an empty one has no key.
fn after_item(so_far: Negotiation, item: &[u8]) -> Negotiation
    ensures { result ≡ login.after_item so_far item.now }
{
    if item.is_empty() {
        return so_far;
    }
    let key = key_named(item_name(item));
    let seen = Negotiation {
        keys: so_far.keys.after(key),
        ..so_far
    };
    after_key(seen, key, item_value(item))
}

// What is negotiated after an item of this key.
fn after_key(so_far: Negotiation, key: Key, value: &[u8]) -> Negotiation
    ensures { result ≡ login.after_key so_far key value.now }
{
    match key {
        Key::InitiatorName => Negotiation {
            is_named: !value.is_empty(),
            ..so_far
        },
        Key::SessionType => Negotiation {
            kind: kind_of(value),
            ..so_far
        },
        Key::TargetName => Negotiation {
            target: target_of(value),
            ..so_far
        },
        Key::AuthMethod => Negotiation {
            is_refused: is_reject(key_answer(key, so_far.limits.max_burst, value)),
            ..so_far
        },
        _ => Negotiation {
            limits: limits_after(so_far.limits, key, value),
            ..so_far
        },
    }
}

// The kind of session of a name.
fn kind_of(name: &[u8]) -> SessionKind
    ensures { result ≡ login.kind_of name.now }
{
    if name == b"Normal".as_slice() {
        SessionKind::Normal
    } else if name == b"Discovery".as_slice() {
        SessionKind::Discovery
    } else {
        SessionKind::Unsupported
    }
}

// The names of the targets without their last digit.
const TARGET_PREFIX: &[u8] = b"iqn.2026-11.example.autoraid:host";

/// The target of a name.
pub fn target_of(name: &[u8]) -> TargetChoice
    ensures { result ≡ login.target_of name.now }
{
    if name.len() != 34 {
        return TargetChoice::Unknown;
    }
    let (prefix, digit) = name.split_at(33);
    if prefix == TARGET_PREFIX && digit[0].is_ascii_digit() {
        TargetChoice::OfHost(digit[0] - b'0')
    } else {
        TargetChoice::Unknown
    }
}

fn is_reject(answer: KeyAnswer) -> bool
    ensures { result ≡ login.is_reject answer }
{
    matches!(answer, KeyAnswer::Reject)
}

// What a session may transfer after an item.
fn limits_after(old: Limits, key: Key, offer: &[u8]) -> Limits
    ensures { result ≡ login.limits_after old key offer.now }
{
    match key {
        Key::MaxRecvDataSegmentLength => Limits {
            max_segment: segment_after(old.max_segment, numeral(offer)),
            ..old
        },
        Key::MaxBurstLength => {
            let answer = key_answer(key, old.max_burst, offer);
            with_burst(old, limit_after(old.max_burst, answer))
        }
        Key::FirstBurstLength => Limits {
            first_burst: limit_after(old.first_burst, key_answer(key, old.max_burst, offer)),
            ..old
        },
        Key::ImmediateData => {
            let answer = key_answer(key, old.max_burst, offer);
            Limits {
                immediate_data: choice_after(old.immediate_data, answer),
                ..old
            }
        }
        Key::InitialR2T => {
            let answer = key_answer(key, old.max_burst, offer);
            Limits {
                initial_r2t: choice_after(old.initial_r2t, answer),
                ..old
            }
        }
        Key::HeaderDigest | Key::DataDigest => Limits {
            digests: digests_after(old.digests, key, key_answer(key, old.max_burst, offer)),
            ..old
        },
        _ => old,
    }
}

// The digests after the answer to one of their keys.
fn digests_after(old: Digests, key: Key, answer: KeyAnswer) -> Digests
    ensures { result ≡ login.digests_after old key answer }
{
    match key {
        Key::HeaderDigest => Digests {
            header: digest_after(old.header, answer),
            ..old
        },
        Key::DataDigest => Digests {
            segment: digest_after(old.segment, answer),
            ..old
        },
        _ => old,
    }
}

// A digest after the answer to its key.
fn digest_after(old: bool, answer: KeyAnswer) -> bool
    ensures { result ≡ login.digest_after old answer }
{
    match answer {
        KeyAnswer::Crc32c => true,
        KeyAnswer::NoneOfThem => false,
        _ => old,
    }
}

// What a session may transfer after a MaxBurstLength: FirstBurstLength is brought down to it.
fn with_burst(old: Limits, burst: u32) -> Limits
    ensures { result ≡ login.with_burst old burst }
{
    Limits {
        max_burst: burst,
        first_burst: old.first_burst.min(burst),
        ..old
    }
}

// A limit after the answer to its key.
fn limit_after(old: u32, answer: KeyAnswer) -> u32
    ensures { result ≡ login.limit_after old answer }
{
    match answer {
        KeyAnswer::Number(n) => n,
        _ => old,
    }
}

// The initiator's length of a data segment after its declaration.
fn segment_after(old: u32, offer: Option<u32>) -> u32
    ensures { result ≡ login.segment_after old offer }
{
    match offer {
        Some(n) if 512 <= n && n <= 16_777_215 => n,
        _ => old,
    }
}

// ImmediateData or InitialR2T after the answer to it.
fn choice_after(old: bool, answer: KeyAnswer) -> bool
    ensures { result ≡ login.choice_after old answer }
{
    match answer {
        KeyAnswer::Yes => true,
        KeyAnswer::No => false,
        _ => old,
    }
}
