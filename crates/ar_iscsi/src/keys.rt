// The keys that a target knows, and its answer to an offer of each. Own values: digests, unsolicited data,
// one connection, one R2T at a time, no recovery, 256 KiB in a PDU or a burst, 64 KiB of them unsolicited.
ghost use Rattle.std.specs.Prelude.{◌≡◌, ◌<◌, ◌+◌, IsTrue, Option, Some, None};
ghost use Rattle.std.specs.Char.{is_ascii_hexdigit};
ghost use Rattle.ar_iscsi.specs.Text as text;

use crate::text::{behind, place_of};

/// A key of a login or text PDU (RFC 7143, 13).
#[derive(Clone, Copy, Debug, PartialEq, Eq)]
pub enum Key {
    InitiatorName,
    InitiatorAlias,
    TargetName,
    SessionType,
    AuthMethod,
    SendTargets,
    HeaderDigest,
    DataDigest,
    MaxRecvDataSegmentLength,
    MaxBurstLength,
    FirstBurstLength,
    InitialR2T,
    ImmediateData,
    DataPDUInOrder,
    DataSequenceInOrder,
    MaxOutstandingR2T,
    MaxConnections,
    ErrorRecoveryLevel,
    DefaultTime2Wait,
    DefaultTime2Retain,
    IFMarker,
    OFMarker,
    TaskReporting,
    /// None of those.
    Unknown,
}

/// What a target answers to a key.
#[derive(Clone, Copy, Debug, PartialEq, Eq)]
pub enum KeyAnswer {
    /// Nothing: the initiator declares the value.
    Silent,
    Number(u32),
    Yes,
    No,
    /// `None`, of a list of methods.
    NoneOfThem,
    /// `CRC32C`, of a list of digests.
    Crc32c,
    /// `RFC3720`, of a list of ways to end tasks that are aborted.
    Rfc3720,
    Reject,
    NotUnderstood,
    /// `TargetPortalGroupTag=1`, to the name of a target.
    PortalGroup,
}

/// The key of a name.
pub fn key_named(name: &[u8]) -> Key
    ensures { result ≡ text.key_named name.now }
{
    if name == b"InitiatorName".as_slice() {
        Key::InitiatorName
    } else if name == b"InitiatorAlias".as_slice() {
        Key::InitiatorAlias
    } else if name == b"TargetName".as_slice() {
        Key::TargetName
    } else if name == b"SessionType".as_slice() {
        Key::SessionType
    } else if name == b"AuthMethod".as_slice() {
        Key::AuthMethod
    } else if name == b"SendTargets".as_slice() {
        Key::SendTargets
    } else {
        transfer_key(name)
    }
}

// The key of a name that is none of the login phase's own.
fn transfer_key(name: &[u8]) -> Key
    ensures { result ≡ text.transfer_key name.now }
{
    if name == b"HeaderDigest".as_slice() {
        Key::HeaderDigest
    } else if name == b"DataDigest".as_slice() {
        Key::DataDigest
    } else if name == b"MaxRecvDataSegmentLength".as_slice() {
        Key::MaxRecvDataSegmentLength
    } else if name == b"MaxBurstLength".as_slice() {
        Key::MaxBurstLength
    } else if name == b"FirstBurstLength".as_slice() {
        Key::FirstBurstLength
    } else if name == b"InitialR2T".as_slice() {
        Key::InitialR2T
    } else if name == b"ImmediateData".as_slice() {
        Key::ImmediateData
    } else {
        order_key(name)
    }
}

// The key of a name that is none of those either.
fn order_key(name: &[u8]) -> Key
    ensures { result ≡ text.order_key name.now }
{
    if name == b"DataPDUInOrder".as_slice() {
        Key::DataPDUInOrder
    } else if name == b"DataSequenceInOrder".as_slice() {
        Key::DataSequenceInOrder
    } else if name == b"MaxOutstandingR2T".as_slice() {
        Key::MaxOutstandingR2T
    } else if name == b"MaxConnections".as_slice() {
        Key::MaxConnections
    } else if name == b"ErrorRecoveryLevel".as_slice() {
        Key::ErrorRecoveryLevel
    } else if name == b"DefaultTime2Wait".as_slice() {
        Key::DefaultTime2Wait
    } else if name == b"DefaultTime2Retain".as_slice() {
        Key::DefaultTime2Retain
    } else if name == b"IFMarker".as_slice() {
        Key::IFMarker
    } else if name == b"OFMarker".as_slice() {
        Key::OFMarker
    } else if name == b"TaskReporting".as_slice() {
        Key::TaskReporting
    } else {
        Key::Unknown
    }
}

/// The answer to an offered value of a key; `burst` is the MaxBurstLength that was agreed on.
pub fn key_answer(key: Key, burst: u32, offer: &[u8]) -> KeyAnswer
    ensures { result ≡ text.key_answer key burst offer.now }
{
    match key {
        Key::InitiatorName | Key::InitiatorAlias | Key::SessionType => KeyAnswer::Silent,
        Key::TargetName => KeyAnswer::PortalGroup,
        Key::AuthMethod => only_none(offer),
        Key::HeaderDigest | Key::DataDigest => digest_answer(offer),
        Key::TaskReporting => task_reporting(offer),
        Key::SendTargets => KeyAnswer::Reject,
        Key::DataPDUInOrder | Key::DataSequenceInOrder => {
            yes_or_no(KeyAnswer::Yes, KeyAnswer::Yes, offer)
        }
        Key::InitialR2T => yes_or_no(KeyAnswer::Yes, KeyAnswer::No, offer),
        Key::ImmediateData => yes_or_no(KeyAnswer::Yes, KeyAnswer::No, offer),
        Key::IFMarker | Key::OFMarker => yes_or_no(KeyAnswer::No, KeyAnswer::No, offer),
        Key::Unknown => KeyAnswer::NotUnderstood,
        _ => number_answer(key, burst, numeral(offer)),
    }
}

// The answer to an offered number.
fn number_answer(key: Key, burst: u32, offer: Option<u32>) -> KeyAnswer
    ensures { result ≡ text.number_answer key burst offer }
{
    match key {
        Key::MaxRecvDataSegmentLength => declared_own(262_144, 512, 16_777_215, offer),
        Key::MaxBurstLength => smaller(262_144, 512, 16_777_215, offer),
        Key::FirstBurstLength => smaller(burst.min(65_536), 512, 16_777_215, offer),
        Key::MaxOutstandingR2T | Key::MaxConnections => smaller(1, 1, 65_535, offer),
        Key::ErrorRecoveryLevel => smaller(0, 0, 2, offer),
        Key::DefaultTime2Wait => larger(2, 0, 3_600, offer),
        Key::DefaultTime2Retain => smaller(0, 0, 3_600, offer),
        _ => KeyAnswer::NotUnderstood,
    }
}

// `None` if the offered list has it.
fn only_none(offer: &[u8]) -> KeyAnswer
    ensures { result ≡ text.only_none offer.now }
{
    only(b"None", KeyAnswer::NoneOfThem, offer)
}

// `RFC3720` if the offered list has it.
fn task_reporting(offer: &[u8]) -> KeyAnswer
    ensures { result ≡ text.task_reporting offer.now }
{
    only(b"RFC3720", KeyAnswer::Rfc3720, offer)
}

// This answer if the offered list has this member, the only one that is supported.
fn only(member: &[u8], answer: KeyAnswer, offer: &[u8]) -> KeyAnswer
    ensures { result ≡ text.only member.now answer offer.now }
{
    if has_member(member, offer) {
        answer
    } else {
        KeyAnswer::Reject
    }
}

// Whether a list has this member. Its members are separated by commas.
fn has_member(member: &[u8], offer: &[u8]) -> bool
    ensures { result ≡ text.has_member member.now offer.now }
{
    let mut rest = offer;
    let mut end = place_of(b',', rest);
    while end < rest.len() {
        if &rest[..end] == member {
            return true;
        }
        rest = behind(rest, end);
        end = place_of(b',', rest);
    }
    rest == member
}

// The first of an offered list of digests that is supported.
fn digest_answer(offer: &[u8]) -> KeyAnswer
    ensures { result ≡ text.digest_answer offer.now }
{
    let mut rest = offer;
    let mut end = place_of(b',', rest);
    while end < rest.len() {
        if let Some(answer) = digest_named(&rest[..end]) {
            return answer;
        }
        rest = behind(rest, end);
        end = place_of(b',', rest);
    }
    digest_named(rest).unwrap_or(KeyAnswer::Reject)
}

// A digest that is supported.
fn digest_named(name: &[u8]) -> Option<KeyAnswer>
    ensures { result ≡ text.digest_named name.now }
{
    if name == b"None".as_slice() {
        Some(KeyAnswer::NoneOfThem)
    } else if name == b"CRC32C".as_slice() {
        Some(KeyAnswer::Crc32c)
    } else {
        None
    }
}

// One of two answers, to Yes and to No.
fn yes_or_no(to_yes: KeyAnswer, to_no: KeyAnswer, offer: &[u8]) -> KeyAnswer
    ensures { result ≡ text.yes_or_no to_yes to_no offer.now }
{
    if offer == b"Yes".as_slice() {
        to_yes
    } else if offer == b"No".as_slice() {
        to_no
    } else {
        KeyAnswer::Reject
    }
}

// The smaller of an offer from `least` to `most` and the target's own value.
fn smaller(own: u32, least: u32, most: u32, offer: Option<u32>) -> KeyAnswer
    ensures { result ≡ text.smaller own least most offer }
{
    match offer {
        Some(n) if least <= n && n <= most => KeyAnswer::Number(n.min(own)),
        _ => KeyAnswer::Reject,
    }
}

// The larger of both.
fn larger(own: u32, least: u32, most: u32, offer: Option<u32>) -> KeyAnswer
    ensures { result ≡ text.larger own least most offer }
{
    match offer {
        Some(n) if least <= n && n <= most => KeyAnswer::Number(n.max(own)),
        _ => KeyAnswer::Reject,
    }
}

// The target's own value, if the offer is one from `least` to `most`.
fn declared_own(own: u32, least: u32, most: u32, offer: Option<u32>) -> KeyAnswer
    ensures { result ≡ text.declared_own own least most offer }
{
    match offer {
        Some(n) if least <= n && n <= most => KeyAnswer::Number(own),
        _ => KeyAnswer::Reject,
    }
}

/// Reads a number: in hexadecimal after 0x or 0X, and otherwise in decimal (RFC 7143, 6.1). None: there is no digit,
/// another byte, or the number passes 2^24 before its last digit.
pub fn numeral(digits: &[u8]) -> Option<u32>
    ensures { result ≡ text.numeral digits.now }
{
    if digits.len() < 2 {
        return decimal_number(digits);
    }
    let (front, rest) = digits.split_at(2);
    if front == b"0x".as_slice() || front == b"0X".as_slice() {
        hexadecimal_number(rest)
    } else {
        decimal_number(digits)
    }
}

// The number of hexadecimal digits.
fn hexadecimal_number(digits: &[u8]) -> Option<u32>
    ensures { result ≡ text.hexadecimal_number digits.now }
{
    if digits.is_empty() {
        return None;
    }
    let mut number: u32 = 0;
    for digit in digits {
        if !digit.is_ascii_hexdigit() || number >= 0x100_0000 {
            return None;
        }
        number = number * 16 + hex_value(*digit);
    }
    Some(number)
}

// The value of a hexadecimal digit.
fn hex_value(digit: u8) -> u32
    requires { IsTrue (is_ascii_hexdigit digit) }
    ensures value { result ≡ text.hex_value digit }
    ensures small { result < 16 }
{
    if digit <= b'9' {
        u32::from(digit - b'0')
    } else if digit <= b'F' {
        u32::from(digit - b'A') + 10
    } else {
        u32::from(digit - b'a') + 10
    }
}

// The number of decimal digits.
fn decimal_number(digits: &[u8]) -> Option<u32>
    ensures { result ≡ text.decimal_number digits.now }
{
    if digits.is_empty() {
        return None;
    }
    let mut number: u32 = 0;
    for digit in digits {
        if !digit.is_ascii_digit() || number >= 0x100_0000 {
            return None;
        }
        number = number * 10 + u32::from(*digit - b'0');
    }
    Some(number)
}
