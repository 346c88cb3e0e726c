// Text of login and text PDUs: items of the form `Name=value`, each ended by a zero byte.
ghost use Rattle.std.specs.Prelude.{◌≡◌, ◌<◌, ◌≤◌, ◌+◌, ◌++◌, ◌==◌, OnOk, decimal, length, drop};
ghost use Rattle.std.specs.List.{position_or_len};
ghost use Rattle.ar_iscsi.specs.Text as text;

use crate::keys::{KeyAnswer, key_answer, key_named};
use itoa::Buffer;
use std::alloc::AllocError;

/// Appends the answer to each item of a text to `out`, in order; `burst` is the MaxBurstLength that was agreed on.
/// `Err` if the allocation fails; `out` then ends in an unspecified part of the answer.
pub fn answer_text(out: &mut Vec<u8>, burst: u32, asked: &[u8]) -> Result<(), AllocError>
    ensures { OnOk result (out.new.items ≡ out.old.items ++ text.text_answer burst asked.now) }
{
    let mut rest = asked;
    let mut end = place_of(0, rest);
    while end < rest.len() {
        answer_item(out, burst, &rest[..end])?;
        rest = behind(rest, end);
        end = place_of(0, rest);
    }
    answer_item(out, burst, rest)
}

// Where a text's first byte of this value is, or its end.
pub(crate) fn place_of(byte: u8, text: &[u8]) -> usize
    ensures first { result ≡ position_or_len (λ b. b == byte) text.now }
    ensures within { result ≤ length text.now }
{
    text.iter().position(|b| *b == byte).unwrap_or(text.len())
}

// What is after the byte at this place of a text.
pub(crate) fn behind(text: &[u8], place: usize) -> &[u8]
    requires { place < length text.now }
    ensures is { result.now ≡ drop (place + 1) text.now }
    ensures shorter { length result.now < length text.now }
{
    let (_front, back) = text.split_at(place);
    match back.split_first() {
        Some((_byte, rest)) => rest,
        None => unreachable!(),
    }
}

// Appends the answer to an item, unless it is empty.
fn answer_item(out: &mut Vec<u8>, burst: u32, item: &[u8]) -> Result<(), AllocError>
    ensures { OnOk result (out.new.items ≡ out.old.items ++ text.item_answer burst item.now) }
{
    if item.is_empty() {
        return Ok(());
    }
    let name = item_name(item);
    let answer = key_answer(key_named(name), burst, item_value(item));
    put_answer(out, name, answer)
}

// The name of an item: what is in front of its first `=`.
pub(crate) fn item_name(item: &[u8]) -> &[u8]
    ensures { result.now ≡ text.item_name item.now }
{
    &item[..place_of(b'=', item)]
}

// The value of an item: what is after its first `=`.
pub(crate) fn item_value(item: &[u8]) -> &[u8]
    ensures { result.now ≡ text.item_value item.now }
{
    let at = place_of(b'=', item);
    if at < item.len() {
        behind(item, at)
    } else {
        &[]
    }
}

// Appends an answer to the key of this name.
fn put_answer(out: &mut Vec<u8>, name: &[u8], answer: KeyAnswer) -> Result<(), AllocError>
    ensures { OnOk result (out.new.items ≡ out.old.items ++ text.answer_item name.now answer) }
{
    match answer {
        KeyAnswer::Silent => Ok(()),
        KeyAnswer::Number(n) => put_number(out, name, n),
        KeyAnswer::Yes => put_item(out, name, b"Yes"),
        KeyAnswer::No => put_item(out, name, b"No"),
        KeyAnswer::NoneOfThem => put_item(out, name, b"None"),
        KeyAnswer::Crc32c => put_item(out, name, b"CRC32C"),
        KeyAnswer::Rfc3720 => put_item(out, name, b"RFC3720"),
        KeyAnswer::Reject => put_item(out, name, b"Reject"),
        KeyAnswer::NotUnderstood => put_item(out, name, b"NotUnderstood"),
        KeyAnswer::PortalGroup => put_item(out, b"TargetPortalGroupTag", b"1"),
    }
}

// Appends an item whose value is a number.
fn put_number(out: &mut Vec<u8>, name: &[u8], n: u32) -> Result<(), AllocError>
    ensures { OnOk result (out.new.items ≡ out.old.items ++ text.text_item name.now (decimal n)) }
{
    let mut buffer = Buffer::new();
    put_item(out, name, buffer.format(n).as_bytes())
}

// Appends an item.
pub(crate) fn put_item(out: &mut Vec<u8>, name: &[u8], value: &[u8]) -> Result<(), AllocError>
    ensures { OnOk result (out.new.items ≡ out.old.items ++ text.text_item name.now value.now) }
{
    out.extend_from_slice(name)?;
    out.extend_from_slice(b"=")?;
    out.extend_from_slice(value)?;
    out.extend_from_slice(b"\0")
}
