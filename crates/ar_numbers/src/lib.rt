//! Numbers and sizes as people write them, on command lines and in operators' orders.
#![tactic(auto)]

ghost use Rattle.std.specs.Prelude.{◌≡◌, ◌≤◌, ◌<◌, ◌^◌, IfSome};
ghost use Rattle.std.specs.Option.{SomeIff};
ghost use Rattle.std.specs.Str.Parse.{digits_value};
ghost use Rattle.ar_numbers.specs.Numbers.{IsDecimal, IsSize, digits_of, size_sectors, suffix_at, suffix_unit};

use ar_disks::SECTOR_LEN;

/// Parses a number: 1 to 10 decimal digits.
pub fn number(word: &str) -> Option<u64>
    ensures { SomeIff result (IsDecimal word.now) (digits_value 10 word.now) }
{
    digits(word.as_bytes())
}

/// Parses a size, and returns it in sectors of 512 bytes: 1 to 10 decimal digits, which count KiB (K), MiB (M) or GiB
/// (G) if that letter follows, and sectors otherwise. `None` also if there are 2^32 sectors or more.
pub fn sectors(word: &str) -> Option<u32>
    ensures { SomeIff result (IsSize word.now) (size_sectors word.now) }
{
    let bytes = word.as_bytes();
    let unit = unit(bytes.last().copied());
    let number = digits(before_unit(bytes, unit))?;
    u32::try_from(number * unit / SECTOR_LEN as u64).ok()
}

// The bytes that a size's last letter stands for.
fn unit(letter: Option<u8>) -> u64
    ensures unit { result ≡ suffix_at letter }
    ensures most { result ≤ 2 ^ 30 }
{
    match letter {
        Some(b'K') => 1 << 10,
        Some(b'M') => 1 << 20,
        Some(b'G') => 1 << 30,
        _ => SECTOR_LEN as u64,
    }
}

// A size's digits: without the letter, if it has one.
fn before_unit(bytes: &[u8], unit: u64) -> &[u8]
    requires unit { unit ≡ suffix_unit bytes.now }
    ensures { result.now ≡ digits_of bytes.now }
{
    if unit == SECTOR_LEN as u64 {
        bytes
    } else {
        &bytes[..bytes.len().saturating_sub(1)]
    }
}

// The value of 1 to 10 decimal digits.
fn digits(bytes: &[u8]) -> Option<u64>
    ensures value { SomeIff result (IsDecimal bytes.now) (digits_value 10 bytes.now) }
    ensures below { IfSome result (λ number. number < 10 ^ 10) }
{
    if bytes.is_empty() || bytes.len() > 10 {
        return None;
    }
    let mut number: u64 = 0;
    for byte in bytes {
        if !byte.is_ascii_digit() {
            return None;
        }
        number = number * 10 + u64::from(*byte - b'0');
    }
    Some(number)
}
