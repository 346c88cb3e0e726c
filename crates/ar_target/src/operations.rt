// REPORT SUPPORTED OPERATION CODES: the commands that are answered, the array's own among them, and which bits of their
// blocks are looked at.
ghost use Rattle.std.specs.Prelude.{◌≡◌, ◌≤◌, take};
ghost use Rattle.ar_target.specs.Operations as table;

/// A command, as REPORT SUPPORTED OPERATION CODES names it.
#[derive(Clone, Copy, Debug, PartialEq, Eq)]
pub struct Operation {
    /// OPERATION CODE.
    pub code: u8,
    /// SERVICE ACTION; 0 where such commands have none.
    pub action: u16,
}

/// All commands: COMMAND DATA LENGTH, and a descriptor of eight bytes for each.
#[tactic(auto, unfolding(crate::specs::Operations::all_commands))]
pub(crate) fn all_commands() -> [u8; 244]
    ensures { result ≡ table.all_commands }
{
    [
        0x00, 0x00, 0x00, 0xF0, //
        0x00, 0, 0, 0x00, 0, 0, 0, 6, //
        0x03, 0, 0, 0x00, 0, 0, 0, 6, //
        0x08, 0, 0, 0x00, 0, 0, 0, 6, //
        0x0A, 0, 0, 0x00, 0, 0, 0, 6, //
        0x12, 0, 0, 0x00, 0, 0, 0, 6, //
        0x1A, 0, 0, 0x00, 0, 0, 0, 6, //
        0x1B, 0, 0, 0x00, 0, 0, 0, 6, //
        0x1D, 0, 0, 0x00, 0, 0, 0, 6, //
        0x25, 0, 0, 0x00, 0, 0, 0, 10, //
        0x28, 0, 0, 0x00, 0, 0, 0, 10, //
        0x2A, 0, 0, 0x00, 0, 0, 0, 10, //
        0x2E, 0, 0, 0x00, 0, 0, 0, 10, //
        0x2F, 0, 0, 0x00, 0, 0, 0, 10, //
        0x35, 0, 0, 0x00, 0, 0, 0, 10, //
        0x41, 0, 0, 0x00, 0, 0, 0, 10, //
        0x42, 0, 0, 0x00, 0, 0, 0, 10, //
        0x5A, 0, 0, 0x00, 0, 0, 0, 10, //
        0x88, 0, 0, 0x00, 0, 0, 0, 16, //
        0x8A, 0, 0, 0x00, 0, 0, 0, 16, //
        0x8E, 0, 0, 0x00, 0, 0, 0, 16, //
        0x8F, 0, 0, 0x00, 0, 0, 0, 16, //
        0x91, 0, 0, 0x00, 0, 0, 0, 16, //
        0x93, 0, 0, 0x00, 0, 0, 0, 16, //
        0x9E, 0, 0, 0x10, 0, 1, 0, 16, //
        0x9E, 0, 0, 0x12, 0, 1, 0, 16, //
        0xA0, 0, 0, 0x00, 0, 0, 0, 12, //
        0xA3, 0, 0, 0x0A, 0, 1, 0, 12, //
        0xA3, 0, 0, 0x0C, 0, 1, 0, 12, //
        0xA8, 0, 0, 0x00, 0, 0, 0, 12, //
        0xAA, 0, 0, 0x00, 0, 0, 0, 12, //
    ]
}

/// The length of a CDB.
pub(crate) fn cdb_len(code: u8) -> u8
    ensures len { result ≡ table.cdb_len code }
    ensures short { result ≤ 16 }
{
    if code < 0x20 {
        6
    } else if code < 0x80 {
        10
    } else if code < 0xA0 {
        16
    } else {
        12
    }
}

/// The CDB usage map of a command, padded to 16 bytes; None: it isn't supported.
pub(crate) fn usage_of(operation: Operation) -> Option<[u8; 16]>
    ensures { result ≡ table.usage_of operation }
{
    if operation.code == 0x9E {
        return usage_with_action(0x9E, operation.action);
    }
    if operation.code == 0xA3 {
        return usage_with_action(0xA3, operation.action);
    }
    if operation.action > 0 {
        return None;
    }
    if operation.code < 0x20 {
        usage_short(operation.code)
    } else if operation.code < 0x80 {
        usage_middle(operation.code)
    } else {
        usage_long(operation.code)
    }
}

// Of a command of 6 bytes.
fn usage_6(code: u8, b1: u8, b2: u8, b3: u8, b4: u8) -> [u8; 16]
    ensures { result ≡ table.usage_6 code b1 b2 b3 b4 }
{
    [code, b1, b2, b3, b4, 0x04, 0, 0, 0, 0, 0, 0, 0, 0, 0, 0]
}

// Of one of 10 bytes: byte 1, an address or two fields in bytes 2 to 5, a length in bytes 7 and 8.
fn usage_10(code: u8, b1: u8, b2: u8, b4: u8, b8: u8) -> [u8; 16]
    ensures { result ≡ table.usage_10 code b1 b2 b4 b8 }
{
    [code, b1, b2, b2, b4, b4, 0, b8, b8, 0x04, 0, 0, 0, 0, 0, 0]
}

// Of one of 12 bytes with an address in bytes 2 to 5 and a length in bytes 6 to 9.
fn usage_12(code: u8, b1: u8, b2: u8, b3: u8, b4: u8) -> [u8; 16]
    ensures { result ≡ table.usage_12 code b1 b2 b3 b4 }
{
    [
        code, b1, b2, b3, b4, b4, 0xFF, 0xFF, 0xFF, 0xFF, 0, 0x04, 0, 0, 0, 0,
    ]
}

// Of one of 16 bytes with an address in bytes 2 to 9 and a length in bytes 10 to 13.
fn usage_16(code: u8, b1: u8, b14: u8) -> [u8; 16]
    ensures { result ≡ table.usage_16 code b1 b14 }
{
    [
        code, b1, 0xFF, 0xFF, 0xFF, 0xFF, 0xFF, 0xFF, 0xFF, 0xFF, 0xFF, 0xFF, 0xFF, 0xFF, b14, 0x04,
    ]
}

// READ CAPACITY (10).
fn usage_capacity() -> [u8; 16]
    ensures { result ≡ table.usage_capacity }
{
    [
        0x25, 0x00, 0xFF, 0xFF, 0xFF, 0xFF, 0x00, 0x00, 0x01, 0x04, 0, 0, 0, 0, 0, 0,
    ]
}

fn usage_short(code: u8) -> Option<[u8; 16]>
    ensures { result ≡ table.usage_short code }
{
    match code {
        0x00 => Some(usage_6(0x00, 0x00, 0x00, 0x00, 0x00)),
        0x03 => Some(usage_6(0x03, 0x01, 0x00, 0x00, 0xFF)),
        0x08 => Some(usage_6(0x08, 0x1F, 0xFF, 0xFF, 0xFF)),
        0x0A => Some(usage_6(0x0A, 0x1F, 0xFF, 0xFF, 0xFF)),
        0x12 => Some(usage_6(0x12, 0x01, 0xFF, 0xFF, 0xFF)),
        0x1A => Some(usage_6(0x1A, 0x08, 0xFF, 0xFF, 0xFF)),
        0x1B => Some(usage_6(0x1B, 0x00, 0x00, 0x00, 0x00)),
        0x1D => Some(usage_6(0x1D, 0xE4, 0x00, 0xFF, 0xFF)),
        _ => None,
    }
}

fn usage_middle(code: u8) -> Option<[u8; 16]>
    ensures { result ≡ table.usage_middle code }
{
    match code {
        0x25 => Some(usage_capacity()),
        0x28 => Some(usage_10(0x28, 0xF8, 0xFF, 0xFF, 0xFF)),
        0x2A => Some(usage_10(0x2A, 0xF8, 0xFF, 0xFF, 0xFF)),
        0x2E => Some(usage_10(0x2E, 0xF6, 0xFF, 0xFF, 0xFF)),
        0x2F => Some(usage_10(0x2F, 0xF6, 0xFF, 0xFF, 0xFF)),
        0x35 => Some(usage_10(0x35, 0x00, 0xFF, 0xFF, 0xFF)),
        0x41 => Some(usage_10(0x41, 0xFE, 0xFF, 0xFF, 0xFF)),
        0x42 => Some(usage_10(0x42, 0x01, 0x00, 0x00, 0xFF)),
        0x5A => Some(usage_10(0x5A, 0x08, 0xFF, 0x00, 0xFF)),
        _ => None,
    }
}

fn usage_long(code: u8) -> Option<[u8; 16]>
    ensures { result ≡ table.usage_long code }
{
    match code {
        0x88 => Some(usage_16(0x88, 0xF8, 0x00)),
        0x8A => Some(usage_16(0x8A, 0xF8, 0x00)),
        0x8E => Some(usage_16(0x8E, 0xF6, 0x00)),
        0x8F => Some(usage_16(0x8F, 0xF6, 0x00)),
        0x91 => Some(usage_16(0x91, 0x00, 0x00)),
        0x93 => Some(usage_16(0x93, 0xFF, 0x00)),
        0xA0 => Some(usage_12(0xA0, 0x00, 0xFF, 0x00, 0x00)),
        0xA8 => Some(usage_12(0xA8, 0xF8, 0xFF, 0xFF, 0xFF)),
        0xAA => Some(usage_12(0xAA, 0xF8, 0xFF, 0xFF, 0xFF)),
        _ => None,
    }
}

fn usage_with_action(code: u8, action: u16) -> Option<[u8; 16]>
    ensures { result ≡ table.usage_with_action code action }
{
    if code == 0x9E {
        if action == 0x10 {
            Some(usage_16(0x9E, 0x10, 0x01))
        } else if action == 0x12 {
            Some(usage_16(0x9E, 0x12, 0x00))
        } else {
            None
        }
    } else if action == 0x0A {
        Some(usage_12(0xA3, 0xEA, 0x00, 0x00, 0x00))
    } else if action == 0x0C {
        Some(usage_12(0xA3, 0x0C, 0x07, 0xFF, 0xFF))
    } else {
        None
    }
}

/// The answer for one command, padded to 20 bytes, and its length.
pub(crate) fn one_command(operation: Operation) -> ([u8; 20], usize)
    ensures data { take result.1 result.0 ≡ table.one_command operation (table.usage_of operation) }
    ensures short { result.1 ≤ 20 }
{
    match usage_of(operation) {
        Some(usage) => {
            let len = cdb_len(operation.code);
            let mut bytes = [0; 20];
            bytes[1] = 0x03;
            bytes[3] = len;
            bytes[4..].copy_from_slice(&usage);
            (bytes, 4 + usize::from(len))
        }
        None => {
            let mut bytes = [0; 20];
            bytes[1] = 0x01;
            (bytes, 4)
        }
    }
}
