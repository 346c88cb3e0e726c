// Sense data: why a command failed.
ghost use Rattle.std.specs.Prelude.{◌≡◌};
ghost use Rattle.ar_scsi.specs.Sense.{fixed_sense};

/// Why a command failed: sense key (0 to 15), additional sense code and its qualifier.
#[derive(Clone, Copy, Debug, PartialEq, Eq)]
pub struct Sense {
    pub key: u8,
    pub asc: u8,
    pub ascq: u8,
}

impl Sense {
    /// HARDWARE ERROR, INTERNAL TARGET FAILURE.
    pub const INTERNAL_TARGET_FAILURE: Sense = Sense {
        key: 0x04,
        asc: 0x44,
        ascq: 0x00,
    };
    /// ILLEGAL REQUEST, INVALID COMMAND OPERATION CODE.
    pub const INVALID_COMMAND_OPERATION_CODE: Sense = Sense {
        key: 0x05,
        asc: 0x20,
        ascq: 0x00,
    };
    /// ILLEGAL REQUEST, LOGICAL BLOCK ADDRESS OUT OF RANGE.
    pub const LOGICAL_BLOCK_ADDRESS_OUT_OF_RANGE: Sense = Sense {
        key: 0x05,
        asc: 0x21,
        ascq: 0x00,
    };
    /// ILLEGAL REQUEST, INVALID FIELD IN CDB.
    pub const INVALID_FIELD_IN_CDB: Sense = Sense {
        key: 0x05,
        asc: 0x24,
        ascq: 0x00,
    };
    /// ILLEGAL REQUEST, LOGICAL UNIT NOT SUPPORTED.
    pub const LOGICAL_UNIT_NOT_SUPPORTED: Sense = Sense {
        key: 0x05,
        asc: 0x25,
        ascq: 0x00,
    };
    /// UNIT ATTENTION, CAPACITY DATA HAS CHANGED.
    pub const CAPACITY_DATA_HAS_CHANGED: Sense = Sense {
        key: 0x06,
        asc: 0x2A,
        ascq: 0x09,
    };
    /// ABORTED COMMAND, DATA PHASE ERROR.
    pub const DATA_PHASE_ERROR: Sense = Sense {
        key: 0x0B,
        asc: 0x4B,
        ascq: 0x00,
    };
}

/// Returns fixed format sense data, 18 bytes, for a current error. Only the low four bits of the key are used.
pub fn sense18(sense: Sense) -> [u8; 18]
    ensures { result ≡ fixed_sense sense }
{
    [
        0x70,
        0,
        sense.key & 0x0F,
        0,
        0,
        0,
        0,
        0x0A,
        0,
        0,
        0,
        0,
        sense.asc,
        sense.ascq,
        0,
        0,
        0,
        0,
    ]
}
