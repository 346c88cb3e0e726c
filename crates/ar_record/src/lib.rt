//! Records of what changed an array's units, or the room for them, and their bytes: each record has one encoding, and
//! no other bytes are decoded.
#![tactic(auto)]

ghost use Rattle.std.specs.Prelude.{◌≡◌, ◌++◌, ℕ, List, Some};
ghost use Rattle.ar_unit.specs.Unit.{unit_run};
ghost use Rattle.ar_record.specs.Encoding.{encoding_of, encodings_of};
ghost use Rattle.ar_record.specs.Reading.{decoded, all_decoded};
ghost use Rattle.ar_record.specs.Record.{RecordData, IsEncodable, AreEncodable};
ghost use Rattle.ar_record.specs.Replay.{NoOtherChanges, own_of, unit_of};

mod changing;
mod decoding;
mod encoding;
mod record;

pub use changing::changes_unit;
pub use decoding::{DecodeError, decode};
pub use encoding::{encode, encode_command, encode_each};
pub use record::Record;

/// Law: each record that fits its fields is decoded from its encoding.
pub fn encoded_is_decoded()
    ensures { (entry : RecordData) → IsEncodable entry → decoded (encoding_of entry) ≡ Some entry }
{}

/// Law: so are records, each from its own encoding.
pub fn all_encoded_are_decoded()
    ensures { (records : List RecordData) → AreEncodable records → all_decoded (encodings_of records) ≡ records }
{}

/// Law: a command whose reply is neither that of a WRITE with GOOD nor a UNIT ATTENTION leaves its unit unchanged.
pub fn other_commands_change_nothing()
    ensures { NoOtherChanges }
{}

/// Law: the unit that records make goes on with those after them.
pub fn replays_go_on()
    ensures { (a : ℕ × ℕ) (records more : List RecordData)
        → unit_of (records ++ more) a ≡ unit_run (unit_of records a) (own_of a more) }
{}
