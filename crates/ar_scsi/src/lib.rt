//! The SCSI commands of a small direct access block device, after SPC-3 and SBC-2: command descriptor blocks (CDBs),
//! status and sense, and the data that INQUIRY and READ CAPACITY return. Each CDB of 16 bytes is one command or is
//! refused with one sense, never both. Nothing here allocates memory.
#![tactic(auto)]

ghost use Rattle.std.specs.Prelude.{◌≡◌, ℕ, List};
ghost use Rattle.ar_scsi.specs.Block.{MeansOneThing};
ghost use Rattle.ar_scsi.specs.Reading.{ReadingAgrees};
ghost use Rattle.ar_scsi.specs.Sense as table;

mod command;
mod data;
mod reply;
mod sense;

pub use command::{Command, allocation_length, decode, is_inquiry};
pub use data::{capacity_data, inquiry_data};
pub use reply::{Reply, Status};
pub use sense::{Sense, sense18};

/// A law on the definitions: each CDB is one command or is refused with one sense, never both.
pub fn each_block_means_one_thing()
    ensures { (cdb : List ℕ) → MeansOneThing cdb }
{}

/// A law on the definitions: the function `reading` and the two relations agree.
pub fn reading_is_the_relations()
    ensures { (cdb : List ℕ) → ReadingAgrees cdb }
{}

/// A law on the constants: each is the sense that the definitions give its name.
pub fn sense_constants_are_the_table()
    ensures failure { Sense.INTERNAL_TARGET_FAILURE ≡ table.internal_target_failure }
    ensures code { Sense.INVALID_COMMAND_OPERATION_CODE ≡ table.invalid_command_operation_code }
    ensures range { Sense.LOGICAL_BLOCK_ADDRESS_OUT_OF_RANGE ≡ table.logical_block_address_out_of_range }
    ensures field { Sense.INVALID_FIELD_IN_CDB ≡ table.invalid_field_in_cdb }
    ensures unit { Sense.LOGICAL_UNIT_NOT_SUPPORTED ≡ table.logical_unit_not_supported }
    ensures capacity { Sense.CAPACITY_DATA_HAS_CHANGED ≡ table.capacity_data_has_changed }
    ensures phase { Sense.DATA_PHASE_ERROR ≡ table.data_phase_error }
{}
