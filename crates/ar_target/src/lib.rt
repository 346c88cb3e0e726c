//! What initiators ask of a device server beyond the array's commands, as a `Port` over a `Port`: vital product data,
//! REPORT LUNS, MODE SENSE, REQUEST SENSE, READ CAPACITY (16), GET LBA STATUS, SYNCHRONIZE CACHE, VERIFY, UNMAP, WRITE
//! SAME, reports on the target, and other forms of READ and WRITE. Each answer is a function of what the port below
//! tells. It uses no thread, no socket and no array.
#![tactic(auto)]

ghost use Rattle.ar_target.specs.Laws.{CommandsAreGiven, NamesDiffer, GoodIsFlushed};

mod answer;
mod attention;
mod attributes;
mod device_server;
mod discard_port;
mod discarding;
mod flush_port;
mod initiator;
mod inventory_port;
mod lba_status;
mod luns;
mod mode;
mod operations;
mod own_commands;
mod provisioning;
mod ranges;
mod request;
mod reset_port;
mod serve;
mod translation;
mod vpd;

pub use answer::MISCOMPARE;
pub use attention::{LUNS_CHANGED, RESET_OCCURRED};
pub use attributes::Attributes;
pub use device_server::DeviceServer;
pub use discard_port::{BlockRun, DiscardPort};
pub use flush_port::{FlushOutcome, FlushPort};
pub use initiator::{InitiatorLogin, LoginObserver};
pub use inventory_port::InventoryPort;
pub use operations::Operation;
pub use provisioning::{
    BlockRange, INVALID_FIELD_IN_PARAMETER_LIST, PARAMETER_LIST_LENGTH_ERROR, WriteSame,
};
pub use request::{
    ModePages, ModeSense, Request, SAVING_PARAMETERS_NOT_SUPPORTED, TargetReport, VpdPage,
    request_of,
};
pub use reset_port::{ResetOutcome, ResetPort};
pub use translation::data_out_len;
pub use vpd::serial_number;

/// Law: each command block that the array executes is given to the port, untouched.
pub fn commands_are_given()
    ensures { CommandsAreGiven }
{}

/// Law: units of different arrays, hosts, LUNs or generations have different names, serial numbers and designators.
pub fn names_differ()
    ensures { NamesDiffer }
{}

/// Law: a SYNCHRONIZE CACHE that is GOOD has flushed the unit.
pub fn good_is_flushed<P: FlushPort>()
    ensures { GoodIsFlushed P.commands P.flushes }
{}
