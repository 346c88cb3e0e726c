//! The command lines of the programs: their options as data, from which `clap` reads the words and writes the help, and
//! what the words of `autoraid` and of `ar_client` ask for.
#![tactic(auto)]

mod array;
mod array_forms;
mod client;
mod command;
mod fault;
mod form;
mod operator;

pub use array::{
    ArrayOptions, Audit, CreateOptions, Order, RunOptions, ServeOptions, ShapeOptions,
    StoreOptions, StoredUnit, SyncMode, UnitOption, order_in,
};
pub use client::{Account, account_in};
pub use fault::UsageFault;
pub use operator::OperatorDoor;
