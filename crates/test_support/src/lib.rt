//! What several test crates share. Nothing of the product stands on it.
//!
//!     answer block draw kinds lists run unit    a reference model of an array, and drawn events: units are lists of
//!                                               bytes, and command blocks are read by the field tables of SPC-3 and
//!                                               SBC-2. These files name no crate of the array, and share no code with
//!                                               it
//!     asked compared                            the model's events and answers in the array's types
//!     shape calls                               arrays of small disks, of which one may fault, and tables of calls
#![tactic(auto)]

mod answer;
mod asked;
mod block;
mod calls;
mod compared;
mod draw;
mod kinds;
mod lists;
mod run;
mod shape;
mod unit;

pub use answer::{Answer, PlainReply, Refused};
pub use asked::{event_of, unit_at};
pub use calls::{Call, Return, Row, event, filled, is_filled, returned, returned_of, unit_of};
pub use compared::{agrees, is_same, kind_of_work};
pub use draw::{Ask, Command, Place, Work};
pub use kinds::{Kind, Tally};
pub use lists::PlainArray;
pub use run::Run;
pub use shape::{FOUR_GROUPS, Shape, fused_disks};
