//! An operator's conversation: a line in, text out, each line once and in order. It uses no array, no thread and no
//! socket: any `Source` and `Sink` will do, and any `Controller` that answers orders.
#![tactic(auto)]

mod controller;
mod conversation;
mod input;
mod order;

pub use controller::Controller;
pub use conversation::{Buffers, MOST_LINES, MOST_OPERATORS, OperatorEnd, converse, converse_in};
pub use order::{LineFault, OperatorOrder, operator_order_in};
