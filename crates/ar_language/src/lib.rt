//! The script language: the lines of a reader, the words of a line, and the order that they are parsed to. A line that
//! is returned has at most 4,096 bytes, all printable ASCII. An order is plain data, without an array: `ar_script`
//! executes it, and a client sends it to a server.
#![tactic(auto)]

mod blocks;
mod explain;
mod fault;
mod lines;
mod next;
mod order;
mod parse;
mod recent;
mod scan;
mod words;

pub use explain::{Argument, Explanation, LineForm, Wanted, explanation_of, line_forms};
pub use fault::{Fault, FaultKind};
pub use lines::Lines;
pub use next::next_line;
pub use order::{Action, Data, Notation, Order, Question};
pub use parse::{order_in, unit_and_number};
pub use recent::{Recent, Remembered};
pub use words::{MOST_WORDS, first_words};
