//! Arrays with a history that contracts alone see, each entry of which fits the unit that the entries before it make
//! (`IsLegal`): a live one, and one whose commands seats count, too. To record an entry takes no memory.
#![tactic(auto)]

mod counted;
mod discard;
mod history;
mod host;
mod live;
mod operate;
mod seating;
mod served_array;

pub use counted::CountedArray;
pub use live::LiveArray;
pub use operate::is_done;
pub use seating::seats;
