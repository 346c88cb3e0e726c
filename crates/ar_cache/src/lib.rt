//! A write-back cache of relocation blocks (the blocks of units), in LRU order, over any backing that reads and writes
//! blocks by key. An entry leaves the cache only after the backing has its block, or by `forget` or
//! `discard`.
//!
//!     put --> [ most recently used | .. | least recently used ] --> backing        a get doesn't reorder
#![tactic(auto)]

ghost use Rattle.std.specs.Prelude.{◌≡◌};

mod answers;
mod backing;
mod cache;
mod entries;

pub use answers::Flush;
pub use backing::Backing;
pub use cache::{CAPACITY_LIMIT, Cache};

/// A law: the constant is the greatest capacity that `Cache::new` accepts.
pub fn capacity_limit_is_the_greatest()
    ensures { CAPACITY_LIMIT ≡ 65536 }
{}
