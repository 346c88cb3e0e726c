//! The media of a journal.

/// A selector, and the media of two logs.
#[derive(Drop)]
pub struct JournalFiles<M> {
    pub selector: M,
    pub first: M,
    pub second: M,
}
