//! Whether a shard keeps a journal.

/// Whether a shard keeps an entry of each event that it handles.
#[derive(Clone, Copy)]
pub enum Keep {
    /// Each event has its entry in the journal.
    Entries,
    /// No event has one: the journal is always empty, and begins in the current state.
    Nothing,
}
