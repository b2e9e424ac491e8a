//! The entries of a journal.

use hlr_types::{Imsi, Tid};
use hlrcore::{OutList, RawEvent, State};

/// A handled event: the event as received, the local id that its step took, its subject, and the frames sent, in order.
#[derive(Drop)]
pub struct Entry {
    pub event: RawEvent,
    pub id: Option<Tid>,
    pub subject: Option<Imsi>,
    pub outs: OutList,
}

/// The position of an event's entry in the journal, counted from 0, the event's subject, and the frames to send, in order.
#[derive(Drop)]
pub struct Handled {
    pub position: usize,
    pub subject: Option<Imsi>,
    pub outs: OutList,
}

/// A journal that was cut off, with the state that it begins in (its base).
#[derive(Drop)]
pub struct Epoch {
    pub base: State,
    pub entries: Vec<Entry>,
}
