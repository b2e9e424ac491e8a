//! What a line of an image has.

use csl::Was;
use dialogues::Dialogue;
use hlr_types::Tid;

/// What a line of an image has.
#[derive(Clone, Copy)]
pub enum Line {
    /// A shard, in version 1 of an image: its number, its clock in ticks, and the generation before the first use of a slot.
    Shard {
        shard: u8,
        clock: u64,
        first: u16,
    },
    /// A slot that was used, and the local id under which it is or was used last.
    Used(Tid),
    /// A slot that is free, and the local id under which it was used last.
    Freed(Tid),
    /// An open dialogue, without its invocations; it may be its subscriber's current update.
    Opened {
        id: Tid,
        is_current: bool,
        dialogue: Dialogue,
    },
    /// An invocation of the next dialogue: its invoke id, its state, and the tick at which its timer expires.
    Waits {
        invoke: i8,
        was: Was,
        deadline: u64,
    },
    /// The shard is whole: all its slots and dialogues stand in the lines before.
    End,
}
