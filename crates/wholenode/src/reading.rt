//! Events that are read before they are handled.

ghost use Rattle.std.specs.Prelude.{◌≡◌, ◌≢◌, [], map, Err, IfErr, OnOk};
ghost use Rattle.hlrcore.specs.Events.{raw_event};
ghost use Rattle.wholenode.specs.Reading.{AreRead, HasUnread};

use crate::fault::{Cause, unread};
use bumpalo::Bump;
use hlrcore::{Event, RawEvent};
use std::alloc::Global;

/// Reads events, which are taken out of their list, for `Node::handle`: each frame is decoded in the arena. They stand in `read` then,
/// in place of what was there. On error the events are dropped.
///
/// - `Memory`: out of memory.
/// - `ResetRefused`: one of them is a frame, after which the arena could not be reset.
///
/// Both lists keep their buffers, so that the next events need none of their own.
///
/// Limitation: an event that was read takes some 180 octets. Hand over some 64 frames at a time. Clock values and expiries need no
/// reading, and take longer this way than by `Node::tick` and `Node::expire`.
pub fn read_lot(
    alloc: Global,
    bump: &mut Bump,
    events: &mut Vec<RawEvent>,
    read: &mut Vec<Event>,
) -> Result<(), Cause>
    ensures read { OnOk result (AreRead (map raw_event events.old.items) read.new.items) }
    // One of them is refused, whatever the register is.
    ensures unread { IfErr result (HasUnread (map raw_event events.old.items)) }
    ensures never_full { result ≢ Err Cause.JournalFull }
    ensures emptied { events.new.items ≡ [] }
{
    read.clear();
    read_taken(alloc, bump, events, read)
}

/// Reads events that are taken out of their list, each frame decoded in the arena.
fn read_taken(
    alloc: Global,
    bump: &mut Bump,
    events: &mut Vec<RawEvent>,
    read: &mut Vec<Event>,
) -> Result<(), Cause>
    requires { read.old.items ≡ [] }
    ensures read { OnOk result (AreRead (map raw_event events.old.items) read.new.items) }
    ensures unread { IfErr result (HasUnread (map raw_event events.old.items)) }
    ensures never_full { result ≢ Err Cause.JournalFull }
    ensures emptied { events.new.items ≡ [] }
{
    for raw in events.drain(..) {
        if read.reserve(1).is_err() {
            return Err(Cause::Memory);
        }
        match Event::of_owned(alloc, bump, raw) {
            Ok(event) => read.push_reserved(event),
            Err(fault) => return Err(unread(&fault)),
        }
    }
    Ok(())
}
