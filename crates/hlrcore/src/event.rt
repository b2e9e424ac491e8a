//! Events: the inputs of the register.

ghost use Rattle.std.specs.Prelude.{◌≡◌, IfErr, IfOk};
ghost use Rattle.frames.specs.Octets as frames;
ghost use Rattle.frames.specs.Octets.{IsEvent};
ghost use Rattle.hlrcore.specs.Events.{raw_event, raw_of, event_of};
ghost use Rattle.hlrcore.specs.Spent.{spent};
ghost use Rattle.hlrcore.specs.Taken.{IfRead, IsEventFault};

use crate::change::Change;
use crate::shard_number::ShardNumber;
use bumpalo::Bump;
use hlr_types::{Imsi, Peer};
use msgarena::{Indication, Round, RoundFault};
use std::alloc::{AllocError, Global};
use std::mem;
use thiserror::Error;

/// An event as received: a frame with its source address, a clock value for a shard, the expiry of a shard's least timer that is
/// due, or an operator's change.
#[derive(Drop)]
pub enum RawEvent {
    Frame { from: Peer, octets: Vec<u8> },
    Clock { shard: ShardNumber, now: u64 },
    Expire { shard: ShardNumber },
    Change { imsi: Imsi, change: Change },
}

/// The same, with the frame decoded.
#[derive(Debug, Drop)]
pub enum Event {
    Frame(Indication),
    Clock { shard: ShardNumber, now: u64 },
    Expire { shard: ShardNumber },
    Change { imsi: Imsi, change: Change },
}

/// Why an event was not read. The arena's contents are then unspecified: the caller makes a new one.
#[derive(Debug, Drop, Error)]
pub enum EventFault {
    /// Out of memory.
    #[error("out of memory")]
    Memory,
    /// The arena could not be reset. The frame was read, and this is the event.
    #[error("the arena could not be reset")]
    ResetRefused(Event),
}

impl From<AllocError> for EventFault {
    ghost use Rattle.std.specs.Prelude.{◌≡◌};
    ghost use Rattle.hlrcore.specs.declared.event.EventFault.TheVariants.{Memory};

    ghost from_gives = { λ _ fault. fault ≡ Memory };

    fn from(_refused: AllocError) -> EventFault {
        EventFault::Memory
    }
}

impl RawEvent {
    /// An equal copy.
    pub fn try_copy(&self, alloc: Global) -> Result<RawEvent, AllocError>
        ensures { IfOk result (λ copy. raw_event copy ≡ raw_event self.now) }
    {
        match self {
            RawEvent::Frame { from, octets } => Ok(RawEvent::Frame {
                from: *from,
                octets: octets.to_vec(alloc)?,
            }),
            RawEvent::Clock { shard, now } => Ok(RawEvent::Clock {
                shard: *shard,
                now: *now,
            }),
            RawEvent::Expire { shard } => Ok(RawEvent::Expire { shard: *shard }),
            RawEvent::Change { imsi, change } => Ok(RawEvent::Change {
                imsi: *imsi,
                change: change.try_copy(alloc)?,
            }),
        }
    }
}

impl Event {
    /// The event, with its frame decoded in the arena, which is then reset. `ResetRefused` comes of a frame alone.
    pub fn of(alloc: Global, bump: &mut Bump, raw: &RawEvent) -> Result<Event, EventFault>
        // It is that event, as the machine has it.
        ensures same { IfRead result (λ event. raw_of event ≡ raw_event raw.now) }
        ensures read { IfRead result (λ event. IsEvent (raw_event raw.now) (event_of event)) }
        ensures refused { IfErr result (IsEventFault (raw_event raw.now)) }
    {
        Event::of_owned(alloc, bump, raw.try_copy(alloc)?)
    }

    /// The same for an event that is handed over, so that its octets are not copied. On error it is dropped.
    pub fn of_owned(alloc: Global, bump: &mut Bump, raw: RawEvent) -> Result<Event, EventFault>
        ensures same { IfRead result (λ event. raw_of event ≡ raw_event raw) }
        ensures read { IfRead result (λ event. IsEvent (raw_event raw) (event_of event)) }
        ensures refused { IfErr result (IsEventFault (raw_event raw)) }
    {
        match raw {
            RawEvent::Frame { from, octets } => read_frame(alloc, bump, from, octets),
            RawEvent::Clock { shard, now } => Ok(Event::Clock { shard, now }),
            RawEvent::Expire { shard } => Ok(Event::Expire { shard }),
            RawEvent::Change { imsi, change } => Ok(Event::Change { imsi, change }),
        }
    }

    /// The event as received, which is taken out of it. What is left of a frame has no octets, and what is left of a change is a
    /// withdrawal.
    pub fn take_raw(&mut self) -> RawEvent
        ensures taken { raw_event result ≡ raw_of self.old }
        ensures left { raw_of self.new ≡ spent (raw_of self.old) }
    {
        match self {
            Event::Frame(indication) => RawEvent::Frame {
                from: indication.from(),
                octets: indication.take_octets(),
            },
            Event::Clock { shard, now } => RawEvent::Clock {
                shard: *shard,
                now: *now,
            },
            Event::Expire { shard } => RawEvent::Expire { shard: *shard },
            Event::Change { imsi, change } => RawEvent::Change {
                imsi: *imsi,
                change: mem::replace(change, Change::Withdraw),
            },
        }
    }

    /// An equal copy.
    pub fn try_copy(&self, alloc: Global) -> Result<Event, AllocError>
        ensures same { IfOk result (λ copy. raw_of copy ≡ raw_of self.now) }
        ensures read { IfOk result (λ copy. event_of copy ≡ event_of self.now) }
    {
        match self {
            Event::Frame(indication) => Ok(Event::Frame(indication.try_copy(alloc)?)),
            Event::Clock { shard, now } => Ok(Event::Clock {
                shard: *shard,
                now: *now,
            }),
            Event::Expire { shard } => Ok(Event::Expire { shard: *shard }),
            Event::Change { imsi, change } => Ok(Event::Change {
                imsi: *imsi,
                change: change.try_copy(alloc)?,
            }),
        }
    }
}

fn read_frame(
    alloc: Global,
    bump: &mut Bump,
    from: Peer,
    octets: Vec<u8>,
) -> Result<Event, EventFault>
    ensures same { IfRead result (λ event. raw_of event ≡ frames.RawFrame from octets.items) }
    ensures read { IfRead result (λ event. IsEvent (frames.RawFrame from octets.items)
        (event_of event)) }
    ensures refused { IfErr result (IsEventFault (frames.RawFrame from octets.items)) }
{
    match Round::take_owned(alloc, bump, from, octets) {
        Ok(indication) => Ok(Event::Frame(indication)),
        Err(RoundFault::Memory) => Err(EventFault::Memory),
        Err(RoundFault::ResetRefused(indication)) => {
            Err(EventFault::ResetRefused(Event::Frame(indication)))
        }
    }
}
