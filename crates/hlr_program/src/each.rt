//! What a line says to each shard.

ghost use Rattle.std.specs.Prelude.{◌≡◌};
ghost use Rattle.hlrcore.specs.Events.{raw_event};
ghost use Rattle.hlr_program.specs.Shards.{event_for};

use hlrcore::{RawEvent, ShardNumber};

/// What a line says to each shard.
#[derive(Clone, Copy)]
pub enum Each {
    /// A clock value.
    Clock(u64),
    /// The expiry of the shard's least timer that is due.
    Expiry,
}

impl Each {
    /// The event of a shard.
    pub fn of(self, shard: ShardNumber) -> RawEvent
        ensures { raw_event result ≡ event_for self shard }
    {
        match self {
            Each::Clock(now) => RawEvent::Clock { shard, now },
            Each::Expiry => RawEvent::Expire { shard },
        }
    }
}
