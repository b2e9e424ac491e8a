//! A shard behind a lock, of which something is known whoever had the lock before.

use crate::apply::apply;
use hlrcore::{Addressee, Event};
use receipts::{Placed, Refusal};
use shardlog::Shard;
use std::marker::{Brand, Model, PhantomData};

/// Which register's shards are behind locks: the one that a batch was begun with. Each batch chooses it. It exists in proofs alone.
pub trait Naming {
    ghost use Rattle.wholenode.specs.Nodes.{NodeState};

    ghost began: { NodeState };
}

impl Naming for Brand {
    ghost use Rattle.std.specs.Prelude.{[]};
    ghost use Rattle.std.specs.FinMap as map;
    ghost use Rattle.wholenode.specs.Nodes.{node};

    ghost began = { node map.empty [] };
}

/// A shard that stands for the one with its number of the register that `J` names, and has handled events since: so much is known of what
/// a lock holds. Contracts see the shard.
#[derive(Drop)]
pub(crate) struct Locked<J: Naming> {
    shard: Shard,
    of: PhantomData<J>,
}

impl<J: Naming> Model for Locked<J> {
    ghost use Rattle.shardlog.specs.Log.{Log, log_code};
    ghost use Rattle.workers.specs.Going.{StandsIn};

    ghost Value = { Log };

    ghost coded = { log_code };

    ghost view = { λ l. l.shard };

    ghost invariant = { λ l. StandsIn J.began l.shard };
}

impl<J: Naming> Locked<J> {
    ghost use Rattle.std.specs.Prelude.{◌≡◌, IfSome};
    ghost use Rattle.hlrcore.specs.Addressees.{IsAddressee};
    ghost use Rattle.hlrcore.specs.Events.{event_of, raw_of};
    ghost use Rattle.hlrcore.specs.Shards.{directory_of};
    ghost use Rattle.workers.specs.Answered.{IsAnswered};
    ghost use Rattle.workers.specs.Going.{StandsIn};
    ghost use Rattle.receipts.specs.Receipts.{place_of};

    pub(crate) fn new(shard: Shard) -> Locked<J>
        requires { StandsIn J.began shard }
        ensures { result ≡ shard }
    {
        Locked {
            shard,
            of: PhantomData,
        }
    }

    pub(crate) fn into_shard(self) -> Shard
        ensures same { result ≡ self }
        ensures stands { StandsIn J.began result }
    {
        let Locked { shard, of: _ } = self;
        shard
    }

    /// Handles an event, of which it is known whom it is for.
    pub(crate) fn apply(&mut self, event: &mut Event, found: Addressee) -> Result<Placed, Refusal>
        requires { IsAddressee (directory_of J.began.directory) (event_of event.old) found }
        ensures { IfSome (place_of result) (IsAnswered (raw_of event.old)) }
    {
        apply(&mut self.shard, event, found)
    }
}
