//! A plan that is carried out while memory is refused.

ghost use Rattle.std.specs.Prelude.{◌≡◌, IfSome};

use crate::given::{FIRST, is_shown, loaded, part, peer, subscriber};
use crate::samples::{REMOTE_ID, VLR};
use dialogues::{Dialogue, Kind};
use hlr_types::{Peer, RemoteId, ShortList, Tid};
use hlrcore::{Named, Plan, ShardParts};
use location::{After, CancelBegin, DialogueChange, Opening, Outcome};
use mapargs_loc::CancellationType;
use outgoing::{Addressed, Components, SentMessage};
use records::{Loaded, Records};
use std::alloc::Global;
use tsl::Transaction;

fn vlr() -> Option<Peer> {
    peer(VLR)
}

/// A cancel in Initiation Sent.
fn cancel() -> Option<Opening> {
    let dialogue = Dialogue {
        subscriber: subscriber()?,
        transaction: Transaction {
            peer: vlr()?,
            remote: None,
        },
        kind: Kind::Cancel {
            vlr: vlr()?,
            attempt: 1,
            why: CancellationType::UpdateProcedure,
        },
    };
    Some(Opening {
        dialogue,
        invoked: 1,
    })
}

/// What the cancel's Begin is made from.
fn cancel_begin() -> Option<CancelBegin> {
    Some(CancelBegin {
        to: vlr()?,
        origin: FIRST,
        imsi: subscriber()?,
        why: CancellationType::UpdateProcedure,
    })
}

/// An End with nothing in it.
fn end(alloc: Global) -> Option<Addressed> {
    Some(Addressed {
        to: vlr()?,
        message: SentMessage::End {
            destination: RemoteId::read(&REMOTE_ID)?,
            context: None,
            rejects: Vec::new(alloc),
            components: Components::Nothing,
        },
    })
}

/// The outcome that leaves the record unchanged, and sends an End and the Begin of a cancel.
fn only(alloc: Global, stays: DialogueChange) -> Option<Outcome>
    ensures { IfSome result (λ outcome. (outcome.after ≡ After.Same) × (outcome.dialogue ≡ stays)) }
{
    Some(Outcome {
        after: After::Same,
        dialogue: stays,
        message: Some(end(alloc)?),
        cancel: Some(cancel_begin()?),
    })
}

/// Whether a cancel opens beside the open dialogues. `None` if there is no plan of it.
fn opens(alloc: Global, shard: &mut ShardParts) -> Option<bool> {
    let new = shard.dialogues().next_id()?;
    let stays = DialogueChange::Opens(cancel()?);
    let plan = Plan {
        imsi: Some(subscriber()?),
        subject: Some(subscriber()?),
        named: Named::Nothing,
        new,
        codes: ShortList::new(),
        outcome: only(alloc, stays)?,
    };
    if !shard.has_room(&plan) {
        return None;
    }
    Some(shard.settle(plan).is_ok())
}

/// How many dialogues are open, and the id of the next.
fn open(shard: &ShardParts) -> (usize, Option<Tid>) {
    (shard.dialogues().len(), shard.dialogues().next_id())
}

/// Whether a cancel opens, or an allocation fails and nothing changes.
fn opens_or_stays(alloc: Global, shard: &mut ShardParts) -> bool {
    let before = open(shard);
    opens(alloc, shard) == Some(true) || open(shard) == before
}

/// Shard 1 with these records.
fn shard_of(alloc: Global, part: Records, loaded: &Loaded) -> Option<ShardParts> {
    let directory = loaded.shared_directory().ok()?;
    ShardParts::of_part(alloc, 0, 1, part, directory, *loaded.hlr()).ok()
}

/// Shard 1 as it begins, without open dialogues.
fn shard(alloc: Global) -> Option<ShardParts> {
    let loaded = loaded(alloc)?;
    shard_of(alloc, part(&loaded)?, &loaded)
}

/// Whether each of four cancels opens or stays.
fn all_open_or_stay(alloc: Global) -> Option<bool> {
    let mut shard = shard(alloc)?;
    for _number in 0..4 {
        if !opens_or_stays(alloc, &mut shard) {
            return Some(false);
        }
    }
    Some(true)
}

#[test]
fn four_cancels(rt: HostRuntime) {
    assert!(rt; is_shown(&rt, all_open_or_stay(rt.alloc())));
}
