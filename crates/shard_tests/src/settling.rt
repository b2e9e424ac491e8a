//! Plans that are carried out.

ghost use Rattle.std.specs.Prelude.{◌≡◌, IfSome};

use crate::given::{self, FIRST, octets_at, shard};
use crate::samples::RECORDS;
use dialogues::{Dialogue, Kind};
use hlr_types::{Imsi, Peer, RemoteId, ShortList, Tid};
use hlrcore::{Named, Plan, ShardParts, StepAnswer};
use location::{After, CancelBegin, DialogueChange, Opening, Outcome};
use mapargs_loc::CancellationType;
use outgoing::{Addressed, Components, SentMessage};
use std::alloc::Global;
use std::test::Fail;
use tsl::Transaction;

/// An End with nothing in it.
const END: [u8; 8] = [0x64, 0x06, 0x49, 0x04, 0x00, 0x00, 0x00, 0x0B];

fn imsi() -> Option<Imsi> {
    given::imsi(b"234150000000001").ok()
}

fn peer() -> Option<Peer> {
    given::peer(b"447700900011").ok()
}

/// A cancel in Initiation Sent.
fn cancel() -> Option<Dialogue> {
    Some(Dialogue {
        subscriber: imsi()?,
        transaction: Transaction {
            peer: peer()?,
            remote: None,
        },
        kind: Kind::Cancel {
            vlr: peer()?,
            attempt: 1,
            why: CancellationType::UpdateProcedure,
        },
    })
}

/// The Begin of the cancel, whose local id is the first one: AARQ, Invoke 1 of cancelLocation, updateProcedure.
const CANCEL: [u8; 65] = [
    0x62, 0x3F, 0x48, 0x04, 0x01, 0x00, 0x10, 0x00, 0x6B, 0x1E, 0x28, 0x1C, 0x06, 0x07, 0x00, 0x11,
    0x86, 0x05, 0x01, 0x01, 0x01, 0xA0, 0x11, 0x60, 0x0F, 0x80, 0x02, 0x07, 0x80, 0xA1, 0x09, 0x06,
    0x07, 0x04, 0x00, 0x00, 0x01, 0x00, 0x02, 0x03, 0x6C, 0x17, 0xA1, 0x15, 0x02, 0x01, 0x01, 0x02,
    0x01, 0x03, 0xA3, 0x0D, 0x04, 0x08, 0x32, 0x14, 0x05, 0x00, 0x00, 0x00, 0x00, 0xF1, 0x0A, 0x01,
    0x00,
];

/// What the cancel's Begin is made from.
fn cancel_begin() -> Option<CancelBegin> {
    Some(CancelBegin {
        to: peer()?,
        origin: FIRST,
        imsi: imsi()?,
        why: CancellationType::UpdateProcedure,
    })
}

/// The End.
fn end(alloc: Global) -> Option<Addressed> {
    Some(Addressed {
        to: peer()?,
        message: SentMessage::End {
            destination: RemoteId::read(&[0, 0, 0, 0x0B])?,
            context: None,
            rejects: Vec::new(alloc),
            components: Components::Nothing,
        },
    })
}

/// The outcome that leaves the record unchanged, and sends an End and the Begin of a cancel.
fn only(alloc: Global, stays: DialogueChange) -> Option<Outcome>
    ensures { IfSome result (λ outcome. (outcome.after ≡ After.Same) × (outcome.dialogue ≡ stays)) }
{
    Some(Outcome {
        after: After::Same,
        dialogue: stays,
        message: Some(end(alloc)?),
        cancel: Some(cancel_begin()?),
    })
}

/// A cancel opens beside the open dialogues.
fn opens(alloc: Global, shard: &mut ShardParts) -> Option<StepAnswer> {
    let new = shard.dialogues().next_id()?;
    let opening = Opening {
        dialogue: cancel()?,
        invoked: 1,
    };
    let stays = DialogueChange::Opens(opening);
    let plan = Plan {
        imsi: Some(imsi()?),
        subject: Some(imsi()?),
        named: Named::Nothing,
        new,
        codes: ShortList::new(),
        outcome: only(alloc, stays)?,
    };
    if !shard.has_room(&plan) {
        return None;
    }
    shard.settle(plan).ok()
}

/// The dialogue of this id closes.
fn closes(alloc: Global, shard: &mut ShardParts, id: Tid) -> Option<StepAnswer> {
    if shard.dialogues().get(id).is_none() {
        return None;
    }
    let new = shard.dialogues().next_after(id);
    let plan = Plan {
        imsi: Some(imsi()?),
        subject: None,
        named: Named::Open(id),
        new,
        codes: ShortList::new(),
        outcome: only(alloc, DialogueChange::Closes)?,
    };
    shard.settle(plan).ok()
}

/// The subscriber is withdrawn, and nothing is sent.
fn withdraws(alloc: Global, shard: &mut ShardParts) -> Option<StepAnswer> {
    let subscriber = imsi()?;
    let new = shard.dialogues().next_id()?;
    if shard.records().get(&subscriber).is_none() {
        return None;
    }
    let plan = Plan {
        imsi: Some(subscriber),
        subject: Some(subscriber),
        named: Named::Nothing,
        new,
        codes: ShortList::new(),
        outcome: Outcome {
            after: After::Withdrawn,
            dialogue: DialogueChange::Closes,
            message: None,
            cancel: None,
        },
    };
    shard.settle(plan).ok()
}

/// Whether the answer has the first id, the subscriber, the End and then the Begin.
fn is_opened(answer: &StepAnswer) -> bool {
    let outs = answer.outs.as_slice();
    answer.id == Some(FIRST)
        && answer.subject == imsi()
        && outs.len() == 2
        && octets_at(outs, 0) == END.as_slice()
        && octets_at(outs, 1) == CANCEL.as_slice()
}

/// Whether a cancel is open after it opened, and is not after it closed.
fn opens_and_closes(alloc: Global, shard: &mut ShardParts) -> Option<bool> {
    let opened = opens(alloc, shard)?;
    let was_open = shard.dialogues().get(FIRST) == Some(cancel()?);
    let closed = closes(alloc, shard, FIRST)?;
    let is_gone = shard.dialogues().get(FIRST) == None;
    Some(is_opened(&opened) && was_open && closed.id == None && is_gone)
}

#[test]
fn a_cancel_opens_and_closes(rt: HostRuntime) -> Result<(), Fail> {
    let mut shard = shard(rt.alloc(), RECORDS)?;
    assert!(rt; opens_and_closes(rt.alloc(), &mut shard) == Some(true));
    Ok(())
}

/// Whether the record is withdrawn, and nothing was sent.
fn ends(alloc: Global, shard: &mut ShardParts) -> Option<bool> {
    let answer = withdraws(alloc, shard)?;
    let found = shard.records().get(&imsi()?)?;
    Some(answer.outs.as_slice().is_empty() && found.withdrawn && found.register == None)
}

#[test]
fn a_subscription_ends(rt: HostRuntime) -> Result<(), Fail> {
    let mut shard = shard(rt.alloc(), RECORDS)?;
    assert!(rt; ends(rt.alloc(), &mut shard) == Some(true));
    Ok(())
}

/// Whether a copy stays as it was, and the clock never goes back.
fn is_of_its_own(alloc: Global, shard: &mut ShardParts) -> Option<bool> {
    shard.tick(7);
    let copy = shard.try_copy().ok()?;
    let _answer = opens(alloc, shard)?;
    shard.tick(5);
    let is_same = (copy.number(), copy.clock(), copy.dialogues().len()) == (1, 7, 0);
    Some(is_same && (shard.clock(), shard.dialogues().len()) == (7, 1))
}

#[test]
fn a_copy_is_a_state_of_its_own(rt: HostRuntime) -> Result<(), Fail> {
    let mut shard = shard(rt.alloc(), RECORDS)?;
    assert!(rt; is_of_its_own(rt.alloc(), &mut shard) == Some(true));
    Ok(())
}
