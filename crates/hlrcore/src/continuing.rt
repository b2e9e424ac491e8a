//! A received Continue (Q.774).

ghost use Rattle.std.specs.Prelude.{◌≡◌, IfOk, Some, map};
ghost use Rattle.machine.specs.declared.numbers.TheConstants.{UNRECOGNIZED_TRANSACTION_ID};
ghost use Rattle.machine.specs.Outcome.{send};
ghost use Rattle.machine.specs.Sent.{Cause, SentAbort};
ghost use Rattle.machine.specs.State as machine;
ghost use Rattle.machine.specs.Transactions.{ContinueComes, transact};
ghost use Rattle.machine.specs.Turns.{Continues, continue_at, for_it};
ghost use Rattle.q773_comp.specs.Seen.{component};
ghost use Rattle.msgarena.specs.Seen.{parameter};
ghost use Rattle.tsl.specs.Transactions.{transaction_of};
ghost use Rattle.dialogues.specs.Dialogues.{dialogues_of};
ghost use Rattle.hlrcore.specs.OpenOnes.{IsOpened, with_transaction};
ghost use Rattle.hlrcore.specs.Planning.{IsPlan, IsPlanOr};

use crate::opened::{Opened, opened_for, plan_for};
use crate::parts::ShardParts;
use crate::plan::{Named, Plan};
use dialogues::Dialogue;
use hlr_types::{Peer, RemoteId};
use location::offer_to;
use msgarena::Parameter;
use q773_comp::Component;
use std::alloc::{AllocError, Global};
use tsl::{Head, Transaction};

/// The transaction after a Continue that it accepts (Q.774): Initiation Sent becomes Active, with the Continue's source as peer;
/// Active stays the same.
fn heard_from(transaction: Transaction, from: Peer, origin: RemoteId) -> Transaction
    ensures row { (t : machine.Transaction)
        → for_it (transact (Some (transaction_of transaction)) (ContinueComes from origin)) ≡ Some t
        → transaction_of result ≡ t }
    ensures active { result.remote ≡ Some origin }
{
    let peer = match transaction.remote {
        Some(_) => transaction.peer,
        None => from,
    };
    Transaction {
        peer,
        remote: Some(origin),
    }
}

/// The plan of a Continue for an open dialogue.
fn continued(
    alloc: Global,
    shard: &ShardParts,
    opened: Opened,
    from: Peer,
    origin: RemoteId,
    components: &[Component<Parameter>],
) -> Result<Plan, AllocError>
    requires { IsOpened shard.now.dialogues opened }
    ensures { IfOk result (λ plan. (t : machine.Transaction)
        → for_it (transact (Some (transaction_of opened.dialogue.transaction))
        (ContinueComes from origin)) ≡ Some t
        → IsPlan shard.now (Continues opened.id (with_transaction shard.now.dialogues opened t)
        (map (component parameter) components.now)) plan) }
{
    let Opened { id, dialogue, new } = opened;
    let transaction = heard_from(dialogue.transaction, from, origin);
    let named = Named::Continued {
        id,
        peer: transaction.peer,
        remote: origin,
    };
    let dialogue = Dialogue {
        transaction,
        ..dialogue
    };
    let offer = offer_to(&dialogue.kind);
    let effect = shard
        .dialogues()
        .effect(id, &offer, components, shard.clock())?;
    let subscriber = shard.records().get(&dialogue.subscriber);
    let outcome = location::continues(shard.hlr(), subscriber, id, &dialogue, effect, new);
    Ok(plan_for(&dialogue, named, new, outcome))
}

/// The plan of a received Continue. `None` if it is for no open dialogue; it is then answered with an Abort, P-Abort cause
/// unrecognizedTransactionID.
pub fn plan_continue(
    alloc: Global,
    shard: &ShardParts,
    from: Peer,
    origin: RemoteId,
    destination: RemoteId,
    components: &[Component<Parameter>],
) -> Result<Option<Plan>, AllocError>
    ensures { IfOk result (IsPlanOr shard.now
        (continue_at from origin destination (map (component parameter) components.now)
        (dialogues_of shard.now.dialogues destination))
        (send from (SentAbort origin (Cause UNRECOGNIZED_TRANSACTION_ID)))) }
{
    let head = Head::Continue {
        origin,
        destination,
    };
    let Some(opened) = opened_for(shard, &head) else {
        return Ok(None);
    };
    Ok(Some(continued(alloc, shard, opened, from, origin, components)?))
}
