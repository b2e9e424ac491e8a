//! Messages sent in an open dialogue (Q.774).

ghost use Rattle.std.specs.Prelude.{◌≡◌, ◌∷◌, [], None, map, Option};
ghost use Rattle.machine.specs.State.{Local};
ghost use Rattle.machine.specs.Outcome.{continue_in_dialogue, end_in_dialogue, unchanged};
ghost use Rattle.q773_comp.specs.Seen.{rejection};
ghost use Rattle.tsl.specs.Transactions.{transaction_of};
ghost use Rattle.outgoing.specs.Seen.{components, out};
ghost use Rattle.location.specs.Seen.{one, outcome_of};
ghost use Rattle.location.specs.Writing.{CanBeWritten};
ghost use Rattle.records.specs.Subscriber.{Subscriber};

use crate::outcome::{After, DialogueChange, Outcome};
use hlr_types::{IsdnAddress, Peer, Tid};
use outgoing::{Addressed, Components, SentMessage};
use q773_comp::Rejection;
use tsl::Transaction;

/// The address of a register.
pub(crate) fn peer_of(vlr: &IsdnAddress) -> Peer
    ensures { result ≡ vlr.now }
{
    Peer::new(*vlr.digits())
}

/// An End, if the dialogue is Active. In Initiation Sent the dialogue ends without a frame.
pub(crate) fn end_in_dialogue(
    transaction: Transaction,
    rejects: Vec<Rejection>,
    sent: Components,
) -> Option<Addressed>
    ensures { one result
        ≡ end_in_dialogue (transaction_of transaction) transaction.remote
        (map rejection rejects.items) (components sent) }
{
    let to = transaction.peer;
    match transaction.remote {
        Some(destination) => Some(Addressed {
            to,
            message: SentMessage::End {
                destination,
                context: None,
                rejects,
                components: sent,
            },
        }),
        None => None,
    }
}

/// A Continue, if there is a Reject to send.
pub(crate) fn continue_in_dialogue(
    id: Tid,
    transaction: Transaction,
    rejects: Vec<Rejection>,
) -> Option<Addressed>
    ensures { one result ≡ continue_in_dialogue id (transaction_of transaction) transaction.remote
        (map rejection rejects.items) }
{
    let to = transaction.peer;
    match transaction.remote {
        Some(destination) if !rejects.is_empty() => Some(Addressed {
            to,
            message: SentMessage::Continue {
                origin: id,
                destination,
                context: None,
                rejects,
                components: Components::Nothing,
            },
        }),
        _ => None,
    }
}

/// Nothing changes, and this is sent.
pub(crate) fn only(message: Addressed) -> Outcome
    ensures leaves { (here : Local) → outcome_of here None [] result
        ≡ unchanged here (out message ∷ []) }
    ensures writable { (s : Option Subscriber) → CanBeWritten result.after s }
{
    Outcome {
        after: After::Same,
        dialogue: DialogueChange::Closes,
        message: Some(message),
        cancel: None,
    }
}
