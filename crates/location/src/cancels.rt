//! Own cancelLocation (TS 29.002, 8.1.3 MAP_CANCEL_LOCATION; TS 23.012, Location cancellation).

ghost use Rattle.std.specs.Prelude.{◌≡◌, ◌∷◌, [], List, ℕ, Option};
ghost use Rattle.machine.specs.State as machine;
ghost use Rattle.machine.specs.State.{Local};
ghost use Rattle.machine.specs.Outcome.{cancel, cancel_begin};
ghost use Rattle.mapargs_loc.specs.Seen.{cancellation};
ghost use Rattle.location.specs.Seen.{after_of, cancel_out, one, opening_of, outcome_of};
ghost use Rattle.location.specs.Cancelling.{then_cancel};
ghost use Rattle.location.specs.Staying.{ForgetsNothing};

use crate::outcome::{After, CancelBegin, DialogueChange, Opening, Outcome};
use dialogues::{Dialogue, Kind};
use hlr_types::{Imsi, Peer, Tid};
use mapargs_loc::CancellationType;
use outgoing::Addressed;
use tsl::Transaction;

/// A cancel to be sent: the VLR digits, the attempt, and the cancellationType.
#[derive(Clone, Copy)]
pub(crate) struct Cancelling {
    pub(crate) vlr: Peer,
    pub(crate) attempt: u8,
    pub(crate) why: CancellationType,
}

/// The dialogue of a cancel.
fn cancel(imsi: Imsi, vlr: Peer, attempt: u8, why: CancellationType) -> Opening
    ensures { (here : Local) → imsi ≡ here.imsi
        → opening_of here.clock result ≡ cancel here vlr attempt (cancellation why) }
{
    Opening {
        dialogue: Dialogue {
            subscriber: imsi,
            transaction: Transaction {
                peer: vlr,
                remote: None,
            },
            kind: Kind::Cancel { vlr, attempt, why },
        },
        invoked: 1,
    }
}

/// Its Begin.
fn cancel_begin(imsi: Imsi, vlr: Peer, why: CancellationType, new: Tid) -> CancelBegin
    ensures { (here : Local) → imsi ≡ here.imsi
        → cancel_out result ∷ [] ≡ cancel_begin here vlr (cancellation why) new }
{
    CancelBegin {
        to: vlr,
        origin: new,
        imsi,
        why,
    }
}

/// The named dialogue, if any, closes with this message; a cancel may follow.
pub(crate) fn then_cancel(
    after: After,
    message: Option<Addressed>,
    imsi: Imsi,
    next: Option<Cancelling>,
    new: Tid,
) -> Outcome
    ensures leaves { (here : Local) (named : Option machine.Dialogue) (codes : List ℕ)
        → imsi ≡ here.imsi
        → outcome_of here named codes result
        ≡ then_cancel here (after_of codes after here.record_of) (one message) next new }
    ensures record_after { result.after ≡ after }
    ensures keeps { ForgetsNothing result.dialogue }
{
    match &next {
        Some(sent) => Outcome {
            after,
            dialogue: DialogueChange::Opens(cancel(imsi, sent.vlr, sent.attempt, sent.why)),
            message,
            cancel: Some(cancel_begin(imsi, sent.vlr, sent.why, new)),
        },
        None => Outcome {
            after,
            dialogue: DialogueChange::Closes,
            message,
            cancel: None,
        },
    }
}
