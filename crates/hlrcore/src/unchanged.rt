//! Answers that go with no change of state.

ghost use Rattle.std.specs.Prelude.{◌≡◌, [], None, IfOk, map};
ghost use Rattle.machine.specs.Sent.{SentAbort, Cause};
ghost use Rattle.machine.specs.Outcome.{send};
ghost use Rattle.frames.specs.Octets.{spelled_out};
ghost use Rattle.location.specs.Seen.{said};
ghost use Rattle.hlrcore.specs.Answers.{Says};

use crate::answer::{Out, StepAnswer};
use crate::out_list::OutList;
use crate::sent_frames::Frames;
use hlr_types::{Imsi, Peer, RemoteId};
use location::{SentMessage, Why, octets_of};
use std::alloc::{AllocError, Global};

/// Nothing is sent.
pub(crate) fn silent() -> StepAnswer
    ensures { Says result None None [] }
{
    StepAnswer {
        outs: Frames::none(),
        id: None,
        subject: None,
    }
}

/// A single Abort with this P-Abort cause (Q.773).
pub(crate) fn aborted(
    alloc: Global,
    to: Peer,
    destination: RemoteId,
    cause: u8,
    subject: Option<Imsi>,
) -> Result<StepAnswer, AllocError>
    ensures { IfOk result (λ a. Says a None subject
        (send to (SentAbort destination (Cause cause)))) }
{
    let message = SentMessage::Abort {
        destination,
        why: Why::Cause(cause),
    };
    Ok(StepAnswer {
        outs: one_out(alloc, to, &message)?,
        id: None,
        subject,
    })
}

/// One message to one address.
fn one_out(alloc: Global, to: Peer, message: &SentMessage) -> Result<Frames, AllocError>
    ensures { IfOk result (λ outs. outs ≡ map spelled_out (send to (said message.now))) }
{
    let Ok(octets) = octets_of(alloc, message) else {
        return Err(AllocError);
    };
    Frames::of(OutList::one(alloc, Out { to, octets })?)
}
