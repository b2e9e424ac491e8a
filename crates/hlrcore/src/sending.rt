//! The frames that a procedure sends.

ghost use Rattle.std.specs.Prelude.{◌≡◌, IfOk, map};
ghost use Rattle.std.specs.Option.{option_to_list};
ghost use Rattle.frames.specs.Octets.{spelled_out};
ghost use Rattle.location.specs.Seen.{one, one_cancel, out, sent_of};
ghost use Rattle.hlrcore.specs.Frames.{raw_out};

use crate::answer::Out;
use crate::out_list::OutList;
use crate::sent_frames::Frames;
use location::{Addressed, CancelBegin, octets_of};
use std::alloc::{AllocError, Global};

/// A message as a frame.
fn spelled(alloc: Global, sent: &Addressed) -> Result<Out, AllocError>
    ensures { IfOk result (λ frame. raw_out frame ≡ spelled_out (out sent.now)) }
{
    let Ok(octets) = octets_of(alloc, &sent.message) else {
        return Err(AllocError);
    };
    Ok(Out {
        to: sent.to,
        octets,
    })
}

/// The frame of a message, if there is one.
fn spelled_message(alloc: Global, message: &Option<Addressed>) -> Result<Option<Out>, AllocError>
    ensures { IfOk result (λ frame. map raw_out (option_to_list frame)
        ≡ map spelled_out (one message.now)) }
{
    match message {
        Some(message) => Ok(Some(spelled(alloc, message)?)),
        None => Ok(None),
    }
}

/// The frame of a cancel's Begin, if there is one.
fn spelled_cancel(alloc: Global, cancel: &Option<CancelBegin>) -> Result<Option<Out>, AllocError>
    ensures { IfOk result (λ frame. map raw_out (option_to_list frame)
        ≡ map spelled_out (one_cancel cancel.now)) }
{
    match cancel {
        Some(cancel) => Ok(Some(spelled(alloc, &cancel.message())?)),
        None => Ok(None),
    }
}

/// The messages as frames, in order.
pub(crate) fn outs_of(
    alloc: Global,
    message: &Option<Addressed>,
    cancel: &Option<CancelBegin>,
) -> Result<Frames, AllocError>
    ensures { IfOk result (λ outs. outs ≡ map spelled_out (sent_of message.now cancel.now)) }
{
    let first = spelled_message(alloc, message)?;
    let second = spelled_cancel(alloc, cancel)?;
    Frames::of(OutList::of(alloc, first, second)?)
}
