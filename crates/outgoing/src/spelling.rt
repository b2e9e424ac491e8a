//! The octets of what is sent.

ghost use Rattle.std.specs.Prelude.{◌≡◌, ◌<◌, IfOk, IfSome};
ghost use Rattle.frames.specs.SentTrees.{octets_of_sent};
ghost use Rattle.outgoing.specs.Seen.{message};

use crate::buffer::{Buffer, NoRoom};
use crate::message::SentMessage;
use crate::written_messages::put_message;
use std::alloc::{AllocError, Global};

/// The octets of most messages at most: room for them is on the stack.
const SHORT: usize = 256;

/// A copy of octets, in a list of their size. They are copied at once, which `to_vec` does not do.
fn copied(alloc: Global, octets: &[u8]) -> Result<Vec<u8>, AllocError>
    ensures { IfOk result (λ copy. copy.items ≡ octets.now) }
{
    let mut copy = Vec::with_capacity(alloc, octets.len())?;
    copy.extend_from_slice(octets)?;
    Ok(copy)
}

/// The octets of a message, written in this buffer, or none if they do not fit in it.
fn written(
    alloc: Global,
    sent: &SentMessage,
    buffer: &mut [u8],
) -> Result<Option<Vec<u8>>, AllocError>
    ensures { IfOk result (λ found. IfSome found (λ octets.
        octets.items ≡ octets_of_sent (message sent.now))) }
{
    let mut buffer = Buffer::new(buffer);
    match put_message(&mut buffer, sent) {
        Ok(()) => Ok(Some(copied(alloc, buffer.as_slice())?)),
        Err(NoRoom) => Ok(None),
    }
}

/// The octets of a message, written in a buffer of this size from the heap, or of twice the size, and so on, until they fit.
fn long_octets(alloc: Global, sent: &SentMessage, size: usize) -> Result<Vec<u8>, AllocError>
    requires { 0 < size }
    ensures { IfOk result (λ octets. octets.items ≡ octets_of_sent (message sent.now)) }
{
    let mut buffer = Vec::new(alloc);
    buffer.resize(size, 0)?;
    match written(alloc, sent, &mut buffer)? {
        Some(octets) => Ok(octets),
        None => {
            drop(buffer);
            long_octets(alloc, sent, 2 * size)
        }
    }
}

/// The octets of a message: definite lengths, in the fewest octets (X.690, 8.1.3).
pub fn octets_of(alloc: Global, sent: &SentMessage) -> Result<Vec<u8>, AllocError>
    ensures { IfOk result (λ octets. octets.items ≡ octets_of_sent (message sent.now)) }
{
    match written(alloc, sent, &mut [0; SHORT])? {
        Some(octets) => Ok(octets),
        None => long_octets(alloc, sent, 2 * SHORT),
    }
}
