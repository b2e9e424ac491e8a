//! A frame that is read and copied while memory is refused.

use crate::events::{FRAMES, frame_octets};
use crate::procedures::{are_alike, copied, taken};
use msgarena::Indication;
use std::alloc::Global;

/// What these octets read to, at the second try, in a new arena, if the first is out of memory.
fn read(alloc: Global, octets: &[u8]) -> Option<Indication> {
    if let Some(first) = taken(alloc, octets) {
        return Some(first);
    }
    taken(alloc, octets)
}

/// A copy, at the second try if the first is out of memory.
fn copy(alloc: Global, indication: &Indication) -> Option<Indication> {
    if let Some(first) = copied(alloc, indication) {
        return Some(first);
    }
    copied(alloc, indication)
}

/// Whether a copy of what these octets read to is the same, and what they read to again.
fn is_read_again(alloc: Global, octets: &[u8], first: &Indication) -> Option<bool> {
    if !are_alike(first, &copy(alloc, first)?) {
        return Some(false);
    }
    Some(are_alike(first, &read(alloc, octets)?))
}

/// Whether a frame is read to a message and copied, and read again to the same.
fn is_read(alloc: Global, octets: &[u8]) -> Option<bool> {
    let first = read(alloc, octets)?;
    if first.octets() != octets {
        return Some(false);
    }
    is_read_again(alloc, octets, &first)
}

/// Whether each frame is.
fn are_read(alloc: Global) -> Option<bool> {
    for number in 0..FRAMES {
        if !is_read(alloc, frame_octets(number))? {
            return Some(false);
        }
    }
    Some(true)
}

#[test]
fn frames_are_read(rt: HostRuntime) {
    assert!(rt; are_read(rt.alloc()) == Some(true));
}
