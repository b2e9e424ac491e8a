//! Inputs of the tests. A failure is a `None` here, since a `Fail` must not be dropped when an allocation fails on purpose.

use crate::samples::{OTHER_VLR, RECORDS, SUBSCRIBER};
use hlr_types::{Digits, Imsi, Peer, Tid};
use hlrcore::{Out, RawEvent};
use records::{Loaded, Records, read_records};
use std::alloc::Global;

/// Whether a test shows what it is to show. One that itself ran out of memory shows nothing, and says so: `failing/run` wants none of
/// that if nothing was refused.
pub(crate) fn is_shown(rt: &HostRuntime, shown: Option<bool>) -> bool {
    if shown.is_none() {
        let _ = println!(rt; "out of memory");
    }
    shown != Some(false)
}

/// The id that the first dialogue of shard 1 takes.
pub(crate) const FIRST: Tid = Tid([1, 0, 0x10, 0]);

fn imsi(text: &[u8]) -> Option<Imsi> {
    Imsi::from_digits(Digits::from_text(text)?).ok()
}

/// The first subscriber of the records file.
pub(crate) fn subscriber() -> Option<Imsi> {
    imsi(SUBSCRIBER)
}

pub(crate) fn peer(text: &[u8]) -> Option<Peer> {
    Some(Peer::new(Digits::from_text(text)?))
}

/// The records file, as it is loaded.
pub(crate) fn loaded(alloc: Global) -> Option<Loaded> {
    read_records(alloc, RECORDS).ok()
}

/// The records of shard 1.
pub(crate) fn part(loaded: &Loaded) -> Option<Records> {
    loaded.part(1).ok()
}

/// A frame from this address.
pub(crate) fn frame_from(alloc: Global, from: &[u8], octets: &[u8]) -> Option<RawEvent> {
    let from = peer(from)?;
    let octets = octets.to_vec(alloc).ok()?;
    Some(RawEvent::Frame { from, octets })
}

/// A frame from the VLR that most frames come from.
pub(crate) fn frame(alloc: Global, octets: &[u8]) -> Option<RawEvent> {
    frame_from(alloc, OTHER_VLR, octets)
}

/// Whether these frames, one after another, are these octets.
pub(crate) fn are_frames(outs: &[Out], octets: &[u8]) -> bool {
    let mut rest = octets;
    for out in outs {
        match rest.strip_prefix(&out.octets) {
            Some(after) => rest = after,
            None => return false,
        }
    }
    rest.is_empty()
}
