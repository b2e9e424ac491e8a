//! Inputs of the tests.

use hlr_types::{Digits, Peer};
use hlrcore::Out;

pub(crate) fn peer(text: &[u8]) -> Result<Peer, &'static str> {
    Ok(Peer::new(Digits::from_text(text).ok_or("digits")?))
}

/// The octets of the frame at an index, none if there is no such frame.
pub(crate) fn octets_at(outs: &[Out], place: usize) -> &[u8] {
    match outs.get(place) {
        Some(out) => &out.octets,
        None => &[],
    }
}
