//! Inputs of the tests.

use hlr_types::{Digits, Imsi, Peer, Tid};
use hlrcore::{Out, ShardParts};
use records::read_records;
use std::alloc::Global;

/// The id that the first dialogue of shard 1 takes.
pub(crate) const FIRST: Tid = Tid([1, 0, 0x10, 0]);

fn digits(text: &[u8]) -> Result<Digits, &'static str> {
    Digits::from_text(text).ok_or("digits")
}

pub(crate) fn imsi(text: &[u8]) -> Result<Imsi, &'static str> {
    Imsi::from_digits(digits(text)?).ok().ok_or("imsi")
}

pub(crate) fn peer(text: &[u8]) -> Result<Peer, &'static str> {
    Ok(Peer::new(digits(text)?))
}

/// Shard 1 as it begins with this records file, without open dialogues.
pub(crate) fn shard(alloc: Global, records: &[u8]) -> Result<ShardParts, &'static str> {
    let loaded = read_records(alloc, records).ok().ok_or("records")?;
    let part = loaded.part(1).ok().ok_or("part")?;
    let directory = loaded.shared_directory().ok().ok_or("directory")?;
    let shard = ShardParts::of_part(alloc, 0, 1, part, directory, *loaded.hlr()).ok();
    shard.ok_or("shard")
}

/// The octets of the frame at an index, none if there is no such frame.
pub(crate) fn octets_at(outs: &[Out], place: usize) -> &[u8] {
    match outs.get(place) {
        Some(out) => &out.octets,
        None => &[],
    }
}
