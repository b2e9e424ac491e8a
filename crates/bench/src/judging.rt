//! The whole verdict on a frame, in and out of an arena.

use anyhow::{Result, bail};
use bumpalo::Bump;
use hlr_types::{Digits, Peer};
use msgarena::{ReadMessage, Round, Verdict};
use std::alloc::Global;

/// Reads the octets in each round, all in one arena; counts the components.
pub fn run(alloc: Global, octets: &[u8], rounds: u64) -> Result<u64> {
    let Some(digits) = Digits::from_text(b"447700909999") else {
        bail!("no digits");
    };
    let peer = Peer::new(digits);
    let mut bump = Bump::new(alloc);
    let mut components = 0u64;
    for _ in 0..rounds {
        let indication = Round::take(alloc, &mut bump, peer, octets)?;
        components = components.saturating_add(count(indication.verdict()));
    }
    Ok(components)
}

/// How many components a verdict has.
fn count(verdict: &Verdict) -> u64 {
    match verdict {
        Verdict::Read(
            ReadMessage::Begin { components, .. }
            | ReadMessage::Continue { components, .. }
            | ReadMessage::End { components, .. },
        ) => components.as_slice().len() as u64,
        Verdict::Read(ReadMessage::Abort { .. }) | Verdict::Discard | Verdict::Refuse(..) => 0,
    }
}
