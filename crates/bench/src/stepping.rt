//! One whole step of a shard: the frame decoded, its shard found, the step, the octets of its answer.

use anyhow::{Result, bail};
use bumpalo::Bump;
use hlr_types::{Digits, Peer};
use hlrcore::{Event, RawEvent, State};
use records::read_records;
use std::alloc::Global;

/// A subscriber of shard 1 with a serving register.
const RECORDS: &[u8] = b"HLR1 447700900100
234150000000001 447700900000 11,21 * 447700900011,447700900001,-,s
";

/// Handles the octets in each round, all in one arena and one shard; counts the octets that are sent.
pub fn run(alloc: Global, octets: &[u8], rounds: u64) -> Result<u64> {
    let Some(digits) = Digits::from_text(b"447700909999") else {
        bail!("no digits");
    };
    let raw = RawEvent::Frame {
        from: Peer::new(digits),
        octets: octets.to_vec(alloc)?,
    };
    let mut state = State::new(alloc, 1, &read_records(alloc, RECORDS)?)?;
    let mut bump = Bump::new(alloc);
    let mut sent = 0u64;
    for _ in 0..rounds {
        let event = Event::of(alloc, &mut bump, &raw)?;
        let answer = state.step(&event)?;
        for out in answer.outs.as_slice() {
            sent = sent.saturating_add(out.octets.len() as u64);
        }
    }
    Ok(sent)
}
