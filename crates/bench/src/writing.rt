//! Writing the octets of a tree.

use crate::answer::first_answer;
use anyhow::Result;
use berwrite::write_tree;
use bumpalo::Bump;
use std::alloc::Global;

/// Writes the tree of an answer in each round; counts the octets.
pub fn run(alloc: Global, rounds: u64) -> Result<u64> {
    let bump = Bump::new(alloc);
    let tree = first_answer(&bump)?;
    let mut octets = 0u64;
    for _ in 0..rounds {
        let written = write_tree(alloc, &tree)?;
        octets = octets.saturating_add(written.len() as u64);
    }
    Ok(octets)
}
