//! Reading a frame into an arena, and resetting the arena.

use anyhow::Result;
use bertree::{MAX_LEVELS, Node, read_tree};
use bumpalo::Bump;
use std::alloc::Global;

/// Reads the octets in each round and resets the arena; counts the elements.
pub fn run(alloc: Global, octets: &[u8], rounds: u64) -> Result<u64> {
    let mut bump = Bump::new(alloc);
    let mut elements = 0u64;
    for _ in 0..rounds {
        let node = read_tree(&bump, octets)?;
        let count = count(&node, MAX_LEVELS);
        bump.reset()?;
        elements = elements.saturating_add(count);
    }
    Ok(elements)
}

/// The number of elements in the first `levels` levels of a tree.
fn count(node: &Node<'_>, levels: usize) -> u64 {
    if levels == 0 {
        return 0;
    }
    let mut elements = 1u64;
    let mut rest = node.nodes();
    while let Some((child, behind)) = rest.split_first() {
        elements = elements.saturating_add(count(&child, levels - 1));
        rest = behind;
    }
    elements
}
