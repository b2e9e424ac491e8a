//! The writer: one pass over the tree, from front to end.
ghost use Rattle.std.specs.Prelude.{◌≡◌, ◌+◌, ◌-◌, ◌^◌, ◌<◌, ◌++◌, [], length, IfOk, OnOk};
ghost use Rattle.x690.specs.Spelling.{Spells, enc};
ghost use Rattle.x690.specs.Tree.{HasTags};
ghost use Rattle.berwrite.specs.OwnTrees.{own};

use crate::identifier::put_identifier;
use crate::length::{put_length, set_length};
use crate::memory::Memory;
use crate::own_tree::OwnTree;
use bumpalo::Bump;
use std::alloc::{AllocError, Allocator, Global};

/// Appends the octets of a tree. One octet holds the place of a length until the contents after it are written.
fn put<A: Allocator>(tree: &OwnTree, out: &mut Vec<u8, A>) -> Result<(), AllocError>
    ensures { OnOk result (out.new.items ≡ out.old.items ++ enc (own tree.now)) }
{
    put_identifier(out, tree.tag())?;
    match tree {
        OwnTree::Primitive(_, octets) => {
            put_length(out, octets.len())?;
            out.extend_from_slice(octets)?;
            Ok(())
        }
        OwnTree::Constructed(_, children) => {
            let place = out.len();
            out.push(0)?;
            for child in *children {
                put(child, out)?;
            }
            set_length(out, place)
        }
    }
}

/// A buffer for the octets of most messages. They are written there and copied to a list of their size: to measure a tree first takes
/// longer.
const ROOM: usize = 256;

/// The octets of a tree, in a list of their size, with the buffer to write them in from another allocator.
fn written<A: Allocator>(alloc: Global, room: A, tree: &OwnTree) -> Result<Vec<u8>, Memory>
    ensures octets { IfOk result (λ octets. octets.items ≡ enc (own tree.now)) }
    ensures spelling { IfOk result (λ octets. length octets.items < 2 ^ 32 → HasTags (own tree.now)
        → Spells octets.items (own tree.now)) }
{
    let mut octets = Vec::with_capacity(room, ROOM)?;
    put(tree, &mut octets)?;
    Ok(Vec::from_slice(alloc, &octets)?)
}

/// The octets that are sent for a tree, in a list of their size.
///
/// There is no precondition. With 2^32 octets or more a length may not fit in four octets; then they are no spelling that is
/// read.
pub fn write_tree(alloc: Global, tree: &OwnTree) -> Result<Vec<u8>, Memory>
    ensures octets { IfOk result (λ octets. octets.items ≡ enc (own tree.now)) }
    ensures spelling { IfOk result (λ octets. length octets.items < 2 ^ 32 → HasTags (own tree.now)
        → Spells octets.items (own tree.now)) }
{
    written(alloc, alloc, tree)
}

/// The same, for a caller with an arena: they are written there before they are copied, which takes one allocation less.
pub fn write_tree_in(alloc: Global, bump: &Bump, tree: &OwnTree) -> Result<Vec<u8>, Memory>
    ensures octets { IfOk result (λ octets. octets.items ≡ enc (own tree.now)) }
    ensures spelling { IfOk result (λ octets. length octets.items < 2 ^ 32 → HasTags (own tree.now)
        → Spells octets.items (own tree.now)) }
{
    written(alloc, bump, tree)
}
