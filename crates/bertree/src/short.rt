//! The reader of trees whose elements are all short, with the tag in one octet and the length in another, as in nearly all messages
//! of TCAP and MAP. Such a tree has at most 129 octets. Whatever is not such a tree is left to the reader of any tree, which
//! finds the faults too.
ghost use Rattle.std.specs.Prelude.{◌≡◌, ◌+◌, ◌/◌, ◌≤◌, length, vec_len, vec_capacity, IfSome};
ghost use Rattle.x690.specs.Tree.{levels};
ghost use Rattle.x690.specs.Spelling.{Spells};
ghost use Rattle.bertree.specs.Listed.{Adds};
ghost use Rattle.bertree.specs.Nodes.{tree};

use crate::head::read_short_element;
use crate::node::Node;
use crate::nodes::{Entry, Nodes};
use bumpalo::Bump;
use bumpalo::collections::into_bump_slice;
use x690::limits::MAX_LEVELS;

/// Adds the elements that the octets spell, if they are short and have at most so many levels. What is in a constructed element
/// comes after it, and is counted then. There is space for all of them from the start, since each takes at least two octets.
fn read_short_elements<'a>(
    nodes: &mut Vec<Entry<'a>, &'a Bump>,
    octets: &'a [u8],
    most_levels: usize,
) -> Option<()>
    requires room { vec_len nodes.old + length octets.now / 2 ≤ vec_capacity nodes.old }
    ensures added { IfSome result (λ _. Adds
        octets.now most_levels nodes.old.items nodes.new.items) }
    ensures few { IfSome result (λ _. vec_len nodes.new
        ≤ vec_len nodes.old + length octets.now / 2) }
    ensures room { IfSome result (λ _. vec_capacity nodes.new ≡ vec_capacity nodes.old) }
{
    if most_levels == 0 {
        return None;
    }
    let mut rest = octets;
    while !rest.is_empty() {
        let element = read_short_element(rest)?;
        rest = element.after;
        if element.tag.constructed {
            let place = nodes.len();
            nodes.push_reserved(Entry::Constructed(element.tag, 0));
            read_short_elements(nodes, element.contents, most_levels - 1)?;
            let inside = nodes.len() - place - 1;
            nodes[place] = Entry::Constructed(element.tag, inside);
        } else {
            nodes.push_reserved(Entry::Primitive(element.tag, element.contents));
        }
    }
    Some(())
}

/// The tree that the octets spell, in the arena, if it is a constructed element, all its elements are short, it is within the
/// limits, and memory suffices.
pub(crate) fn read_short_tree<'a>(bump: &'a Bump, octets: &'a [u8]) -> Option<Node<'a>>
    ensures { IfSome result (λ node. Spells octets.now (tree node)
        × (levels (tree node) ≤ MAX_LEVELS)) }
{
    let element = read_short_element(octets)?;
    if !element.tag.constructed || !element.after.is_empty() {
        return None;
    }
    let Ok(mut nodes) = Vec::with_capacity(bump, element.contents.len() / 2) else {
        return None;
    };
    read_short_elements(&mut nodes, element.contents, MAX_LEVELS - 1)?;
    Some(Node::Constructed(element.tag, Nodes::new(into_bump_slice(nodes))))
}
