//! The reader: trees of short elements alone are read by recursion, as they have too few octets to be deep; all others in one pass
//! over the octets, without recursion at any depth.
ghost use Rattle.std.specs.Prelude.{◌≡◌, ℕ, ◌+◌, ◌<◌, ◌≤◌, ◌↔◌, List, [], length, IfSome, IfNone, IfOk, IfErr, MatchResult};
ghost use Rattle.x690.specs.Tree.{Tree, levels};
ghost use Rattle.x690.specs.Spelling.{Spells};
ghost use Rattle.bertree.specs.Contents.{Closes};
ghost use Rattle.bertree.specs.Faults.{SpellsNone, SpellsTooDeep, IsRefused};
ghost use Rattle.bertree.specs.Head.{followed_by};
ghost use Rattle.bertree.specs.Nodes.{tree};

use crate::fault::TreeFault;
use crate::head::{Head, next, read_head};
use crate::node::Node;
use crate::nodes::{Entry, Nodes};
use crate::short::read_short_tree;
use bumpalo::Bump;
use bumpalo::collections::into_bump_slice;
use x690::Tag;
use x690::limits::{MAX_LEVELS, MAX_OCTETS};

/// A constructed element that has begun: how many entries stand before those of its children and, if its length is definite,
/// what follows it.
#[derive(Clone, Copy)]
struct Open<'a> {
    tag: Tag,
    before: usize,
    after: Option<&'a [u8]>,
}

impl<'a> Open<'a> {
    #[inline(always)]
    fn new(tag: Tag, before: usize, after: Option<&'a [u8]>) -> Open<'a>
        ensures tag { result.tag ≡ tag }
        ensures before { result.before ≡ before }
        ensures after { result.after ≡ after.entry }
    {
        Open { tag, before, after }
    }
}

/// What follows an element, if its contents end here: at the last octet of a definite length, otherwise at `00 00`
/// (X.690, 8.1.5).
fn end<'a>(after: Option<&'a [u8]>, octets: &'a [u8]) -> Option<&'a [u8]>
    ensures found { IfSome result (λ rest. Closes
        (followed_by after.entry) octets.now [] rest.now) }
    ensures none { IfNone result ((rest : List ℕ)
        → Closes (followed_by after.entry) octets.now [] rest → ⊥) }
{
    match after {
        Some(after) => { if octets.is_empty() { Some(after) } else { None } }
        None => {
            let (first, rest) = next(octets)?;
            let (second, rest) = next(rest)?;
            if first == 0 && second == 0 {
                Some(rest)
            } else {
                None
            }
        }
    }
}

/// The node, if no octet follows it.
fn alone<'a>(node: Node<'a>, after: &[u8]) -> Result<Node<'a>, TreeFault>
    ensures ok { IfOk result (λ same. (same ≡ node.entry) × (after.now ≡ [])) }
    ensures not_ber { IfErr result (λ fault. (fault ≡ TreeFault.NotBer) × (after.now ≡ [] → ⊥)) }
{
    if after.is_empty() {
        Ok(node)
    } else {
        Err(TreeFault::NotBer)
    }
}

/// The tree that the octets spell, and its levels. The elements that have begun are in `outer`, outermost first, and in
/// `inner`; `rest` is what is left of the contents of `inner`. What is in the outermost one stands in `nodes`, in the order of the
/// octets; when an element ends, its entry is told how many are in it. Both lists have room for all that they can hold from the
/// start, since each element takes at least two octets.
// Not inlined: few frames come here, and among what is done around it the loop would have no registers left.
#[inline(never)]
fn read_levels<'a>(bump: &'a Bump, octets: &'a [u8]) -> Result<(Node<'a>, usize), TreeFault>
    ensures ok { IfOk result (λ found. Spells octets.now (tree found.0)
        × (levels (tree found.0) ≡ found.1)) }
    ensures not_ber { result ≡ Err TreeFault.NotBer → SpellsNone octets.now }
    ensures others { (result ≡ Err TreeFault.TooLong → ⊥) × (result ≡ Err TreeFault.TooDeep → ⊥) }
{
    let Some(head) = read_head(octets) else {
        return Err(TreeFault::NotBer);
    };
    let (mut inner, mut rest) = match head {
        Head::Primitive(tag, contents, after) => {
            return Ok((alone(Node::Primitive(tag, contents), after)?, 1));
        }
        Head::Constructed(tag, contents, after) => (Open::new(tag, 0, after), contents),
    };
    let most = octets.len() / 2;
    let mut outer: Vec<Open<'a>, &'a Bump> = Vec::with_capacity(bump, most)?;
    let mut nodes: Vec<Entry<'a>, &'a Bump> = Vec::with_capacity(bump, most)?;
    let mut deepest = 1;
    loop {
        if let Some(after) = end(inner.after, rest) {
            let Some(parent) = outer.pop() else {
                let node = Node::Constructed(inner.tag, Nodes::new(into_bump_slice(nodes)));
                return Ok((alone(node, after)?, deepest));
            };
            let inside = nodes.len() - inner.before;
            nodes[inner.before - 1] = Entry::Constructed(inner.tag, inside);
            inner = parent;
            rest = after;
            continue;
        }
        let Some(head) = read_head(rest) else {
            return Err(TreeFault::NotBer);
        };
        deepest = deepest.max(outer.len() + 2);
        match head {
            Head::Primitive(tag, contents, after) => {
                nodes.push_reserved(Entry::Primitive(tag, contents));
                rest = after;
            }
            Head::Constructed(tag, contents, after) => {
                outer.push_reserved(inner);
                nodes.push_reserved(Entry::Constructed(tag, 0));
                inner = Open::new(tag, nodes.len(), after);
                rest = contents;
            }
        }
    }
}

/// The tree that the octets spell (X.690, 8.1), in the arena.
///
/// Faults are found in this order: `TooLong`, before anything is allocated; `NotBer`, at any depth; `TooDeep`. After a
/// fault the arena's contents are unspecified.
pub fn read_tree<'a>(bump: &'a Bump, octets: &'a [u8]) -> Result<Node<'a>, TreeFault>
    ensures ok { IfOk result (λ node. Spells octets.now (tree node)
        × (length octets.now ≤ MAX_OCTETS) × (levels (tree node) ≤ MAX_LEVELS)) }
    ensures too_long { (result ≡ Err TreeFault.TooLong) ↔ (MAX_OCTETS < length octets.now) }
    ensures not_ber { result ≡ Err TreeFault.NotBer → SpellsNone octets.now }
    ensures too_deep { result ≡ Err TreeFault.TooDeep → SpellsTooDeep octets.now }

    // And conversely: the result for each string of at most `MAX_OCTETS` octets.
    ensures tree { length octets.now ≤ MAX_OCTETS → (t : Tree) → Spells octets.now t
        → levels t ≤ MAX_LEVELS
        → MatchResult result (λ node. tree node ≡ t) (λ fault. fault ≡ TreeFault.Memory) }
    ensures no_tree { length octets.now ≤ MAX_OCTETS → SpellsNone octets.now
        → IsRefused result TreeFault.NotBer }
    ensures deep_tree { length octets.now ≤ MAX_OCTETS → SpellsTooDeep octets.now
        → IsRefused result TreeFault.TooDeep }
{
    if octets.len() > MAX_OCTETS {
        return Err(TreeFault::TooLong);
    }
    if let Some(node) = read_short_tree(bump, octets) {
        return Ok(node);
    }
    let (node, levels) = read_levels(bump, octets)?;
    if levels > MAX_LEVELS {
        return Err(TreeFault::TooDeep);
    }
    Ok(node)
}
