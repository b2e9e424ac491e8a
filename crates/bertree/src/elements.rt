//! The elements of a SEQUENCE, read from the first on (X.690, 8.9): each function returns what was read and the elements
//! after it.
ghost use Rattle.std.specs.Prelude.{◌≡◌, Some, None, option_map};
ghost use Rattle.std.specs.Option.{option_copied};
ghost use Rattle.x690.specs.Reading.{tagged, octets_of, children_of};
ghost use Rattle.x690.specs.Elements.{first, optional, at_most_one, no_more};
ghost use Rattle.bertree.specs.Nodes.{tree, elements};

use crate::node::Node;
use crate::nodes::Nodes;
use x690::Tag;

/// Required: the contents of the first element, which is primitive and has this tag.
pub fn octets<'a>(nodes: Nodes<'a>, tag: Tag) -> Option<(&'a [u8], Nodes<'a>)>
    ensures { option_map (λ found. (found.0.now, elements found.1)) result
        ≡ first (octets_of tag) (elements nodes.entry) }
{
    let (node, rest) = nodes.split_first()?;
    Some((node.octets(tag)?, rest))
}

/// Required: the first element, which has this tag.
pub fn node<'a>(nodes: Nodes<'a>, tag: Tag) -> Option<(Node<'a>, Nodes<'a>)>
    ensures { option_map (λ found. (tree found.0, elements found.1)) result
        ≡ first (tagged tag) (elements nodes.entry) }
{
    let (node, rest) = nodes.split_first()?;
    if node.tag() == tag {
        Some((node, rest))
    } else {
        None
    }
}

/// Required: the children of the first element, which is constructed and has this tag.
pub fn children<'a>(nodes: Nodes<'a>, tag: Tag) -> Option<(Nodes<'a>, Nodes<'a>)>
    ensures { option_map (λ found. (elements found.0, elements found.1)) result
        ≡ first (children_of tag) (elements nodes.entry) }
{
    let (node, rest) = nodes.split_first()?;
    Some((node.children(tag)?, rest))
}

/// Optional: the contents of the first element, if it is primitive and has this tag.
pub fn optional_octets<'a>(nodes: Nodes<'a>, tag: Tag) -> (Option<&'a [u8]>, Nodes<'a>)
    ensures { (option_copied result.0, elements result.1)
        ≡ optional (octets_of tag) (elements nodes.entry) }
{
    match octets(nodes, tag) {
        Some((contents, rest)) => (Some(contents), rest),
        None => (None, nodes),
    }
}

/// Optional: the first element, if it has this tag.
pub fn optional_node<'a>(nodes: Nodes<'a>, tag: Tag) -> (Option<Node<'a>>, Nodes<'a>)
    ensures { (option_map tree result.0, elements result.1)
        ≡ optional (tagged tag) (elements nodes.entry) }
{
    match node(nodes, tag) {
        Some((first, rest)) => (Some(first), rest),
        None => (None, nodes),
    }
}

/// Optional: the children of the first element, if it is constructed and has this tag.
pub fn optional_children<'a>(nodes: Nodes<'a>, tag: Tag) -> (Option<Nodes<'a>>, Nodes<'a>)
    ensures { (option_map elements result.0, elements result.1)
        ≡ optional (children_of tag) (elements nodes.entry) }
{
    match children(nodes, tag) {
        Some((inside, rest)) => (Some(inside), rest),
        None => (None, nodes),
    }
}

/// The one element, or that there is none; nothing if there are more.
pub fn at_most_one<'a>(nodes: Nodes<'a>) -> Option<Option<Node<'a>>>
    ensures { option_map (option_map tree) result ≡ at_most_one (elements nodes.entry) }
{
    let Some((node, rest)) = nodes.split_first() else {
        return Some(None);
    };
    match rest.split_first() {
        None => Some(Some(node)),
        Some(_second) => None,
    }
}

/// That no element is left.
pub fn no_more(nodes: Nodes) -> Option<()>
    ensures { result ≡ no_more tt (elements nodes.entry) }
{
    match nodes.split_first() {
        None => Some(()),
        Some(_further) => None,
    }
}
