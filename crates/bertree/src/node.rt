//! An element of a tree in an arena.
ghost use Rattle.std.specs.Prelude.{◌≡◌, Some, None, option_map};
ghost use Rattle.std.specs.Option.{option_copied};
ghost use Rattle.x690.specs.Reading.{tag_of, octets_of, octet_of, children_of, children, only_child};
ghost use Rattle.bertree.specs.Nodes.{tree, elements};

use crate::elements::at_most_one;
use crate::nodes::Nodes;
use x690::Tag;

/// An element of a tree that octets spell: its tag with its contents, which are a slice of the octets that were read, or
/// with its children, which are in the arena. Nothing in it needs to be dropped.
#[derive(Clone, Copy)]
pub enum Node<'a> {
    Primitive(Tag, &'a [u8]),
    Constructed(Tag, Nodes<'a>),
}

#[tactic(auto, using(crate::proofs::Trees::tree_views))]
impl<'a> Node<'a> {
    /// The tag.
    pub fn tag(&self) -> Tag
        ensures { result ≡ tag_of (tree self.now) }
    {
        match self {
            Node::Primitive(tag, _) | Node::Constructed(tag, _) => *tag,
        }
    }

    /// The contents, if the element is primitive and has this tag.
    pub fn octets(&self, tag: Tag) -> Option<&'a [u8]>
        ensures { option_copied result ≡ octets_of tag (tree self.now) }
    {
        match self {
            Node::Primitive(own, octets) if *own == tag => Some(octets),
            _ => None,
        }
    }

    /// The one octet of the contents, if the element is primitive and has this tag and no other octet.
    pub fn octet(&self, tag: Tag) -> Option<u8>
        ensures { result ≡ octet_of tag (tree self.now) }
    {
        match self.octets(tag)? {
            [octet] => Some(*octet),
            _ => None,
        }
    }

    /// The children, if the element is constructed and has this tag.
    pub fn children(&self, tag: Tag) -> Option<Nodes<'a>>
        ensures { option_map elements result ≡ children_of tag (tree self.now) }
    {
        match self {
            Node::Constructed(own, nodes) if *own == tag => Some(*nodes),
            _ => None,
        }
    }

    /// The one child, if the element is constructed and has this tag and no other child.
    pub fn only_child(&self, tag: Tag) -> Option<Node<'a>>
        ensures { option_map tree result ≡ only_child tag (tree self.now) }
    {
        at_most_one(self.children(tag)?)?
    }

    /// All children, whatever the tag; a primitive element has none.
    pub fn nodes(&self) -> Nodes<'a>
        ensures { elements result ≡ children (tree self.now) }
    {
        match self {
            Node::Primitive(_, _) => Nodes::none(),
            Node::Constructed(_, nodes) => *nodes,
        }
    }
}
