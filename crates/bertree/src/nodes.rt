//! Elements in a row, with all that is in them, as one list in an arena.
ghost use Rattle.std.specs.Prelude.{◌≡◌, ◌∷◌, [], length, IfSome, IfNone};
ghost use Rattle.bertree.specs.Nodes.{tree, elements, listed};

use crate::node::Node;
use x690::Tag;

/// An element in a list: a primitive one with its contents, or a constructed one with how many entries after it are of what is
/// in it. So the entries of an element stand together, and after them those of the elements that follow.
#[derive(Clone, Copy)]
pub(crate) enum Entry<'a> {
    Primitive(Tag, &'a [u8]),
    Constructed(Tag, usize),
}

#[tactic(auto, using(crate::proofs::Trees::list_views))]
impl<'a> Entry<'a> {
    /// The element that it begins, if these entries stand after it, and the elements after that.
    #[inline(always)]
    fn before(&self, behind: &'a [Entry<'a>]) -> (Node<'a>, Nodes<'a>)
        ensures { listed (self.now ∷ behind.now) ≡ tree result.0 ∷ elements result.1 }
    {
        match self {
            Entry::Primitive(tag, octets) => (Node::Primitive(*tag, octets), Nodes::new(behind)),
            Entry::Constructed(tag, inside) => {
                let (inside, behind) = behind.split_at((*inside).min(behind.len()));
                (
                    Node::Constructed(*tag, Nodes::new(inside)),
                    Nodes::new(behind),
                )
            }
        }
    }
}

/// Elements in a row, as they stand in a constructed element. They are read from the first on.
#[derive(Clone, Copy)]
pub struct Nodes<'a> {
    entries: &'a [Entry<'a>],
}

#[tactic(auto, using(crate::proofs::Trees::list_views))]
impl<'a> Nodes<'a> {
    /// The elements that these entries list.
    pub(crate) fn new(entries: &'a [Entry<'a>]) -> Nodes<'a>
        ensures { elements result ≡ listed entries.now }
    {
        Nodes { entries }
    }

    /// No elements.
    pub fn none() -> Nodes<'a>
        ensures { elements result ≡ [] }
    {
        Nodes::new(&[])
    }

    /// The first element, and those after it.
    #[inline(always)]
    pub fn split_first(self) -> Option<(Node<'a>, Nodes<'a>)>
        ensures some { IfSome result (λ r. elements self.entry ≡ tree r.0 ∷ elements r.1) }
        ensures none { IfNone result (elements self.entry ≡ []) }
    {
        let Some((first, behind)) = self.entries.split_first() else {
            return None;
        };
        Some(first.before(behind))
    }

    /// How many there are.
    pub fn count(self) -> usize
        ensures { result ≡ length (elements self.entry) }
    {
        let mut count = 0;
        let mut rest = self;
        while let Some((_first, behind)) = rest.split_first() {
            count += 1;
            rest = behind;
        }
        count
    }
}
