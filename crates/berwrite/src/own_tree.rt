//! A tree that is sent, in an arena.
ghost use Rattle.std.specs.Prelude.{◌≡◌, [], ◌∷◌, IfOk};
ghost use Rattle.x690.specs.Reading.{tag_of};
ghost use Rattle.x690.specs.Tree.{Primitive, element};
ghost use Rattle.berwrite.specs.OwnTrees.{own, owns};

use crate::memory::Memory;
use bumpalo::Bump;
use x690::Tag;

/// An element that is to be sent: its tag with its contents, or with its children. Both are in the arena of the message, or
/// are constants. Nothing in it needs to be dropped, and a copy of it is the same element.
///
/// Limitation: writing recurses over the levels, whose number is not limited.
#[derive(Clone, Copy)]
pub enum OwnTree<'a> {
    Primitive(Tag, &'a [u8]),
    Constructed(Tag, &'a [OwnTree<'a>]),
}

#[tactic(auto, using(crate::proofs::Own::own_views))]
impl<'a> OwnTree<'a> {
    /// A primitive element with these contents, which are not copied.
    pub fn of_octets(tag: Tag, octets: &'a [u8]) -> OwnTree<'a>
        ensures { own result ≡ Primitive tag octets.now }
    {
        OwnTree::Primitive(tag, octets)
    }

    /// A constructed element with these children, which are not copied.
    pub fn of_children(tag: Tag, children: &'a [OwnTree<'a>]) -> OwnTree<'a>
        ensures { own result ≡ element tag (owns children.now) }
    {
        OwnTree::Constructed(tag, children)
    }

    /// A primitive element with a copy of these contents.
    pub fn primitive(bump: &'a Bump, tag: Tag, octets: &[u8]) -> Result<OwnTree<'a>, Memory>
        ensures { IfOk result (λ tree. own tree ≡ Primitive tag octets.now) }
    {
        Ok(OwnTree::of_octets(tag, bump.try_alloc_slice_copy(octets)?))
    }

    /// A constructed element with a copy of these children.
    pub fn constructed(
        bump: &'a Bump,
        tag: Tag,
        children: &[OwnTree<'a>],
    ) -> Result<OwnTree<'a>, Memory>
        ensures { IfOk result (λ tree. own tree ≡ element tag (owns children.now)) }
    {
        Ok(OwnTree::of_children(tag, bump.try_alloc_slice_copy(children)?))
    }

    /// A constructed element with this one child.
    pub fn around(bump: &'a Bump, tag: Tag, child: OwnTree<'a>) -> Result<OwnTree<'a>, Memory>
        ensures { IfOk result (λ tree. own tree ≡ element tag (own child.entry ∷ [])) }
    {
        OwnTree::constructed(bump, tag, &[child])
    }

    /// The tag.
    pub fn tag(&self) -> Tag
        ensures { result ≡ tag_of (own self.now) }
    {
        match self {
            OwnTree::Primitive(tag, _) | OwnTree::Constructed(tag, _) => *tag,
        }
    }
}
