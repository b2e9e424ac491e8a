//! A buffer for one message, which is written from its end, so that each length is known when it is written.

ghost use Rattle.std.specs.Prelude.{◌≡◌, ◌+◌, ◌*◌, ◌≤◌, ◌<◌, [], ◌∷◌, ◌++◌, List, length, OnOk};
ghost use Rattle.x690.specs.Identifier.{leading, identifier};
ghost use Rattle.x690.specs.Length.{length_octets};
ghost use Rattle.x690.specs.Spelling.{enc};
ghost use Rattle.x690.specs.Tree.{Tree, Primitive, element};
ghost use Rattle.outgoing.specs.Spelled.{spelled};

use std::marker::Model;
use x690::{Class, Tag};

/// What was to be written does not fit.
#[derive(Clone, Copy)]
pub(crate) struct NoRoom;

/// The octets that were written, at the end of those that a caller lends. What is written next comes before them.
#[derive(Drop)]
pub(crate) struct Buffer<'a> {
    octets: &'a mut [u8],
    start: usize,
}

impl<'a> Model for Buffer<'a> {
    ghost use Rattle.std.specs.Prelude.{List, ℕ, drop, length, ◌≤◌};

    ghost Value = { List ℕ };

    ghost view = { λ r. drop r.start r.octets.now };

    ghost invariant = { λ r. r.start ≤ length r.octets.now };
}

/// The leading octet of an identifier: class, form and a tag number up to 30 (X.690, 8.1.2.3).
#[inline(always)]
fn leading_octet(tag: Tag) -> u8
    requires { tag.number < 31 }
    ensures { result ≡ leading tag tag.number }
{
    let class = match tag.class {
        Class::Universal => 0x00,
        Class::Application => 0x40,
        Class::ContextSpecific => 0x80,
        Class::Private => 0xc0,
    };
    class + (if tag.constructed { 0x20 } else { 0x00 }) + tag.number as u8
}

impl<'a> Buffer<'a> {
    /// A buffer of these octets, in which nothing is written.
    #[inline(always)]
    pub(crate) fn new(octets: &'a mut [u8]) -> Buffer<'a>
        ensures { result ≡ [] }
    {
        let start = octets.len();
        Buffer { octets, start }
    }

    /// What is written.
    #[inline(always)]
    pub(crate) fn as_slice(&self) -> &[u8]
        ensures { result.now ≡ self.now }
    {
        &self.octets[self.start..]
    }

    /// The number of octets that are written.
    #[inline(always)]
    pub(crate) fn len(&self) -> usize
        ensures { result ≡ length self.now }
    {
        self.octets.len() - self.start
    }

    /// Writes octets.
    #[inline(always)]
    fn put(&mut self, octets: &[u8]) -> Result<(), NoRoom>
        ensures { OnOk result (self.new ≡ octets.now ++ self.old) }
    {
        let end = self.start;
        if octets.len() > end {
            return Err(NoRoom);
        }
        let start = end - octets.len();
        self.octets[start..end].copy_from_slice(octets);
        self.start = start;
        Ok(())
    }

    /// Writes a leading octet, and the length of contents of this size, which is not below 128, in the fewest octets (8.1.3.5).
    #[inline(never)]
    #[tactic(auto, using(std::proofs::lemmas::Bool::Decides::nat_tests), unfolding(x690::specs::Length::length_octets))]
    fn put_long_head(&mut self, leading: u8, size: usize) -> Result<(), NoRoom>
        requires { 128 ≤ size }
        ensures { OnOk result (self.new ≡ leading ∷ (length_octets size ++ self.old)) }
    {
        let [.., a, b, c, d] = (size as u64).to_be_bytes();
        match size {
            0..0x100 => self.put(&[leading, 0x81, d]),
            0x100..0x1_0000 => self.put(&[leading, 0x82, c, d]),
            0x1_0000..0x100_0000 => self.put(&[leading, 0x83, b, c, d]),
            0x100_0000.. => self.put(&[leading, 0x84, a, b, c, d]),
        }
    }

    /// Writes an identifier, and the length of contents of this size in the fewest octets (X.690, 8.1.3.4 and 8.1.3.5).
    #[inline(always)]
    #[tactic(auto, using(std::proofs::lemmas::Bool::Decides::nat_tests), unfolding(x690::specs::Length::length_octets, x690::specs::Identifier::identifier))]
    fn put_head(&mut self, tag: Tag, size: usize) -> Result<(), NoRoom>
        requires { tag.number < 31 }
        ensures { OnOk result (self.new ≡ identifier tag ++ (length_octets size ++ self.old)) }
    {
        let leading = leading_octet(tag);
        if size < 0x80 {
            self.put(&[leading, size as u8])
        } else {
            self.put_long_head(leading, size)
        }
    }

    /// Writes a primitive element.
    #[inline(always)]
    pub(crate) fn put_primitive(&mut self, tag: Tag, octets: &[u8]) -> Result<(), NoRoom>
        requires { tag.number < 31 }
        ensures { (behind : List Tree) → self.old ≡ spelled behind
            → OnOk result (self.new ≡ spelled (Primitive tag octets.now ∷ behind)) }
    {
        self.put(octets)?;
        self.put_head(tag, octets.len())
    }

    /// Makes the elements that are written, but for the last octets, which are kept as they are, the contents of one.
    #[inline(always)]
    pub(crate) fn wrap(&mut self, tag: Tag, kept: usize) -> Result<(), NoRoom>
        requires { tag.number < 31 }
        ensures { (contents behind : List Tree) → self.old ≡ spelled (contents ++ behind)
            → kept ≡ length (spelled behind)
            → OnOk result (self.new ≡ spelled (element tag contents ∷ behind)) }
    {
        let size = self.len().saturating_sub(kept);
        self.put_head(tag, size)
    }

    /// Makes all elements that are written the contents of one.
    #[inline(always)]
    pub(crate) fn wrap_all(&mut self, tag: Tag) -> Result<(), NoRoom>
        requires { tag.number < 31 }
        ensures { (contents : List Tree) → self.old ≡ spelled contents
            → OnOk result (self.new ≡ enc (element tag contents)) }
    {
        self.wrap(tag, 0)
    }
}
