//! What precedes an element's contents: its identifier octets (X.690, 8.1.2) and length octets (8.1.3).
ghost use Rattle.std.specs.Prelude.{◌≡◌, ℕ, ◌+◌, ◌*◌, ◌/◌, ◌^◌, ◌<◌, ◌++◌, List, [], ◌∷◌, length, Bool, IfSome, IfNone};
ghost use Rattle.x690.specs.Identifier.{IsTag, class_bits, constructed_bit, number_octets, identifier};
ghost use Rattle.bertree.specs.Head.{IsLengthThen, HasNoLength, IsElement, IsHead, BeginsNoElement};
ghost use Rattle.x690.specs.declared.Tag.{Tag};

use x690::{Class, Tag};

/// Smaller numbers are in the leading octet itself (X.690, 8.1.2.4).
const LEAST_LONG_NUMBER: u32 = 31;

/// The length of an element's contents, or that `00 00` ends them.
#[derive(Clone, Copy)]
enum Length {
    Known(usize),
    Open,
}

/// What octets begin with: a primitive element, its contents and what follows it; or the beginning of a constructed one, its
/// contents, and what follows it. In the indefinite form (X.690, 8.1.3.6) the contents go on to the end of the octets.
#[derive(Clone, Copy)]
pub(crate) enum Head<'a> {
    Primitive(Tag, &'a [u8], &'a [u8]),
    Constructed(Tag, &'a [u8], Option<&'a [u8]>),
}

/// A short element: its tag is in one octet (X.690, 8.1.2.3) and its length in another (8.1.3.4).
#[derive(Clone, Copy)]
pub(crate) struct ShortElement<'a> {
    pub(crate) tag: Tag,
    pub(crate) contents: &'a [u8],
    pub(crate) after: &'a [u8],
}

/// The class in bits 8 and 7 (X.690, 8.1.2.2).
fn class_of(octet: u8) -> Class
    ensures { class_bits result ≡ octet / 64 }
{
    match octet >> 6 {
        0 => Class::Universal,
        1 => Class::Application,
        2 => Class::ContextSpecific,
        _ => Class::Private,
    }
}

/// The first octet, and the others.
pub(crate) fn next(octets: &[u8]) -> Option<(u8, &[u8])>
    ensures some { IfSome result (λ r. octets.now ≡ r.0 ∷ r.1.now) }
    ensures none { IfNone result (octets.now ≡ []) }
{
    let (first, rest) = octets.split_first()?;
    Some((*first, rest))
}

/// The tag number after a leading octet: seven bits an octet, bit 8 set in all but the last, the first of them not 80
/// (X.690, 8.1.2.4.2), and at most four octets (profile).
#[tactic(auto, using(std::proofs::lemmas::Bool::Decides::nat_tests), unfolding(x690::specs::Identifier::number_octets))]
fn read_number(octets: &[u8]) -> Option<(u32, &[u8])>
    ensures found { IfSome result (λ r. (r.0 < 2 ^ 28)
        × (octets.now ≡ number_octets r.0 ++ r.1.now)) }
    ensures none { IfNone result
        ((n : ℕ) (rest : List ℕ) → n < 2 ^ 28 → octets.now ≡ number_octets n ++ rest → ⊥) }
{
    let (a, rest) = next(octets)?;
    if a < 128 {
        return Some((u32::from(a), rest));
    }
    let number = u32::from(a) - 128;
    if number == 0 {
        return None;
    }
    let (b, rest) = next(rest)?;
    if b < 128 {
        return Some((number * 128 + u32::from(b), rest));
    }
    let number = number * 128 + u32::from(b) - 128;
    let (c, rest) = next(rest)?;
    if c < 128 {
        return Some((number * 128 + u32::from(c), rest));
    }
    let number = number * 128 + u32::from(c) - 128;
    let (d, rest) = next(rest)?;
    if d < 128 {
        return Some((number * 128 + u32::from(d), rest));
    }
    None
}

/// The parts of a leading octet: class, whether constructed, and the five low bits (X.690, 8.1.2).
fn leading_of(octet: u8) -> (Class, bool, u8)
    ensures low { result.2 < 32 }
    ensures sum { octet ≡ 64 * class_bits result.0 + 32 * constructed_bit result.1 + result.2 }
{
    (class_of(octet), octet & 0x20 != 0, octet & 0x1f)
}

/// The tag, and what follows its identifier. The octet 00 begins no element: it only ends contents (X.690, 8.1.5).
#[inline(always)]
fn read_identifier(octets: &[u8]) -> Option<(Tag, &[u8])>
    ensures found { IfSome result
        (λ r. IsTag r.0.constructed r.0 × (octets.now ≡ identifier r.0 ++ r.1.now)) }
    ensures none { IfNone result
        ((c : Bool) (tag : Tag) (rest : List ℕ) → IsTag c tag → octets.now ≡ identifier tag ++ rest
        → ⊥) }
{
    let (first, rest) = next(octets)?;
    if first == 0 {
        return None;
    }
    let (class, constructed, low) = leading_of(first);
    if low < 31 {
        let number = u32::from(low);
        return Some((
            Tag {
                class,
                constructed,
                number,
            },
            rest,
        ));
    }
    let (number, rest) = read_number(rest)?;
    if number < LEAST_LONG_NUMBER {
        return None;
    }
    Some((
        Tag {
            class,
            constructed,
            number,
        },
        rest,
    ))
}

/// The length (X.690, 8.1.3), of at most four octets after the first (profile), and what follows it.
#[inline(always)]
fn read_length(octets: &[u8]) -> Option<(Length, &[u8])>
    ensures found { IfSome result (λ r. IsLengthThen r.0 octets.now r.1.now) }
    ensures none { IfNone result (HasNoLength octets.now) }
{
    let (first, rest) = next(octets)?;
    if first < 128 {
        return Some((Length::Known(usize::from(first)), rest));
    }
    if first == 128 {
        return Some((Length::Open, rest));
    }
    if first > 132 {
        return None;
    }
    let (a, rest) = next(rest)?;
    let length = usize::from(a);
    if first == 129 {
        return Some((Length::Known(length), rest));
    }
    let (b, rest) = next(rest)?;
    let length = length * 256 + usize::from(b);
    if first == 130 {
        return Some((Length::Known(length), rest));
    }
    let (c, rest) = next(rest)?;
    let length = length * 256 + usize::from(c);
    if first == 131 {
        return Some((Length::Known(length), rest));
    }
    let (d, rest) = next(rest)?;
    Some((Length::Known(length * 256 + usize::from(d)), rest))
}

/// The element, or the head of a constructed one, that the octets begin with.
#[inline(always)]
pub(crate) fn read_head(octets: &[u8]) -> Option<Head<'_>>
    ensures found { IfSome result (λ head. IsHead head octets.now) }
    ensures none { IfNone result (BeginsNoElement octets.now) }
{
    let (tag, rest) = read_identifier(octets)?;
    let (length, rest) = read_length(rest)?;
    match length {
        Length::Known(length) => {
            if rest.len() < length {
                return None;
            }
            let (contents, rest) = rest.split_at(length);
            if tag.constructed {
                Some(Head::Constructed(tag, contents, Some(rest)))
            } else {
                Some(Head::Primitive(tag, contents, rest))
            }
        }
        Length::Open if tag.constructed => Some(Head::Constructed(tag, rest, None)),
        Length::Open => None,
    }
}

/// The short element that the octets begin with, if they do.
#[inline(always)]
pub(crate) fn read_short_element(octets: &[u8]) -> Option<ShortElement<'_>>
    ensures { IfSome result (λ element. IsTag element.tag.constructed element.tag
        × IsElement octets.now element.tag element.contents.now element.after.now) }
{
    let (first, rest) = next(octets)?;
    let (length, rest) = next(rest)?;
    let (class, constructed, low) = leading_of(first);
    let length = usize::from(length);
    if first == 0 || low == 31 || length > 127 || rest.len() < length {
        return None;
    }
    let (contents, after) = rest.split_at(length);
    let number = u32::from(low);
    let tag = Tag {
        class,
        constructed,
        number,
    };
    Some(ShortElement {
        tag,
        contents,
        after,
    })
}
