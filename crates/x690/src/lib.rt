//! The basic encoding rules of ITU-T X.690 as definitions (in `specs/`), and the laws that hold of them.
//!
//! There is no code here but the type of a tag and two limits: each law is the contract of a public function that does nothing, so that
//! the proofs of other crates may rest on it.
#![tactic(auto)]

pub mod examples;
pub mod limits;

ghost use Rattle.x690.specs.Laws.{OneTree, EncSpells, EncIsOctets, FewestLengthOctets, FewestOctets, OneReading};

/// The class of a tag (X.690, 8.1.2.2).
#[derive(Clone, Copy, PartialEq, Eq)]
pub enum Class {
    Universal,
    Application,
    ContextSpecific,
    Private,
}

/// A tag, with whether its element is constructed (X.690, 8.1.2).
///
/// Limitation: a tag that is read has a number below 2^28, since at most four octets of a long number are read.
#[derive(Clone, Copy, PartialEq, Eq)]
pub struct Tag {
    pub class: Class,
    pub constructed: bool,
    pub number: u32,
}

/// No spelling of a tree is a proper prefix of a spelling, and octets spell at most one tree (X.690, 8.1).
pub fn one_tree()
    ensures { OneTree }
{}

/// The spelling that is sent is a spelling of its tree, if it has fewer than 2^32 octets.
pub fn enc_spells()
    ensures { EncSpells }
{}

/// The spelling that is sent consists of octets, if the contents of its tree do.
pub fn enc_is_octets()
    ensures { EncIsOctets }
{}

/// The length octets that are sent are the fewest for their length (X.690, 8.1.3).
pub fn fewest_length_octets()
    ensures { FewestLengthOctets }
{}

/// No spelling with definite lengths has fewer octets than the one that is sent.
pub fn fewest_octets()
    ensures { FewestOctets }
{}

/// A reading under a tag returns an element's contents exactly if the element has that tag.
pub fn one_reading()
    ensures { OneReading }
{}
