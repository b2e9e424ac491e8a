//! Worked examples of the encoding rules.

ghost use Rattle.x690.specs.Examples.{Identifiers, Lengths, SpellingsOfOneTree, TagsOfElements};

/// Identifier octets of each class, and of long numbers of one to four octets.
pub fn identifiers()
    ensures { Identifiers }
{}

/// A tag's number has at most four octets, and no element has the tag of the end-of-contents octets.
pub fn tags_of_elements()
    ensures { TagsOfElements }
{}

/// Length octets: the fewest, longer ones that are accepted, and ones that are not.
pub fn lengths()
    ensures { Lengths }
{}

/// One tree in three spellings, and the one that is sent.
pub fn spellings_of_one_tree()
    ensures { SpellingsOfOneTree }
{}
