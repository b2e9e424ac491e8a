//! The laws of frames. Each is the contract of a public function that does nothing.
#![tactic(auto)]

pub mod examples;
pub mod journals;

ghost use Rattle.frames_laws.specs.Laws.{MessagesAreRead, DialoguesAreRead, ComponentsAreRead, ParametersAreRead, ComponentsAreHeard, TreesAreJudged, TreesAreRead, VerdictsAreRead, OneMessage, OneVerdict, VerdictsAreWithinBounds, SentComponentsHaveForms, SentPortionsHaveForms, SentIsMeant, SentIsOctets, SentIsSane, SentIsShallow, SentIsShort, OctetsTell, SentIsRead};

/// With its portions unread, a tree is read as a message exactly if it has the message's form, and otherwise as what the
/// first point that applies says (Q.773).
pub fn messages_are_read()
    ensures { MessagesAreRead }
{}

/// A dialogue portion is read exactly if it has the form of one (Q.773).
pub fn dialogues_are_read()
    ensures { DialoguesAreRead }
{}

/// Each tree is read as the one component whose form it has, ill-formed ones among them (Q.773).
pub fn components_are_read()
    ensures { ComponentsAreRead }
{}

/// Each parameter is read as what it is by its form: mistyped, a bad value, or an argument (TS 29.002, 17.7).
pub fn parameters_are_read()
    ensures { ParametersAreRead }
{}

/// Each tree is heard as the one component whose form it has, its parameter read.
pub fn components_are_heard()
    ensures { ComponentsAreHeard }
{}

/// The verdict that is read of a tree is the one by the points.
pub fn trees_are_judged()
    ensures { TreesAreJudged }
{}

/// The reader of octets, which can be run on any, reads the tree that they spell (X.690, 8.1). If it reads none, they spell none.
pub fn trees_are_read()
    ensures { TreesAreRead }
{}

/// The verdict that is read of octets, whatever they are, is the one that they have.
pub fn verdicts_are_read()
    ensures { VerdictsAreRead }
{}

/// A tree is at most one message.
pub fn one_message()
    ensures { OneMessage }
{}

/// Octets, whatever they are, have exactly one verdict.
pub fn one_verdict()
    ensures { OneVerdict }
{}

/// What octets read to is within the bounds that the machine keeps.
pub fn verdicts_are_within_bounds()
    ensures { VerdictsAreWithinBounds }
{}

/// What is sent as a component has the component's form.
pub fn sent_components_have_forms()
    ensures { SentComponentsHaveForms }
{}

/// What is sent as a dialogue portion has the portion's form.
pub fn sent_portions_have_forms()
    ensures { SentPortionsHaveForms }
{}

/// The tree that is sent is the message that is meant.
pub fn sent_is_meant()
    ensures { SentIsMeant }
{}

/// What the machine sends within its bounds may be sent, so the laws of what is sent apply to it.
pub fn sent_is_sane()
    ensures { SentIsSane }
{}

/// What is sent is octets.
pub fn sent_is_octets()
    ensures { SentIsOctets }
{}

/// What is sent has no more levels than are read.
pub fn sent_is_shallow()
    ensures { SentIsShallow }
{}

/// What the machine sends within its bounds is a short frame.
pub fn sent_is_short()
    ensures { SentIsShort }
{}

/// Two different messages are never sent as the same octets.
pub fn octets_tell()
    ensures { OctetsTell }
{}

/// What is sent within the limits is read as what is meant.
pub fn sent_is_read()
    ensures { SentIsRead }
{}
