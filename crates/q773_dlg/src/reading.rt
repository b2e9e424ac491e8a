//! The dialogue APDU that a node holds (Q.773, dialogue portion).
ghost use Rattle.std.specs.Prelude.{◌≡◌, ◌∷◌, [], Some, IfOk, option_map};
ghost use Rattle.x690.specs.Elements.{first, optional};
ghost use Rattle.x690.specs.Reading.{octets_of};
ghost use Rattle.machine.specs.Received as received;
ghost use Rattle.frames.specs.Dialogues.{is_version, after_version, context_of, result_of, diagnostic_of, may_end_apdu, request_of, response_of, dialogue_abort_of, apdu_of, in_external, dialogue_of};
ghost use Rattle.frames.specs.DialogueForms.{IsDialogue};
ghost use Rattle.bertree.specs.Nodes.{tree, elements};
ghost use Rattle.q773_dlg.specs.Seen.{diagnostic, seen, answer};

use crate::apdu::{Apdu, Diagnostic, Response, Unreadable};
use bertree::elements::{at_most_one, no_more, optional_octets};
use bertree::{Node, Nodes};
use frames::numbers::DIALOGUE_AS_ID;
use frames::tags::{
    AARE, AARQ, ABORT_SOURCE, ABRT, CONTEXT_NAME, DIAGNOSTIC_OF_PROVIDER, DIAGNOSTIC_OF_USER,
    DIALOGUE_PORTION, EXTERNAL, INTEGER, OBJECT_IDENTIFIER, RESULT, RESULT_SOURCE,
    SINGLE_ASN1_TYPE, USER_INFORMATION, VERSION,
};
use machine::numbers::MAX_CONTEXT_NAME;

/// Whether the contents of a BIT STRING (X.690, 8.6) are a version: at most seven bits unused, and the first bit set.
fn is_version(octets: &[u8]) -> bool
    ensures { result ≡ is_version octets.now }
{
    match octets {
        [unused, bits, ..] => *unused <= 7 && *bits >= 0x80,
        _ => false,
    }
}

/// What follows an optional version.
fn after_version<'a>(nodes: Nodes<'a>) -> Option<Nodes<'a>>
    ensures { option_map elements result
        ≡ after_version (optional (octets_of VERSION) (elements nodes.entry)) }
{
    match optional_octets(nodes, VERSION) {
        (None, rest) => Some(rest),
        (Some(version), rest) => is_version(version).then_some(rest),
    }
}

/// The name of an application context.
fn context_of<'a>(node: &Node<'a>) -> Option<&'a [u8]>
    ensures { option_map (λ name. name.now) result ≡ context_of (tree node.now) }
{
    let name = node.only_child(CONTEXT_NAME)?.octets(OBJECT_IDENTIFIER)?;
    (0 < name.len() && name.len() <= MAX_CONTEXT_NAME).then_some(name)
}

/// The name of an application context, and what follows it.
fn first_context<'a>(nodes: Nodes<'a>) -> Option<(&'a [u8], Nodes<'a>)>
    ensures { option_map (λ found. (found.0.now, elements found.1)) result
        ≡ first context_of (elements nodes.entry) }
{
    let (node, rest) = nodes.split_first()?;
    Some((context_of(&node)?, rest))
}

/// The result of a response.
fn result_of(node: &Node) -> Option<u8>
    ensures { result ≡ result_of (tree node.now) }
{
    node.only_child(RESULT)?.octet(INTEGER)
}

/// The result source diagnostic of a response.
fn diagnostic_of(node: &Node) -> Option<Diagnostic>
    ensures { option_map diagnostic result ≡ diagnostic_of (tree node.now) }
{
    let source = node.only_child(RESULT_SOURCE)?;
    if let Some(of_user) = source.only_child(DIAGNOSTIC_OF_USER)
        && let Some(octet) = of_user.octet(INTEGER)
    {
        return Some(Diagnostic::OfUser(octet));
    }
    let of_provider = source.only_child(DIAGNOSTIC_OF_PROVIDER)?;
    Some(Diagnostic::OfProvider(of_provider.octet(INTEGER)?))
}

/// Whether an APDU may end with these: nothing, or user information.
fn may_end(nodes: Nodes) -> bool
    ensures { result ≡ may_end_apdu (elements nodes.entry) }
{
    match at_most_one(nodes) {
        None => false,
        Some(None) => true,
        Some(Some(node)) => node.children(USER_INFORMATION).is_some(),
    }
}

/// The contents of an AARQ.
#[tactic(auto, unfolding(frames::specs::Dialogues::request_of))]
fn request_of<'a>(nodes: Nodes<'a>) -> Option<Apdu<'a>>
    ensures { option_map seen result ≡ request_of (elements nodes.entry) }
{
    let (context, rest) = first_context(after_version(nodes)?)?;
    may_end(rest).then_some(Apdu::Aarq(context))
}

/// The contents of an AARE.
#[tactic(auto, unfolding(frames::specs::Dialogues::response_of))]
fn response_of<'a>(nodes: Nodes<'a>) -> Option<Apdu<'a>>
    ensures { option_map seen result ≡ response_of (elements nodes.entry) }
{
    let (context, rest) = first_context(after_version(nodes)?)?;
    let (outcome, rest) = rest.split_first()?;
    let (source, rest) = rest.split_first()?;
    let result = result_of(&outcome)?;
    let diagnostic = diagnostic_of(&source)?;
    may_end(rest).then_some(Apdu::Aare(Response {
        context,
        result,
        diagnostic,
    }))
}

/// The contents of an ABRT.
#[tactic(auto, unfolding(frames::specs::Dialogues::dialogue_abort_of))]
fn abort_of<'a>(nodes: Nodes<'a>) -> Option<Apdu<'a>>
    ensures { option_map seen result ≡ dialogue_abort_of (elements nodes.entry) }
{
    let (node, rest) = nodes.split_first()?;
    let source = node.octet(ABORT_SOURCE)?;
    (source <= 1 && may_end(rest)).then_some(Apdu::Abrt(source))
}

/// An APDU.
fn apdu_of<'a>(node: &Node<'a>) -> Option<Apdu<'a>>
    ensures { option_map seen result ≡ apdu_of (tree node.now) }
{
    if let Some(nodes) = node.children(AARQ) {
        return request_of(nodes);
    }
    if let Some(nodes) = node.children(AARE) {
        return response_of(nodes);
    }
    abort_of(node.children(ABRT)?)
}

/// The APDU in the encoding of an EXTERNAL, if this is the dialogue's abstract syntax.
fn in_encoding<'a>(syntax: &Node<'a>, encoding: &Node<'a>) -> Option<Apdu<'a>>
    ensures { option_map seen result
        ≡ in_external (tree syntax.now ∷ tree encoding.now ∷ []) }
{
    let name = syntax.octets(OBJECT_IDENTIFIER)?;
    let apdu = encoding.only_child(SINGLE_ASN1_TYPE)?;
    if name == DIALOGUE_AS_ID.as_slice() {
        apdu_of(&apdu)
    } else {
        None
    }
}

/// The APDU in the contents of an EXTERNAL (X.690, 8.18) of the dialogue's abstract syntax.
fn in_external<'a>(nodes: Nodes<'a>) -> Option<Apdu<'a>>
    ensures { option_map seen result ≡ in_external (elements nodes.entry) }
{
    let (syntax, rest) = nodes.split_first()?;
    let (encoding, rest) = rest.split_first()?;
    no_more(rest)?;
    in_encoding(&syntax, &encoding)
}

/// The APDU of a dialogue portion, if it holds one.
#[tactic(auto, unfolding(frames::specs::Dialogues::dialogue_of))]
fn dialogue_of<'a>(node: &Node<'a>) -> Option<Apdu<'a>>
    ensures { option_map seen result ≡ dialogue_of (tree node.now) }
{
    in_external(node.only_child(DIALOGUE_PORTION)?.children(EXTERNAL)?)
}

/// The APDU of a dialogue portion. It does not allocate.
#[tactic(auto, using(crate::proofs::ReadLaws::read_laws))]
pub fn read_dialogue<'a>(node: &Node<'a>) -> Result<Apdu<'a>, Unreadable>
    // What is read has its form, and whatever has a form is read as it; anything else is unreadable.
    ensures found { IfOk result (λ apdu. IsDialogue (tree node.now) (seen apdu)) }
    ensures only { (apdu : received.Apdu) → IsDialogue (tree node.now) apdu
        → answer result ≡ Some apdu }
    // The result is a function of the tree.
    ensures exact { answer result ≡ dialogue_of (tree node.now) }
{
    dialogue_of(node).ok_or(Unreadable)
}
