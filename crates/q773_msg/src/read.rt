//! The message that an element is (Q.773, transaction portion).

ghost use Rattle.std.specs.Prelude.{◌≡◌, Result, IfOk, IfErr, option_map};
ghost use Rattle.bertree.specs.Nodes.{tree, elements};
ghost use Rattle.x690.specs.Elements.{first};
ghost use Rattle.frames.specs.Messages as frames;
ghost use Rattle.frames.specs.Messages.{TcMessage, transaction_id_under, portions_of, begin_of, continue_of, end_of, may_end_abort, abort_of, message_of};
ghost use Rattle.frames.specs.MessageForms.{IsMessage};
ghost use Rattle.frames.specs.Points.{message_points, IsSaidFirst, IsMessageOrNot};
ghost use Rattle.q773_msg.specs.Seen.{portions, message, unread, answer};

use crate::message::{Message, Portions, Unread};
use bertree::elements::{at_most_one, no_more, optional_children, optional_node};
use bertree::{Node, Nodes, Tag};
use frames::numbers::{
    BADLY_FORMATTED_TRANSACTION_PORTION, INCORRECT_TRANSACTION_PORTION, UNRECOGNIZED_MESSAGE_TYPE,
};
use frames::tags::{
    ABORT, ABORT_CAUSE, BEGIN, COMPONENT_PORTION, CONTINUE, DESTINATION, DIALOGUE_PORTION, END,
    ORIGIN, UNIDIRECTIONAL,
};
use hlr_types::RemoteId;

/// The transaction id of 1 to 4 octets that the first element is, if it has this tag, and the elements after it.
fn transaction_id<'a>(nodes: Nodes<'a>, tag: Tag) -> Option<(RemoteId, Nodes<'a>)>
    ensures { option_map (λ found. (found.0, elements found.1)) result
        ≡ first (transaction_id_under tag) (elements nodes.entry) }
{
    let (node, rest) = nodes.split_first()?;
    Some((RemoteId::read(node.octets(tag)?)?, rest))
}

/// An optional dialogue portion `6B`, an optional component portion `6C`, and no more.
fn read_portions<'a>(nodes: Nodes<'a>) -> Option<Portions<'a>>
    ensures { option_map portions result ≡ portions_of (elements nodes.entry) }
{
    let (dialogue, nodes) = optional_node(nodes, DIALOGUE_PORTION);
    let (components, nodes) = optional_children(nodes, COMPONENT_PORTION);
    let components = components.unwrap_or(Nodes::none());
    no_more(nodes)?;
    Some(Portions {
        dialogue,
        components,
    })
}

/// The Begin with these elements.
#[tactic(auto, unfolding(frames::specs::Messages::begin_of))]
fn read_begin<'a>(nodes: Nodes<'a>) -> Result<Message<'a>, Unread>
    ensures { answer result ≡ begin_of (elements nodes.entry) }
{
    let Some((origin, nodes)) = transaction_id(nodes, ORIGIN) else {
        return Err(Unread::Discard);
    };
    let portions = read_portions(nodes).ok_or(Unread::Abort(
        origin,
        INCORRECT_TRANSACTION_PORTION,
    ))?;
    Ok(Message::Begin { origin, portions })
}

/// The Continue with these elements.
#[tactic(auto, unfolding(frames::specs::Messages::continue_of))]
fn read_continue<'a>(nodes: Nodes<'a>) -> Result<Message<'a>, Unread>
    ensures { answer result ≡ continue_of (elements nodes.entry) }
{
    let Some((origin, nodes)) = transaction_id(nodes, ORIGIN) else {
        return Err(Unread::Discard);
    };
    let Some((destination, nodes)) = transaction_id(nodes, DESTINATION) else {
        return Err(Unread::Abort(origin, BADLY_FORMATTED_TRANSACTION_PORTION));
    };
    let portions = read_portions(nodes).ok_or(Unread::Abort(
        origin,
        INCORRECT_TRANSACTION_PORTION,
    ))?;
    Ok(Message::Continue {
        origin,
        destination,
        portions,
    })
}

/// The End with these elements.
#[tactic(auto, unfolding(frames::specs::Messages::end_of))]
fn read_end<'a>(nodes: Nodes<'a>) -> Result<Message<'a>, Unread>
    ensures { answer result ≡ end_of (elements nodes.entry) }
{
    let Some((destination, nodes)) = transaction_id(nodes, DESTINATION) else {
        return Err(Unread::Discard);
    };
    let portions = read_portions(nodes).ok_or(Unread::Discard)?;
    Ok(Message::End {
        destination,
        portions,
    })
}

/// Whether an Abort may end with these: nothing, a P-Abort cause `4A`, or a dialogue portion `6B`, whatever they hold.
fn may_end_abort(nodes: Nodes) -> bool
    ensures { result ≡ may_end_abort (elements nodes.entry) }
{
    match at_most_one(nodes) {
        None => false,
        Some(None) => true,
        Some(Some(node)) => node.tag() == ABORT_CAUSE || node.tag() == DIALOGUE_PORTION,
    }
}

/// The Abort with these elements.
#[tactic(auto, unfolding(frames::specs::Messages::abort_of))]
fn read_abort<'a>(nodes: Nodes<'a>) -> Result<Message<'a>, Unread>
    ensures { answer result ≡ abort_of (elements nodes.entry) }
{
    let Some((destination, nodes)) = transaction_id(nodes, DESTINATION) else {
        return Err(Unread::Discard);
    };
    if may_end_abort(nodes) {
        Ok(Message::Abort { destination })
    } else {
        Err(Unread::Discard)
    }
}

/// The message by its tag: Begin `62`, End `64`, Continue `65`, Abort `67`. A Unidirectional `61` is discarded, and
/// another message is answered if an originating id comes first (profile).
#[tactic(auto, unfolding(frames::specs::Messages::message_of))]
fn by_tag<'a>(node: &Node<'a>) -> Result<Message<'a>, Unread>
    ensures { answer result ≡ message_of (tree node.now) }
{
    if let Some(nodes) = node.children(BEGIN) {
        return read_begin(nodes);
    }
    if let Some(nodes) = node.children(CONTINUE) {
        return read_continue(nodes);
    }
    if let Some(nodes) = node.children(END) {
        return read_end(nodes);
    }
    if let Some(nodes) = node.children(ABORT) {
        return read_abort(nodes);
    }
    if node.children(UNIDIRECTIONAL).is_some() {
        return Err(Unread::Discard);
    }
    match transaction_id(node.nodes(), ORIGIN) {
        Some((origin, _)) => Err(Unread::Abort(origin, UNRECOGNIZED_MESSAGE_TYPE)),
        None => Err(Unread::Discard),
    }
}

/// The message that an element is, its portions unread; otherwise what becomes of the frame. It does not allocate.
///
/// Limitation: whether the dialogue portion can be read, and how many components there are, is not checked.
pub fn read_message<'a>(node: &Node<'a>) -> Result<Message<'a>, Unread>
    // What is read has its message's form; for anything else the result is what the first point that applies says.
    ensures found { IfOk result (λ m. IsMessage (tree node.now) (message m)) }
    ensures refused { IfErr result (λ u. IsSaidFirst message_points (tree node.now) (unread u)) }

    // Whatever has a message's form is read as it, and what the first point that applies says is the result.
    ensures only { (r : Result TcMessage frames.Unread) → IsMessageOrNot (tree node.now) r
        → answer result ≡ r }

    // The result is a function of the tree.
    ensures exact { answer result ≡ message_of (tree node.now) }
{
    by_tag(node)
}
