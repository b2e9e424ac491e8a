//! The verdict on a tree (Q.773; profile).

ghost use Rattle.std.specs.Prelude.{◌≡◌, IfOk, option_map};
ghost use Rattle.bertree.specs.Nodes.{tree};
ghost use Rattle.frames.specs.Messages as frames;
ghost use Rattle.frames.specs.Verdicts.{request_in, response_in, portion_of, read_in, checked, verdict_on, verdict_of};
ghost use Rattle.q773_msg.specs.Seen.{portions, unread as unread_of};
ghost use Rattle.msgarena.specs.Seen.{response, seen};

use crate::components::all_heard;
use crate::message::{ReadMessage, Response, Verdict};
use bertree::Node;
use frames::numbers::INCORRECT_TRANSACTION_PORTION;
use hlr_types::{RemoteId, ShortList};
use machine::numbers::RESOURCE_LIMITATION;
use mapctx::ContextName;
use q773_comp::CompFault;
use q773_dlg::{Apdu, read_dialogue};
use q773_msg::{Portions, Unread, read_message};
use std::alloc::{AllocError, Global};

/// The context that the AARQ of a dialogue portion requests, if there is a portion; nothing if it is unreadable or holds
/// another APDU.
fn requested(dialogue: Option<Node>) -> Option<Option<ContextName>>
    ensures { result ≡ portion_of request_in (option_map tree dialogue.entry) }
{
    let Some(node) = dialogue else {
        return Some(None);
    };
    match read_dialogue(&node) {
        Ok(Apdu::Aarq(name)) => Some(Some(ShortList::from_slice(name))),
        _ => None,
    }
}

/// The AARE of a dialogue portion, if there is a portion; nothing if it is unreadable or holds another APDU.
fn responded(dialogue: Option<Node>) -> Option<Option<Response>>
    ensures { option_map (option_map response) result
        ≡ portion_of response_in (option_map tree dialogue.entry) }
{
    let Some(node) = dialogue else {
        return Some(None);
    };
    match read_dialogue(&node) {
        Ok(Apdu::Aare(read)) => Some(Some(Response {
            context: ShortList::from_slice(read.context),
            result: read.result,
            diagnostic: read.diagnostic,
        })),
        _ => None,
    }
}

/// The verdict on a Begin: refused if its dialogue portion is unreadable, then if it has too many components.
fn read_begin(alloc: Global, origin: RemoteId, parts: Portions) -> Result<Verdict, AllocError>
    ensures { IfOk result (λ found. let m = frames.Begin origin (portions parts.entry) in
        seen found ≡ checked m (read_in m)) }
{
    let Some(context) = requested(parts.dialogue) else {
        return Ok(Verdict::Refuse(origin, INCORRECT_TRANSACTION_PORTION));
    };
    match all_heard(alloc, parts.components) {
        Ok(components) => Ok(Verdict::Read(ReadMessage::Begin {
            origin,
            context,
            components,
        })),
        Err(CompFault::TooMany) => Ok(Verdict::Refuse(origin, RESOURCE_LIMITATION)),
        Err(CompFault::Memory) => Err(AllocError),
    }
}

/// The verdict on a Continue: refused as a Begin is.
fn read_continue(
    alloc: Global,
    origin: RemoteId,
    destination: RemoteId,
    parts: Portions,
) -> Result<Verdict, AllocError>
    ensures { IfOk result (λ found. let m = frames.Continue origin destination
        (portions parts.entry) in
        seen found ≡ checked m (read_in m)) }
{
    let Some(response) = responded(parts.dialogue) else {
        return Ok(Verdict::Refuse(origin, INCORRECT_TRANSACTION_PORTION));
    };
    match all_heard(alloc, parts.components) {
        Ok(components) => Ok(Verdict::Read(ReadMessage::Continue {
            origin,
            destination,
            response,
            components,
        })),
        Err(CompFault::TooMany) => Ok(Verdict::Refuse(origin, RESOURCE_LIMITATION)),
        Err(CompFault::Memory) => Err(AllocError),
    }
}

/// The verdict on an End: discarded if a Begin would be refused.
fn read_end(alloc: Global, destination: RemoteId, parts: Portions) -> Result<Verdict, AllocError>
    ensures { IfOk result (λ found. let m = frames.End destination (portions parts.entry) in
        seen found ≡ checked m (read_in m)) }
{
    let Some(response) = responded(parts.dialogue) else {
        return Ok(Verdict::Discard);
    };
    match all_heard(alloc, parts.components) {
        Ok(components) => Ok(Verdict::Read(ReadMessage::End {
            destination,
            response,
            components,
        })),
        Err(CompFault::TooMany) => Ok(Verdict::Discard),
        Err(CompFault::Memory) => Err(AllocError),
    }
}

/// The verdict on a tree that is no message.
fn refused(unread: Unread) -> Verdict
    ensures { seen result ≡ verdict_on (unread_of unread) }
{
    match unread {
        Unread::Discard => Verdict::Discard,
        Unread::Abort(origin, cause) => Verdict::Refuse(origin, cause),
    }
}

/// The verdict on a tree.
#[tactic(auto, unfolding(frames::specs::Verdicts::verdict_of))]
pub(crate) fn verdict_of(alloc: Global, node: &Node) -> Result<Verdict, AllocError>
    ensures { IfOk result (λ found. seen found ≡ verdict_of (tree node.now)) }
{
    let message = match read_message(node) {
        Ok(message) => message,
        Err(unread) => return Ok(refused(unread)),
    };
    match message {
        q773_msg::Message::Begin { origin, portions } => read_begin(alloc, origin, portions),
        q773_msg::Message::Continue {
            origin,
            destination,
            portions,
        } => read_continue(alloc, origin, destination, portions),
        q773_msg::Message::End {
            destination,
            portions,
        } => read_end(alloc, destination, portions),
        q773_msg::Message::Abort { destination } => {
            Ok(Verdict::Read(ReadMessage::Abort { destination }))
        }
    }
}
