//! Messages that are sent, and their octets (Q.773, transaction portion).

ghost use Rattle.std.specs.Prelude.{◌≡◌, IfOk, option_map};
ghost use Rattle.x690.specs.Spelling.{enc};
ghost use Rattle.berwrite.specs.OwnTrees.{own, owns};
ghost use Rattle.frames.specs.SentTrees.{begin_tree, continue_tree, end_tree, abort_tree, cause_tree};
ghost use Rattle.q773_msg.specs.Sent.{message_tree};

use crate::portions::{push_portions, push_some};
use berwrite::{Memory, OwnTree, write_tree, write_tree_in};
use bumpalo::Bump;
use bumpalo::collections::into_bump_slice;
use frames::tags::{ABORT, ABORT_CAUSE, BEGIN, CONTINUE, DESTINATION, END, ORIGIN};
use hlr_types::{RemoteId, Tid};
use std::alloc::Global;

/// A message that is sent. Contracts see it as its tree, `message_tree`.
///
/// Its dialogue portion is given whole, `6B` and what it holds, and its components one by one, in order. All are in the
/// arena of the message.
#[derive(Clone, Copy)]
pub struct OutMessage<'a> {
    tree: OwnTree<'a>,
}

impl<'a> OutMessage<'a> {
    /// A Begin: `62`, and in it the originating id `48` and the portions.
    pub fn begin(
        bump: &'a Bump,
        origin: Tid,
        dialogue: Option<OwnTree<'a>>,
        components: &'a [OwnTree<'a>],
    ) -> Result<OutMessage<'a>, Memory>
        ensures { IfOk result (λ message. message_tree message
            ≡ begin_tree origin (option_map own dialogue.entry) (owns components.now)) }
    {
        let mut elements = Vec::with_capacity(bump, 3)?;
        elements.push(OwnTree::primitive(bump, ORIGIN, origin.as_slice())?)?;
        push_portions(&mut elements, dialogue, components)?;
        let tree = OwnTree::of_children(BEGIN, into_bump_slice(elements));
        Ok(OutMessage { tree })
    }

    /// A Continue: `65`, and in it the originating id `48`, the destination id `49` and the portions.
    pub fn continue_(
        bump: &'a Bump,
        origin: Tid,
        destination: RemoteId,
        dialogue: Option<OwnTree<'a>>,
        components: &'a [OwnTree<'a>],
    ) -> Result<OutMessage<'a>, Memory>
        ensures { IfOk result (λ message. message_tree message
            ≡ continue_tree origin destination (option_map own dialogue.entry)
            (owns components.now)) }
    {
        let mut elements = Vec::with_capacity(bump, 4)?;
        elements.push(OwnTree::primitive(bump, ORIGIN, origin.as_slice())?)?;
        elements.push(OwnTree::primitive(bump, DESTINATION, destination.as_slice())?)?;
        push_portions(&mut elements, dialogue, components)?;
        let tree = OwnTree::of_children(CONTINUE, into_bump_slice(elements));
        Ok(OutMessage { tree })
    }

    /// An End: `64`, and in it the destination id `49` and the portions.
    pub fn end(
        bump: &'a Bump,
        destination: RemoteId,
        dialogue: Option<OwnTree<'a>>,
        components: &'a [OwnTree<'a>],
    ) -> Result<OutMessage<'a>, Memory>
        ensures { IfOk result (λ message. message_tree message
            ≡ end_tree destination (option_map own dialogue.entry) (owns components.now)) }
    {
        let mut elements = Vec::with_capacity(bump, 3)?;
        elements.push(OwnTree::primitive(bump, DESTINATION, destination.as_slice())?)?;
        push_portions(&mut elements, dialogue, components)?;
        let tree = OwnTree::of_children(END, into_bump_slice(elements));
        Ok(OutMessage { tree })
    }

    /// An Abort: `67`, and in it the destination id `49` and the reason, if any: a P-Abort cause or a dialogue portion.
    pub fn abort(
        bump: &'a Bump,
        destination: RemoteId,
        reason: Option<OwnTree<'a>>,
    ) -> Result<OutMessage<'a>, Memory>
        ensures { IfOk result (λ message. message_tree message
            ≡ abort_tree destination (option_map own reason.entry)) }
    {
        let mut elements = Vec::with_capacity(bump, 2)?;
        elements.push(OwnTree::primitive(bump, DESTINATION, destination.as_slice())?)?;
        push_some(&mut elements, reason)?;
        let tree = OwnTree::of_children(ABORT, into_bump_slice(elements));
        Ok(OutMessage { tree })
    }
}

/// A P-Abort cause: `4A 01` and the cause.
pub fn abort_cause<'a>(bump: &'a Bump, cause: u8) -> Result<OwnTree<'a>, Memory>
    ensures { IfOk result (λ tree. own tree ≡ cause_tree cause) }
{
    OwnTree::primitive(bump, ABORT_CAUSE, &[cause])
}

/// The octets that are sent for a message: definite lengths, in the fewest octets. There is no precondition.
pub fn write_message(alloc: Global, message: &OutMessage) -> Result<Vec<u8>, Memory>
    ensures { IfOk result (λ octets. octets.items ≡ enc (message_tree message.now)) }
{
    write_tree(alloc, &message.tree)
}

/// The same, for a caller with an arena: they are written there before they are copied, which takes one allocation less.
pub fn write_message_in(alloc: Global, bump: &Bump, message: &OutMessage) -> Result<Vec<u8>, Memory>
    ensures { IfOk result (λ octets. octets.items ≡ enc (message_tree message.now)) }
{
    write_tree_in(alloc, bump, &message.tree)
}
