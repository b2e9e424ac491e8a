//! The Abort that refuses a dialogue.

ghost use Rattle.std.specs.Prelude.{◌≡◌, IfOk, option_map};
ghost use Rattle.machine.specs.Sent.{SentAbort};
ghost use Rattle.frames.specs.SentTrees.{refusing, reason_tree, tree_of};
ghost use Rattle.berwrite.specs.OwnTrees.{own};
ghost use Rattle.q773_msg.specs.Sent.{message_tree};
ghost use Rattle.mapdlg.specs.Seen.{why};

use crate::why::Why;
use berwrite::{Memory, OwnTree};
use bumpalo::Bump;
use frames::numbers::{CONTEXT_NAME_NOT_SUPPORTED, REJECT_PERMANENT};
use hlr_types::RemoteId;
use q773_dlg::{Diagnostic, aare, portion};
use q773_msg::{OutMessage, abort_cause};

/// The Abort to this transaction id for this reason.
pub fn refuse<'a>(
    bump: &'a Bump,
    destination: &RemoteId,
    reason: &'a Why,
) -> Result<OutMessage<'a>, Memory>
    ensures { IfOk result (λ message. message_tree message
        ≡ tree_of (SentAbort destination.now (why reason.now))) }
{
    let reason = reason_tree(bump, reason)?;
    OutMessage::abort(bump, *destination, reason)
}

/// What the Abort carries, if anything.
fn reason_tree<'a>(bump: &'a Bump, reason: &'a Why) -> Result<Option<OwnTree<'a>>, Memory>
    ensures { IfOk result (λ tree. option_map own tree ≡ reason_tree (why reason.now)) }
{
    match reason {
        Why::NoCause => Ok(None),
        Why::Cause(cause) => Ok(Some(abort_cause(bump, *cause)?)),
        Why::Refusing(name) => Ok(Some(refusing(bump, name.as_slice())?)),
    }
}

/// The dialogue portion that refuses the context of this name: reject-permanent, application-context-name-not-supported.
fn refusing<'a>(bump: &'a Bump, name: &'a [u8]) -> Result<OwnTree<'a>, Memory>
    ensures { IfOk result (λ tree. own tree ≡ refusing name.now) }
{
    let why = Diagnostic::OfUser(CONTEXT_NAME_NOT_SUPPORTED);
    portion(bump, aare(bump, name, REJECT_PERMANENT, why)?)
}
