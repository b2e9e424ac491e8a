//! An Abort in the buffer of a message (Q.773), each part before what is written already.

ghost use Rattle.std.specs.Prelude.{◌≡◌, ◌∷◌, ◌++◌, [], List, option_to_list, OnOk};
ghost use Rattle.x690.specs.Tree.{Tree};
ghost use Rattle.machine.specs.Received.{OfUser};
ghost use Rattle.machine.specs.Sent.{SentAbort};
ghost use Rattle.frames.specs.DialogueForms.{diagnostic_tree, octet_in};
ghost use Rattle.frames.specs.SentTrees.{aare_tree, context_tree, octets_of_sent, reason_tree, refusing};
ghost use Rattle.frames.specs.declared.numbers.TheConstants.{CONTEXT_NAME_NOT_SUPPORTED, REJECT_PERMANENT};
ghost use Rattle.frames.specs.declared.tags.TheConstants.{RESULT};
ghost use Rattle.mapdlg.specs.Seen.{why};
ghost use Rattle.outgoing.specs.Spelled.{spelled};

use crate::buffer::{Buffer, NoRoom};
use frames::numbers::{CONTEXT_NAME_NOT_SUPPORTED, DIALOGUE_AS_ID, REJECT_PERMANENT, VERSION_1};
use frames::tags::{
    AARE, ABORT, ABORT_CAUSE, CONTEXT_NAME, DESTINATION, DIAGNOSTIC_OF_USER, DIALOGUE_PORTION,
    EXTERNAL, INTEGER, OBJECT_IDENTIFIER, RESULT, RESULT_SOURCE, SINGLE_ASN1_TYPE, VERSION,
};
use hlr_types::RemoteId;
use mapdlg::Why;

/// The name of the context that is refused: `A1`, and in it an OBJECT IDENTIFIER.
fn put_name(buffer: &mut Buffer, name: &[u8]) -> Result<(), NoRoom>
    ensures { (behind : List Tree) → buffer.old ≡ spelled behind
        → OnOk result (buffer.new ≡ spelled (context_tree name.now ∷ behind)) }
{
    let kept = buffer.len();
    buffer.put_primitive(OBJECT_IDENTIFIER, name)?;
    buffer.wrap(CONTEXT_NAME, kept)
}

/// The result: reject-permanent.
fn put_result(buffer: &mut Buffer) -> Result<(), NoRoom>
    ensures { (behind : List Tree) → buffer.old ≡ spelled behind
        → OnOk result (buffer.new ≡ spelled (octet_in RESULT REJECT_PERMANENT ∷ behind)) }
{
    let kept = buffer.len();
    buffer.put_primitive(INTEGER, &[REJECT_PERMANENT])?;
    buffer.wrap(RESULT, kept)
}

/// The diagnostic of the user: application-context-name-not-supported.
fn put_diagnostic(buffer: &mut Buffer) -> Result<(), NoRoom>
    ensures { (behind : List Tree) → buffer.old ≡ spelled behind
        → OnOk result (buffer.new ≡ spelled
        (diagnostic_tree (OfUser CONTEXT_NAME_NOT_SUPPORTED) ∷ behind)) }
{
    let kept = buffer.len();
    buffer.put_primitive(INTEGER, &[CONTEXT_NAME_NOT_SUPPORTED])?;
    buffer.wrap(DIAGNOSTIC_OF_USER, kept)?;
    buffer.wrap(RESULT_SOURCE, kept)
}

/// The AARE of version 1 that refuses the context of this name.
fn put_refusal(buffer: &mut Buffer, name: &[u8]) -> Result<(), NoRoom>
    ensures { (behind : List Tree) → buffer.old ≡ spelled behind
        → OnOk result (buffer.new ≡ spelled (aare_tree name.now REJECT_PERMANENT
        (OfUser CONTEXT_NAME_NOT_SUPPORTED) ∷ behind)) }
{
    let kept = buffer.len();
    put_diagnostic(buffer)?;
    put_result(buffer)?;
    put_name(buffer, name)?;
    buffer.put_primitive(VERSION, &VERSION_1)?;
    buffer.wrap(AARE, kept)
}

/// The dialogue portion with it.
fn put_refusing(buffer: &mut Buffer, name: &[u8]) -> Result<(), NoRoom>
    ensures { (behind : List Tree) → buffer.old ≡ spelled behind
        → OnOk result (buffer.new ≡ spelled (refusing name.now ∷ behind)) }
{
    let kept = buffer.len();
    put_refusal(buffer, name)?;
    buffer.wrap(SINGLE_ASN1_TYPE, kept)?;
    buffer.put_primitive(OBJECT_IDENTIFIER, &DIALOGUE_AS_ID)?;
    buffer.wrap(EXTERNAL, kept)?;
    buffer.wrap(DIALOGUE_PORTION, kept)
}

/// What the Abort carries, if anything.
fn put_reason(buffer: &mut Buffer, reason: &Why) -> Result<(), NoRoom>
    ensures { (behind : List Tree) → buffer.old ≡ spelled behind
        → OnOk result (buffer.new ≡ spelled (option_to_list (reason_tree (why reason.now))
        ++ behind)) }
{
    match reason {
        Why::NoCause => Ok(()),
        Why::Cause(cause) => buffer.put_primitive(ABORT_CAUSE, &[*cause]),
        Why::Refusing(name) => put_refusing(buffer, name.as_slice()),
    }
}

/// An Abort.
pub(crate) fn put_abort(
    buffer: &mut Buffer,
    destination: &RemoteId,
    reason: &Why,
) -> Result<(), NoRoom>
    ensures { buffer.old ≡ [] → OnOk result (buffer.new
        ≡ octets_of_sent (SentAbort destination.now (why reason.now))) }
{
    put_reason(buffer, reason)?;
    buffer.put_primitive(DESTINATION, destination.as_slice())?;
    buffer.wrap_all(ABORT)
}
