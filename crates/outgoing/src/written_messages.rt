//! Messages in a buffer (Q.773): what does not fit is refused.

ghost use Rattle.std.specs.Prelude.{◌≡◌, [], ◌∷◌, ◌++◌, List, map, option_map, option_to_list, OnOk};
ghost use Rattle.x690.specs.Tree.{Tree};
ghost use Rattle.machine.specs.Sent.{SentBegin, SentContinue, SentEnd};
ghost use Rattle.frames.specs.SentTrees.{accepting, asking, component_portion, component_tree, component_trees, octets_of_sent, reject_tree, rejected_tree};
ghost use Rattle.mapctx.specs.Seen.{context};
ghost use Rattle.q773_comp.specs.Seen.{rejection};
ghost use Rattle.outgoing.specs.Seen.{components, message};
ghost use Rattle.outgoing.specs.Spelled.{spelled};

use crate::buffer::{Buffer, NoRoom};
use crate::component::Components;
use crate::message::SentMessage;
use crate::written_aborts::put_abort;
use crate::written_components::{put_component, put_id};
use crate::written_inserts::put_data;
use frames::tags::{
    BEGIN, COMPONENT_PORTION, CONTINUE, DESTINATION, DIALOGUE_PORTION, END, NULL, ORIGIN, REJECT,
};
use hlr_types::{RemoteId, Tid};
use mapctx::Context;
use mapdlg::{answer_contents, request_contents};
use q773_comp::{Rejection, problem_tag};

/// What is rejected: an id, or a NULL.
fn put_rejected(buffer: &mut Buffer, id: Option<i8>) -> Result<(), NoRoom>
    ensures { (behind : List Tree) → buffer.old ≡ spelled behind
        → OnOk result (buffer.new ≡ spelled (rejected_tree id ∷ behind)) }
{
    match id {
        Some(id) => put_id(buffer, id),
        None => buffer.put_primitive(NULL, &[]),
    }
}

/// A Reject.
fn put_reject(buffer: &mut Buffer, sent: &Rejection) -> Result<(), NoRoom>
    ensures { (behind : List Tree) → buffer.old ≡ spelled behind
        → OnOk result (buffer.new ≡ spelled (reject_tree (rejection sent.now) ∷ behind)) }
{
    let kept = buffer.len();
    buffer.put_primitive(problem_tag(sent.side), &[sent.problem])?;
    put_rejected(buffer, sent.id)?;
    buffer.wrap(REJECT, kept)
}

/// The Rejects, the last first.
fn put_rejects(buffer: &mut Buffer, rejects: &[Rejection]) -> Result<(), NoRoom>
    ensures { (behind : List Tree) → buffer.old ≡ spelled behind
        → OnOk result (buffer.new ≡ spelled (map reject_tree (map rejection rejects.now)
        ++ behind)) }
{
    for place in (0..rejects.len()).rev() {
        put_reject(buffer, &rejects[place])?;
    }
    Ok(())
}

/// The procedure's own components.
fn put_components(buffer: &mut Buffer, sent: &Components) -> Result<(), NoRoom>
    ensures { (behind : List Tree) → buffer.old ≡ spelled behind
        → OnOk result (buffer.new ≡ spelled (map component_tree (components sent.now)
        ++ behind)) }
{
    match sent {
        Components::Nothing => Ok(()),
        Components::One(sent) => put_component(buffer, sent),
        Components::Data(sent) => put_data(buffer, sent),
    }
}

/// The component portion at the end of a message, if there are components: the Rejects come first.
fn put_portion(buffer: &mut Buffer, rejects: &[Rejection], sent: &Components) -> Result<(), NoRoom>
    ensures { buffer.old ≡ [] → OnOk result (buffer.new ≡ spelled (component_portion
        (component_trees (map rejection rejects.now) (components sent.now)))) }
{
    put_components(buffer, sent)?;
    put_rejects(buffer, rejects)?;
    if buffer.len() == 0 {
        return Ok(());
    }
    buffer.wrap_all(COMPONENT_PORTION)
}

/// The dialogue portion that requests a context.
fn put_request(buffer: &mut Buffer, of: Context) -> Result<(), NoRoom>
    ensures { (behind : List Tree) → buffer.old ≡ spelled behind
        → OnOk result (buffer.new ≡ spelled (asking (context of) ∷ behind)) }
{
    buffer.put_primitive(DIALOGUE_PORTION, &request_contents(of))
}

/// The dialogue portion that accepts a context, if one is accepted.
fn put_answer(buffer: &mut Buffer, of: Option<Context>) -> Result<(), NoRoom>
    ensures { (behind : List Tree) → buffer.old ≡ spelled behind
        → OnOk result (buffer.new ≡ spelled (option_to_list
        (option_map accepting (option_map context of)) ++ behind)) }
{
    match of {
        Some(of) => buffer.put_primitive(DIALOGUE_PORTION, &answer_contents(of)),
        None => Ok(()),
    }
}

/// A Begin, which always requests a context.
fn put_begin(
    buffer: &mut Buffer,
    origin: &Tid,
    of: Context,
    sent: &Components,
) -> Result<(), NoRoom>
    ensures { buffer.old ≡ [] → OnOk result (buffer.new
        ≡ octets_of_sent (SentBegin origin.now (context of) (components sent.now))) }
{
    put_portion(buffer, &[], sent)?;
    put_request(buffer, of)?;
    buffer.put_primitive(ORIGIN, origin.as_slice())?;
    buffer.wrap_all(BEGIN)
}

/// A Continue.
fn put_continue(
    buffer: &mut Buffer,
    origin: &Tid,
    destination: &RemoteId,
    of: Option<Context>,
    rejects: &[Rejection],
    sent: &Components,
) -> Result<(), NoRoom>
    ensures { buffer.old ≡ [] → OnOk result (buffer.new ≡ octets_of_sent
        (SentContinue origin.now destination.now (option_map context of)
        (map rejection rejects.now) (components sent.now))) }
{
    put_portion(buffer, rejects, sent)?;
    put_answer(buffer, of)?;
    buffer.put_primitive(DESTINATION, destination.as_slice())?;
    buffer.put_primitive(ORIGIN, origin.as_slice())?;
    buffer.wrap_all(CONTINUE)
}

/// An End.
fn put_end(
    buffer: &mut Buffer,
    destination: &RemoteId,
    of: Option<Context>,
    rejects: &[Rejection],
    sent: &Components,
) -> Result<(), NoRoom>
    ensures { buffer.old ≡ [] → OnOk result (buffer.new ≡ octets_of_sent
        (SentEnd destination.now (option_map context of)
        (map rejection rejects.now) (components sent.now))) }
{
    put_portion(buffer, rejects, sent)?;
    put_answer(buffer, of)?;
    buffer.put_primitive(DESTINATION, destination.as_slice())?;
    buffer.wrap_all(END)
}

/// A message.
pub(crate) fn put_message(buffer: &mut Buffer, sent: &SentMessage) -> Result<(), NoRoom>
    ensures { buffer.old ≡ [] → OnOk result (buffer.new ≡ octets_of_sent (message sent.now)) }
{
    match sent {
        SentMessage::Begin {
            origin,
            context,
            components,
        } => put_begin(buffer, origin, *context, components),
        SentMessage::Continue {
            origin,
            destination,
            context,
            rejects,
            components,
        } => put_continue(buffer, origin, destination, *context, rejects, components),
        SentMessage::End {
            destination,
            context,
            rejects,
            components,
        } => put_end(buffer, destination, *context, rejects, components),
        SentMessage::Abort { destination, why } => put_abort(buffer, destination, why),
    }
}
