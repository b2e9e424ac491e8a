//! A received Continue of an open dialogue (Q.774, TS 29.002).

ghost use Rattle.std.specs.Prelude.{◌≡◌, [], List, Option, Some, map, option_copied};
ghost use Rattle.machine.specs.State.{Invocation, Local};
ghost use Rattle.machine.specs.Effect as effects;
ghost use Rattle.machine.specs.Dialogues.{continues_as, goes_on, offer_to, other_continues, update_continues};
ghost use Rattle.q773_comp.specs.Seen.{rejection};
ghost use Rattle.mapargs_loc.specs.Seen.{register as register_of};
ghost use Rattle.csl.specs.Effects.{IsEffect, concluded, offered};
ghost use Rattle.dialogues.specs.Seen.{dialogue_with, kind_of};
ghost use Rattle.location.specs.Seen.{effect_of, known, outcome_of};
ghost use Rattle.location.specs.Staying.{ForgetsNothing};
ghost use Rattle.location.specs.Writing.{CanBeWritten};
ghost use Rattle.records.specs.Subscriber.{Subscriber};

use crate::answers::{continue_in_dialogue, end_in_dialogue};
use crate::outcome::{After, DialogueChange, Outcome};
use crate::update_end::{Updating, update_completes, update_fails};
use csl::{Conclusion, Effect, Offer, Remaining};
use dialogues::{Dialogue, Kind};
use hlr_types::{IsdnAddress, Tid};
use machine::numbers::UPDATE_LOCATION;
use outgoing::Components;
use q773_comp::Rejection;
use records::Record;

/// What the peer may invoke in a Continue: nothing. In an update its own updateLocation is still open.
pub fn offer_to(kind: &Kind) -> Offer
    ensures { offered result ≡ offer_to (kind_of kind.now) }
{
    let (open_id, operation) = match kind {
        Kind::Update { invoke, .. } => (Some(invoke.number()), Some(UPDATE_LOCATION)),
        Kind::Cancel { .. } | Kind::Data => (None, None),
    };
    Offer {
        open_id,
        operation,
        may_start: false,
        typed: false,
    }
}

/// The dialogue goes on with what is left of its invocations, and the Rejects, if any, are sent.
fn goes_on(id: Tid, dialogue: &Dialogue, rejects: Vec<Rejection>, left: Remaining) -> Outcome
    ensures leaves { (here : Local) (vs : List Invocation)
        → outcome_of here (Some (dialogue_with vs dialogue.now)) [] result
        ≡ goes_on here id (dialogue_with vs dialogue.now) (map rejection rejects.items) left }
    ensures writable { (s : Option Subscriber) → CanBeWritten result.after s }
    ensures keeps { ForgetsNothing result.dialogue }
{
    Outcome {
        after: After::Same,
        dialogue: DialogueChange::GoesOn(left),
        message: continue_in_dialogue(id, dialogue.transaction, rejects),
        cancel: None,
    }
}

/// A cancel or a data dialogue: it ends when its invocations have succeeded or failed.
fn other_continues(id: Tid, dialogue: &Dialogue, effect: Effect) -> Outcome
    ensures leaves { (here : Local) (vs : List Invocation)
        → outcome_of here (Some (dialogue_with vs dialogue.now)) [] result
        ≡ other_continues here id (dialogue_with vs dialogue.now) (effect_of effect)
        (concluded effect.conclusion) }
    ensures writable { (s : Option Subscriber) → CanBeWritten result.after s }
    ensures keeps { ForgetsNothing result.dialogue }
{
    match effect.conclusion {
        Conclusion::GoesOn => goes_on(id, dialogue, effect.rejects, effect.left),
        Conclusion::HasFailed | Conclusion::HasSucceeded => Outcome {
            after: After::Same,
            dialogue: DialogueChange::Closes,
            message: end_in_dialogue(dialogue.transaction, effect.rejects, Components::Nothing),
            cancel: None,
        },
    }
}

/// An update, by the conclusion of its inserts.
fn update_continues(
    hlr: IsdnAddress,
    subscriber: Option<&Record>,
    id: Tid,
    dialogue: &Dialogue,
    update: Updating,
    effect: Effect,
    new: Tid,
) -> Outcome
    ensures leaves { (here : Local) (vs : List Invocation)
        → dialogue.now.subscriber ≡ here.imsi → here.hlr ≡ hlr
        → here.record_of ≡ known subscriber.entry
        → outcome_of here (Some (dialogue_with vs dialogue.now)) [] result
        ≡ update_continues here id (dialogue_with vs dialogue.now)
        (register_of update.register) update.invoke
        (effect_of effect) (concluded effect.conclusion) new }
    ensures writable { CanBeWritten result.after (option_copied subscriber.entry) }
    ensures keeps { ForgetsNothing result.dialogue }
{
    let rejects = effect.rejects;
    match effect.conclusion {
        Conclusion::HasFailed => update_fails(subscriber, id, dialogue, update.invoke, rejects),
        Conclusion::HasSucceeded => update_completes(
            hlr, subscriber, id, dialogue, update, rejects, new,
        ),
        Conclusion::GoesOn => goes_on(id, dialogue, rejects, effect.left),
    }
}

/// A dialogue, by its kind and the effect of the components.
fn continues_by(
    hlr: IsdnAddress,
    subscriber: Option<&Record>,
    id: Tid,
    dialogue: &Dialogue,
    effect: Effect,
    new: Tid,
) -> Outcome
    ensures leaves { (here : Local) (vs : List Invocation)
        → dialogue.now.subscriber ≡ here.imsi → here.hlr ≡ hlr
        → here.record_of ≡ known subscriber.entry
        → outcome_of here (Some (dialogue_with vs dialogue.now)) [] result
        ≡ continues_as here id (dialogue_with vs dialogue.now) (kind_of dialogue.now.kind)
        (effect_of effect) new }
    ensures writable { CanBeWritten result.after (option_copied subscriber.entry) }
    ensures keeps { ForgetsNothing result.dialogue }
{
    match dialogue.kind {
        Kind::Update { register, invoke } => {
            let update = Updating { register, invoke };
            update_continues(hlr, subscriber, id, dialogue, update, effect, new)
        }
        Kind::Cancel { .. } | Kind::Data => other_continues(id, dialogue, effect),
    }
}

/// A Continue for an open dialogue, whose peer and remote id are already set, with the effect of its components. If an update
/// completes and its subscriber had another register, a cancel opens with the id `new`.
// Not inlined, as `begins`.
#[inline(never)]
pub fn continues(
    hlr: IsdnAddress,
    subscriber: Option<&Record>,
    id: Tid,
    dialogue: &Dialogue,
    effect: Effect,
    new: Tid,
) -> Outcome
    ensures leaves { (here : Local) (vs : List Invocation) (did : effects.Effect)
        → dialogue.now.subscriber ≡ here.imsi → here.hlr ≡ hlr
        → here.record_of ≡ known subscriber.entry → IsEffect effect did
        → outcome_of here (Some (dialogue_with vs dialogue.now)) [] result
        ≡ continues_as here id (dialogue_with vs dialogue.now) (kind_of dialogue.now.kind) did new }
    ensures writable { CanBeWritten result.after (option_copied subscriber.entry) }
    ensures keeps { ForgetsNothing result.dialogue }
{
    continues_by(hlr, subscriber, id, dialogue, effect, new)
}
