//! The expiry of a timer of an open dialogue (Q.774, invocation timer and reject timer; TS 29.002).

ghost use Rattle.std.specs.Prelude.{◌≡◌, [], List, Option, IfSome, Some, option_map, option_copied};
ghost use Rattle.machine.specs.State as machine;
ghost use Rattle.machine.specs.State.{Invocation, Local, if_of};
ghost use Rattle.machine.specs.Expiries.{cancel_expires, current_register, expires, is_register, is_wanted, register_of, sent_expires};
ghost use Rattle.mapargs_loc.specs.Seen.{cancellation};
ghost use Rattle.smroute.specs.Seen.{machine_register};
ghost use Rattle.csl.specs.Seen.{was as was_of};
ghost use Rattle.dialogues.specs.Seen.{dialogue_with, kind_of};
ghost use Rattle.location.specs.Cancelling.{again};
ghost use Rattle.location.specs.Seen.{known, outcome_of};
ghost use Rattle.location.specs.Writing.{CanBeWritten};
ghost use Rattle.records.specs.Subscriber.{Subscriber};

use crate::answers::end_in_dialogue;
use crate::cancels::{Cancelling, then_cancel};
use crate::outcome::{After, DialogueChange, Outcome};
use crate::update_end::update_fails;
use csl::{Due, Was};
use dialogues::{Dialogue, InvokeId, Kind};
use hlr_types::{Imsi, Peer, Register, Tid};
use machine::numbers::MAX_ATTEMPTS;
use mapargs_loc::CancellationType;
use outgoing::Components;
use records::Record;
use std::alloc::Global;

/// The register of the dialogue, if it is an update of this subscriber.
pub fn register_of(imsi: Imsi, dialogue: Option<Dialogue>) -> Option<Register>
    ensures { (vs : List Invocation)
        → option_map machine_register result
        ≡ register_of (if_of imsi (option_map (dialogue_with vs) dialogue)) }
{
    match dialogue {
        Some(dialogue) if dialogue.subscriber == imsi => match dialogue.kind {
            Kind::Update { register, .. } => Some(register),
            Kind::Cancel { .. } | Kind::Data => None,
        },
        _ => None,
    }
}

/// Whether these are the register's VLR digits.
fn is_register(vlr: &Peer, register: Option<Register>) -> bool
    ensures { result ≡ is_register vlr.now (option_map machine_register register) }
{
    match register {
        Some(register) => register.vlr.digits() == vlr.digits(),
        None => false,
    }
}

/// Whether the digits are those of the serving register, purged or not, or of the current update's.
fn is_wanted(vlr: &Peer, subscriber: Option<&Record>, current: Option<Register>) -> bool
    ensures { (here : Local)
        → IfSome subscriber.entry (λ s. current_register here s.now.current
        ≡ option_map machine_register current)
        → result ≡ is_wanted here vlr.now (known subscriber.entry) }
{
    match subscriber {
        Some(subscriber) => is_register(vlr, subscriber.register) || is_register(vlr, current),
        None => false,
    }
}

/// The next attempt of a cancel, if there is one and its register is not wanted.
fn again(last: Cancelling, wanted: bool) -> Option<Cancelling>
    ensures { result ≡ again last wanted }
{
    if last.attempt >= MAX_ATTEMPTS || wanted {
        return None;
    }
    Some(Cancelling {
        attempt: last.attempt + 1,
        ..last
    })
}

/// A cancel that is not answered closes, with an End if it is Active. It is repeated to the same digits as the next attempt,
/// unless that register is wanted (profile).
fn cancel_expires(
    alloc: Global,
    subscriber: Option<&Record>,
    current: Option<Register>,
    dialogue: &Dialogue,
    last: Cancelling,
    new: Tid,
) -> Outcome
    ensures leaves { (here : Local) (named : Option machine.Dialogue) (vs : List Invocation)
        → dialogue.now.subscriber ≡ here.imsi
        → here.record_of ≡ known subscriber.entry
        → IfSome subscriber.entry (λ s. current_register here s.now.current
        ≡ option_map machine_register current)
        → outcome_of here named [] result
        ≡ cancel_expires here (dialogue_with vs dialogue.now) last.vlr last.attempt
        (cancellation last.why) new }
    ensures writable { (s : Option Subscriber) → CanBeWritten result.after s }
{
    let message = end_in_dialogue(dialogue.transaction, Vec::new(alloc), Components::Nothing);
    let wanted = is_wanted(&last.vlr, subscriber, current);
    let next = again(last, wanted);
    then_cancel(After::Same, message, dialogue.subscriber, next, new)
}

/// An expiry in Operation Sent closes the dialogue. New subscriber data is not sent again (profile).
fn sent_expires(
    alloc: Global,
    subscriber: Option<&Record>,
    current: Option<Register>,
    id: Tid,
    dialogue: &Dialogue,
    new: Tid,
) -> Outcome
    ensures leaves { (here : Local) (named : Option machine.Dialogue) (vs : List Invocation)
        → dialogue.now.subscriber ≡ here.imsi
        → here.record_of ≡ known subscriber.entry
        → IfSome subscriber.entry (λ s. current_register here s.now.current
        ≡ option_map machine_register current)
        → outcome_of here named [] result
        ≡ sent_expires here id (dialogue_with vs dialogue.now) (kind_of dialogue.now.kind) new }
    ensures writable { CanBeWritten result.after (option_copied subscriber.entry) }
{
    match dialogue.kind {
        Kind::Update { invoke, .. } => {
            update_fails(subscriber, id, dialogue, invoke, Vec::new(alloc))
        }
        Kind::Cancel { vlr, attempt, why } => {
            let last = Cancelling { vlr, attempt, why };
            cancel_expires(alloc, subscriber, current, dialogue, last, new)
        }
        Kind::Data => Outcome {
            after: After::Same,
            dialogue: DialogueChange::Closes,
            message: end_in_dialogue(dialogue.transaction, Vec::new(alloc), Components::Nothing),
            cancel: None,
        },
    }
}

/// The expiry of an invocation's timer, by the invocation's state. `current` is the register of the subscriber's current
/// update. In Wait for Reject the invocation becomes Idle, and nothing else happens.
pub fn expires(
    alloc: Global,
    subscriber: Option<&Record>,
    current: Option<Register>,
    dialogue: &Dialogue,
    due: Due,
    new: Tid,
) -> Outcome
    ensures leaves { (here : Local) (vs : List Invocation) → dialogue.now.subscriber ≡ here.imsi
        → here.record_of ≡ known subscriber.entry
        → IfSome subscriber.entry (λ s. current_register here s.now.current
        ≡ option_map machine_register current)
        → outcome_of here (Some (dialogue_with vs dialogue.now)) [] result
        ≡ expires here due.id (dialogue_with vs dialogue.now) due.invoke (was_of due.was) new }
    ensures writable { CanBeWritten result.after (option_copied subscriber.entry) }
{
    match due.was {
        Was::Sent => sent_expires(alloc, subscriber, current, due.id, dialogue, new),
        Was::Waiting => Outcome {
            after: After::Same,
            dialogue: DialogueChange::Forgets(InvokeId::new(due.invoke)),
            message: None,
            cancel: None,
        },
    }
}
