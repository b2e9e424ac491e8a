//! The end of an updateLocation (TS 29.002, 8.1.2 MAP_UPDATE_LOCATION; TS 23.012, Location updating).

ghost use Rattle.std.specs.Prelude.{◌≡◌, ◌∷◌, [], ℕ, List, Option, Some, option_map, map, option_copied, true, false};
ghost use Rattle.machine.specs.State as machine;
ghost use Rattle.machine.specs.State.{Invocation, Local};
ghost use Rattle.machine.specs.Sent.{UpdateResult};
ghost use Rattle.machine.specs.Outcome.{end_in_dialogue, is_marked, unmarked};
ghost use Rattle.machine.specs.Dialogues.{update_completes, update_done, update_fails};
ghost use Rattle.q773_comp.specs.Seen.{rejection};
ghost use Rattle.tsl.specs.Transactions.{transaction_of};
ghost use Rattle.mapargs_loc.specs.Seen.{register as register_of};
ghost use Rattle.smroute.specs.Seen.{machine_register, machine_subscriber};
ghost use Rattle.dialogues.specs.Seen.{dialogue_with};
ghost use Rattle.location.specs.Cancelling.{to_old};
ghost use Rattle.location.specs.Seen.{after_of, known, outcome_of};
ghost use Rattle.location.specs.Staying.{ForgetsNothing};
ghost use Rattle.location.specs.Writing.{CanBeWritten};

use crate::answers::{end_in_dialogue, peer_of};
use crate::cancels::{Cancelling, then_cancel};
use crate::components::{error, update_result};
use crate::outcome::{After, DialogueChange, Outcome};
use dialogues::{Dialogue, InvokeId};
use hlr_types::{IsdnAddress, Register, Tid};
use machine::numbers::SYSTEM_FAILURE;
use mapargs_loc::CancellationType;
use outgoing::Components;
use q773_comp::Rejection;
use records::Record;

/// The data of an update: the register in its argument, and the invoke id to answer.
#[derive(Clone, Copy)]
pub(crate) struct Updating {
    pub(crate) register: Register,
    pub(crate) invoke: InvokeId,
}

/// Whether this dialogue is the subscriber's current update.
fn is_marked(subscriber: &Record, id: Tid) -> bool
    ensures value { result ≡ is_marked subscriber.now.current id }
    ensures not_withdrawn { result ≡ true → subscriber.now.withdrawn ≡ false }
{
    subscriber.current == Some(id)
}

/// Clears the current mark, if it is this dialogue's.
pub(crate) fn unmarked(subscriber: Option<&Record>, id: Tid) -> After
    ensures leaves { (codes : List ℕ)
        → after_of codes result (known subscriber.entry) ≡ unmarked id (known subscriber.entry) }
    ensures writable { CanBeWritten result (option_copied subscriber.entry) }
{
    match subscriber {
        Some(subscriber) if is_marked(subscriber, id) => After::Location {
            register: subscriber.register,
            purged: subscriber.purged,
            current: None,
        },
        _ => After::Same,
    }
}

/// An update that fails, or is not the current one: error systemFailure, and the register stays (profile).
pub(crate) fn update_fails(
    subscriber: Option<&Record>,
    id: Tid,
    dialogue: &Dialogue,
    invoke: InvokeId,
    rejects: Vec<Rejection>,
) -> Outcome
    ensures leaves { (here : Local) (named : Option machine.Dialogue) (vs : List Invocation)
        → here.record_of ≡ known subscriber.entry → outcome_of here named [] result
        ≡ update_fails here id (dialogue_with vs dialogue.now) invoke
        (map rejection rejects.items) }
    ensures writable { CanBeWritten result.after (option_copied subscriber.entry) }
    ensures keeps { ForgetsNothing result.dialogue }
{
    let failure = Components::One(error(invoke, SYSTEM_FAILURE));
    Outcome {
        after: unmarked(subscriber, id),
        dialogue: DialogueChange::Closes,
        message: end_in_dialogue(dialogue.transaction, rejects, failure),
        cancel: None,
    }
}

/// The cancel to the old register, if its VLR digits differ. It is sent even if that register has purged the subscriber
/// (profile).
fn to_old(register: &Register, old: Option<Register>) -> Option<Cancelling>
    ensures { result ≡ to_old (register_of register.now) (option_map machine_register old) }
{
    match old {
        Some(old) if old.vlr != register.vlr => Some(Cancelling {
            vlr: peer_of(&old.vlr),
            attempt: 1,
            why: CancellationType::UpdateProcedure,
        }),
        _ => None,
    }
}

/// The current update completes: its register becomes the serving one. An old register with other digits, purged or not, gets
/// a cancel, whose Begin follows the End (profile).
fn update_done(
    hlr: IsdnAddress,
    subscriber: &Record,
    dialogue: &Dialogue,
    update: Updating,
    rejects: Vec<Rejection>,
    new: Tid,
) -> Outcome
    requires { subscriber.now.withdrawn ≡ false }
    ensures leaves { (here : Local) (named : Option machine.Dialogue)
        → dialogue.now.subscriber ≡ here.imsi
        → here.record_of ≡ Some (machine_subscriber subscriber.now)
        → outcome_of here named [] result
        ≡ update_done here (register_of update.register) (machine_subscriber subscriber.now)
        (end_in_dialogue (transaction_of dialogue.now.transaction) dialogue.now.transaction.remote (map rejection rejects.items)
        (UpdateResult update.invoke hlr ∷ []))
        new (option_map machine_register subscriber.now.register) }
    ensures writable { CanBeWritten result.after (Some subscriber.now) }
    ensures keeps { ForgetsNothing result.dialogue }
{
    let after = After::Location {
        register: Some(update.register),
        purged: false,
        current: None,
    };
    let result = Components::One(update_result(update.invoke, hlr));
    let message = end_in_dialogue(dialogue.transaction, rejects, result);
    let next = to_old(&update.register, subscriber.register);
    then_cancel(after, message, dialogue.subscriber, next, new)
}

/// An update whose inserts have all succeeded: it completes only if it is the current one.
pub(crate) fn update_completes(
    hlr: IsdnAddress,
    subscriber: Option<&Record>,
    id: Tid,
    dialogue: &Dialogue,
    update: Updating,
    rejects: Vec<Rejection>,
    new: Tid,
) -> Outcome
    ensures leaves { (here : Local) (named : Option machine.Dialogue) (vs : List Invocation)
        → dialogue.now.subscriber ≡ here.imsi → here.hlr ≡ hlr
        → here.record_of ≡ known subscriber.entry → outcome_of here named [] result
        ≡ update_completes here id (dialogue_with vs dialogue.now)
        (register_of update.register) update.invoke
        (map rejection rejects.items) new (known subscriber.entry) }
    ensures writable { CanBeWritten result.after (option_copied subscriber.entry) }
    ensures keeps { ForgetsNothing result.dialogue }
{
    match subscriber {
        Some(found) if is_marked(found, id) => {
            update_done(hlr, found, dialogue, update, rejects, new)
        }
        _ => update_fails(subscriber, id, dialogue, update.invoke, rejects),
    }
}
