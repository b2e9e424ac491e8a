//! An operator's change of one subscriber (profile; TS 29.002, 8.8.1 MAP-INSERT-SUBSCRIBER-DATA, 8.1.3 MAP_CANCEL_LOCATION).

ghost use Rattle.std.specs.Prelude.{◌≡◌, ◌∷◌, [], IfSome, Some, None, option_map, List, ℕ, Option, option_copied};
ghost use Rattle.machine.specs.State.{Local};
ghost use Rattle.machine.specs.Events as events;
ghost use Rattle.machine.specs.Sent.{SentBegin, SubscriberDataMngt};
ghost use Rattle.machine.specs.Outcome.{inserts, send, unchanged};
ghost use Rattle.machine.specs.Changes.{changes, codes_to, data_to, withdraw_from};
ghost use Rattle.outgoing.specs.Seen.{out};
ghost use Rattle.smroute.specs.Seen.{machine_register, machine_subscriber};
ghost use Rattle.location.specs.Cancelling.{to_last};
ghost use Rattle.location.specs.Seen.{known, opening_of, outcome_of};
ghost use Rattle.location.specs.Writing.{CanBeWritten};
ghost use Rattle.records.specs.Subscriber.{Subscriber};

use crate::answers::peer_of;
use crate::cancels::{Cancelling, then_cancel};
use crate::inserts::{inserting, subscriber_data};
use crate::outcome::{After, DialogueChange, Opening, Outcome};
use dialogues::{Dialogue, Kind};
use hlr_types::{Imsi, Register, ShortList, Tid};
use mapargs_loc::CancellationType;
use mapctx::Context;
use outgoing::{Addressed, SentMessage};
use records::Record;
use tsl::Transaction;

/// Nothing changes, and nothing is sent.
fn nothing() -> Outcome
    ensures leaves { (here : Local) (codes : List ℕ)
        → outcome_of here None codes result ≡ unchanged here [] }
    ensures writable { (s : Option Subscriber) → CanBeWritten result.after s }
{
    Outcome {
        after: After::Same,
        dialogue: DialogueChange::Closes,
        message: None,
        cancel: None,
    }
}

/// The dialogue that carries new codes to a register.
fn data_to(imsi: Imsi, register: &Register, codes: ShortList<32>) -> Opening
    ensures { (here : Local) → imsi ≡ here.imsi
        → opening_of here.clock result ≡ data_to here (machine_register register.now) codes }
{
    let dialogue = Dialogue {
        subscriber: imsi,
        transaction: Transaction {
            peer: peer_of(&register.vlr),
            remote: None,
        },
        kind: Kind::Data,
    };
    inserting(dialogue, codes)
}

/// Its Begin.
fn data_begin(subscriber: &Record, register: &Register, codes: ShortList<32>, new: Tid) -> Addressed
    ensures { (here : Local) → subscriber.now.imsi ≡ here.imsi → out result ∷ []
        ≡ send register.now.vlr (SentBegin new SubscriberDataMngt
        (inserts (Some here.imsi) subscriber.now.msisdn codes)) }
{
    Addressed {
        to: peer_of(&register.vlr),
        message: SentMessage::Begin {
            origin: new,
            context: Context::SubscriberDataMngt,
            components: subscriber_data(Some(subscriber.imsi), subscriber.msisdn, codes),
        },
    }
}

/// New codes: an update in progress is no longer current, and a register that is not purged gets the data.
fn codes_to(subscriber: &Record, codes: ShortList<32>, new: Tid) -> Outcome
    ensures leaves { (here : Local) → subscriber.now.imsi ≡ here.imsi
        → here.record_of ≡ Some (machine_subscriber subscriber.now)
        → outcome_of here None codes result
        ≡ codes_to here (machine_subscriber subscriber.now) codes new
        (option_map machine_register subscriber.now.register) }
    ensures writable { CanBeWritten result.after (Some subscriber.now) }
{
    match subscriber.register {
        Some(register) if !subscriber.purged => Outcome {
            after: After::NewCodes,
            dialogue: DialogueChange::Opens(data_to(subscriber.imsi, &register, codes)),
            message: Some(data_begin(subscriber, &register, codes, new)),
            cancel: None,
        },
        _ => Outcome {
            after: After::NewCodes,
            dialogue: DialogueChange::Closes,
            message: None,
            cancel: None,
        },
    }
}

/// An operator sets a subscriber's codes. If the subscriber is unknown or withdrawn nothing changes. A dialogue that opens has
/// the id `new`.
pub fn new_codes(subscriber: Option<&Record>, codes: ShortList<32>, new: Tid) -> Outcome
    ensures leaves { (here : Local) → IfSome subscriber.entry (λ s. s.now.imsi ≡ here.imsi)
        → here.record_of ≡ known subscriber.entry
        → outcome_of here None codes result
        ≡ changes here (events.Codes codes) (known subscriber.entry) new }
    ensures writable { CanBeWritten result.after (option_copied subscriber.entry) }
{
    match subscriber {
        Some(subscriber) if !subscriber.withdrawn => codes_to(subscriber, codes, new),
        _ => nothing(),
    }
}

/// The cancel to the last register of a withdrawn subscriber.
fn to_last(register: Option<Register>) -> Option<Cancelling>
    ensures { result ≡ to_last (option_map machine_register register) }
{
    match register {
        Some(register) => Some(Cancelling {
            vlr: peer_of(&register.vlr),
            attempt: 1,
            why: CancellationType::SubscriptionWithdraw,
        }),
        None => None,
    }
}

/// A withdrawal: the record loses its register, and that register, purged or not, gets a cancel.
fn withdraw_from(subscriber: &Record, new: Tid) -> Outcome
    ensures leaves { (here : Local) → subscriber.now.imsi ≡ here.imsi
        → here.record_of ≡ Some (machine_subscriber subscriber.now)
        → outcome_of here None [] result
        ≡ withdraw_from here (machine_subscriber subscriber.now) new
        (option_map machine_register subscriber.now.register) }
    ensures writable { CanBeWritten result.after (Some subscriber.now) }
{
    let next = to_last(subscriber.register);
    then_cancel(After::Withdrawn, None, subscriber.imsi, next, new)
}

/// An operator withdraws a subscriber. If the subscriber is unknown or withdrawn nothing changes. A cancel that opens has the
/// id `new`.
pub fn withdraws(subscriber: Option<&Record>, new: Tid) -> Outcome
    ensures leaves { (here : Local) → IfSome subscriber.entry (λ s. s.now.imsi ≡ here.imsi)
        → here.record_of ≡ known subscriber.entry
        → outcome_of here None [] result
        ≡ changes here events.Withdraw (known subscriber.entry) new }
    ensures writable { CanBeWritten result.after (option_copied subscriber.entry) }
{
    match subscriber {
        Some(subscriber) if !subscriber.withdrawn => withdraw_from(subscriber, new),
        _ => nothing(),
    }
}
