//! A Begin's updateLocation (TS 29.002, 8.1.2 MAP_UPDATE_LOCATION; TS 23.012, Location updating).

ghost use Rattle.std.specs.Prelude.{◌≡◌, ◌∷◌, [], IfSome, Some, None, false, map, option_copied};
ghost use Rattle.std.specs.List.{list_any};
ghost use Rattle.machine.specs.Keys.{is_prefix};
ghost use Rattle.machine.specs.State.{Local};
ghost use Rattle.machine.specs.Sent.{SentContinue};
ghost use Rattle.machine.specs.Outcome.{inserts, send};
ghost use Rattle.machine.specs.Begins.{is_allowed, update_begins, update_opened};
ghost use Rattle.mapargs_loc.specs.Seen.{register as register_of};
ghost use Rattle.mapctx.specs.Seen.{context};
ghost use Rattle.q773_comp.specs.Seen.{rejection};
ghost use Rattle.outgoing.specs.Seen.{out};
ghost use Rattle.records.specs.Roam.{prefixes_of};
ghost use Rattle.smroute.specs.Seen.{machine_subscriber};
ghost use Rattle.location.specs.Asking.{initiator_of};
ghost use Rattle.location.specs.Seen.{known, outcome_of};
ghost use Rattle.location.specs.Writing.{CanBeWritten};

use crate::begin::failed;
use crate::initiator::{Initiator, Source};
use crate::inserts::{inserting, subscriber_data};
use crate::outcome::{After, DialogueChange, Outcome};
use dialogues::{Dialogue, Kind};
use hlr_types::{Digits, IsdnAddress, Register, Tid};
use machine::numbers::{ROAMING_NOT_ALLOWED, UNKNOWN_SUBSCRIBER};
use outgoing::{Addressed, SentMessage};
use q773_comp::Rejection;
use records::{Record, Roam};
use tsl::Transaction;

/// Whether the VLR is allowed: all are, or its digits begin with one of the prefixes.
fn is_allowed(roam: &Roam, vlr: &IsdnAddress) -> bool
    ensures { result ≡ is_allowed (prefixes_of roam.now) vlr.now }
{
    match roam {
        Roam::Everywhere => true,
        Roam::Within(prefixes) => is_within(prefixes.as_slice(), vlr.digits()),
    }
}

/// Whether one of these is a prefix of the digits.
fn is_within(prefixes: &[Digits], digits: &Digits) -> bool
    ensures { result ≡ list_any (λ prefix. is_prefix prefix digits.now) prefixes.now }
{
    for prefix in prefixes {
        if is_prefix(prefix, digits) {
            return true;
        }
    }
    false
}

#[tactic(auto, using(crate::proofs::PrefixLemmas::starts_prefix))]
fn is_prefix(prefix: &Digits, digits: &Digits) -> bool
    ensures { result ≡ is_prefix prefix.now digits.now }
{
    digits.starts_with(prefix)
}

/// The Continue that carries the subscriber data (insertSubscriberData).
fn data_sent(source: Source, rejects: Vec<Rejection>, subscriber: &Record, new: Tid) -> Addressed
    ensures { out result ∷ [] ≡ send source.from
        (SentContinue new source.origin (Some (context source.context))
        (map rejection rejects.items) (inserts None subscriber.now.msisdn subscriber.now.codes)) }
{
    let Source {
        from,
        origin,
        context,
    } = source;
    Addressed {
        to: from,
        message: SentMessage::Continue {
            origin: new,
            destination: origin,
            context: Some(context),
            rejects,
            components: subscriber_data(None, subscriber.msisdn, subscriber.codes),
        },
    }
}

/// The update begins. It becomes the subscriber's current update, in place of any other.
fn update_opens(who: Initiator, register: Register, subscriber: &Record, new: Tid) -> Outcome
    requires { subscriber.now.withdrawn ≡ false }
    ensures leaves { (here : Local) → subscriber.now.imsi ≡ here.imsi
        → here.record_of ≡ Some (machine_subscriber subscriber.now)
        → outcome_of here None [] result
        ≡ update_opened here (initiator_of who) who.invoke (register_of register)
        (machine_subscriber subscriber.now) new }
    ensures writable { CanBeWritten result.after (Some subscriber.now) }
{
    let Initiator {
        source,
        rejects,
        invoke,
    } = who;
    let Source { from, origin, .. } = source;
    let dialogue = Dialogue {
        subscriber: subscriber.imsi,
        transaction: Transaction {
            peer: from,
            remote: Some(origin),
        },
        kind: Kind::Update { register, invoke },
    };
    Outcome {
        after: After::Location {
            register: subscriber.register,
            purged: subscriber.purged,
            current: Some(new),
        },
        dialogue: DialogueChange::Opens(inserting(dialogue, subscriber.codes)),
        message: Some(data_sent(source, rejects, subscriber, new)),
        cancel: None,
    }
}

/// The update of a subscriber who is not withdrawn.
fn update_known(who: Initiator, register: Register, subscriber: &Record, new: Tid) -> Outcome
    requires { subscriber.now.withdrawn ≡ false }
    ensures leaves { (here : Local) → subscriber.now.imsi ≡ here.imsi
        → here.record_of ≡ Some (machine_subscriber subscriber.now)
        → outcome_of here None [] result
        ≡ update_begins here (initiator_of who) who.invoke (register_of register)
        (Some (machine_subscriber subscriber.now)) new }
    ensures writable { CanBeWritten result.after (Some subscriber.now) }
{
    if is_allowed(&subscriber.roam, &register.vlr) {
        update_opens(who, register, subscriber, new)
    } else {
        failed(who, ROAMING_NOT_ALLOWED)
    }
}

/// updateLocation. Refused with unknownSubscriber, or with roamingNotAllowed at a VLR that the record does not allow.
pub(crate) fn update(
    who: Initiator,
    register: Register,
    subscriber: Option<&Record>,
    new: Tid,
) -> Outcome
    ensures leaves { (here : Local) → IfSome subscriber.entry (λ s. s.now.imsi ≡ here.imsi)
        → here.record_of ≡ known subscriber.entry
        → outcome_of here None [] result
        ≡ update_begins here (initiator_of who) who.invoke (register_of register)
        (known subscriber.entry) new }
    ensures writable { CanBeWritten result.after (option_copied subscriber.entry) }
{
    match subscriber {
        Some(subscriber) if !subscriber.withdrawn => update_known(who, register, subscriber, new),
        _ => failed(who, UNKNOWN_SUBSCRIBER),
    }
}
