//! A received Begin: the MAP operation that a peer starts (TS 29.002; the order of the checks is the profile's).

ghost use Rattle.std.specs.Prelude.{◌≡◌, ◌≢◌, ◌≤◌, ◌^◌, ◌∷◌, [], List, ℕ, Option, IfOk, IfSome, None, map, option_map, option_copied};
ghost use Rattle.machine.specs.SmRoute.{sm_route};
ghost use Rattle.machine.specs.Sent.{SentError};
ghost use Rattle.machine.specs.Outcome.{unchanged};
ghost use Rattle.machine.specs.State.{Local};
ghost use Rattle.machine.specs.Received as machine;
ghost use Rattle.machine.specs.Received.{Read};
ghost use Rattle.machine.specs.Begins.{end_of_begin, begins, begins_in, begun, offer_in, procedure, route_component};
ghost use Rattle.mapctx.specs.Seen.{context};
ghost use Rattle.q773_comp.specs.Seen.{component, rejection};
ghost use Rattle.msgarena.specs.Seen.{argument, parameter};
ghost use Rattle.outgoing.specs.Seen.{component as component_of};
ghost use Rattle.csl.specs.Effects.{offered};
ghost use Rattle.location.specs.Asking.{IsBeginOf, initiator_of, source_with};
ghost use Rattle.location.specs.Seen.{known, outcome_of};
ghost use Rattle.location.specs.Writing.{CanBeWritten};
ghost use Rattle.records.specs.Subscriber.{Subscriber};

use crate::answers::only;
use crate::argument::first_argument;
use crate::components::{error, route_answer};
use crate::initiator::{Initiator, Source};
use crate::outcome::Outcome;
use crate::purge::purge;
use crate::update::update;
use csl::{Effect, Offer, effect_of_begin};
use dialogues::InvokeId;
use hlr_types::{RemoteId, Tid};
use machine::numbers::UNEXPECTED_DATA_VALUE;
use mapctx::{Context, ContextName, operation_of};
use msgarena::{Argument, Indication, Parameter, ReadMessage, Verdict};
use outgoing::{Accepted, Addressed, Components, SentComponent, SentMessage, accept};
use q773_comp::{Component, Rejection};
use records::Record;
use smroute::route_sm;
use std::alloc::{AllocError, Global};

/// The End with this component only; nothing changes.
fn end_of_begin(who: Initiator, component: SentComponent) -> Outcome
    ensures leaves { (here : Local) → outcome_of here None [] result
        ≡ unchanged here (end_of_begin (initiator_of who) (component_of component ∷ [])) }
    ensures writable { (s : Option Subscriber) → CanBeWritten result.after s }
{
    only(who.answers(component))
}

/// The End with this error.
pub(crate) fn failed(who: Initiator, code: u8) -> Outcome
    ensures leaves { (here : Local) → outcome_of here None [] result
        ≡ unchanged here (end_of_begin (initiator_of who) (SentError who.invoke code ∷ [])) }
    ensures writable { (s : Option Subscriber) → CanBeWritten result.after s }
{
    let component = error(who.invoke, code);
    end_of_begin(who, component)
}

/// sendRoutingInfoForSM (TS 29.002, 12.1).
fn route(who: Initiator, subscriber: Option<&Record>) -> Outcome
    ensures leaves { (here : Local) → IfSome subscriber.entry (λ s. s.now.imsi ≡ here.imsi)
        → outcome_of here None [] result ≡ unchanged here
        (end_of_begin (initiator_of who)
        (route_component who.invoke (sm_route here.imsi (known subscriber.entry)) ∷ [])) }
    ensures writable { (s : Option Subscriber) → CanBeWritten result.after s }
{
    let component = route_answer(who.invoke, route_sm(subscriber));
    end_of_begin(who, component)
}

/// The procedure of an Invoke that was accepted.
fn procedure(who: Initiator, asked: &Argument, subscriber: Option<&Record>, new: Tid) -> Outcome
    ensures leaves { (here : Local) → IfSome subscriber.entry (λ s. s.now.imsi ≡ here.imsi)
        → here.record_of ≡ known subscriber.entry
        → outcome_of here None [] result
        ≡ procedure here (initiator_of who) who.invoke (argument asked.now) new }
    ensures writable { CanBeWritten result.after (option_copied subscriber.entry) }
{
    match asked {
        Argument::BadValue => failed(who, UNEXPECTED_DATA_VALUE),
        Argument::Update(asked) => update(who, asked.register, subscriber, new),
        Argument::Purge(asked) => purge(who, asked, subscriber),
        Argument::Route(_) => route(who, subscriber),
    }
}

/// What a Begin may start in its application context.
fn offer_in(of: Context, components: &[Component<Parameter>]) -> Offer
    ensures { offered result ≡ offer_in (context of) (map (component parameter) components.now) }
{
    Offer {
        open_id: None,
        operation: operation_of(of),
        may_start: true,
        typed: first_argument(components).is_some(),
    }
}

/// The End with the Rejects only, if nothing started.
fn not_started(source: Source, rejects: Vec<Rejection>) -> Outcome
    ensures leaves { (here : Local) → outcome_of here None [] result
        ≡ unchanged here (end_of_begin (source_with source (map rejection rejects.items)) []) }
    ensures writable { (s : Option Subscriber) → CanBeWritten result.after s }
{
    only(source.end_of_begin(rejects, Components::Nothing))
}

/// The procedure that started, if one did.
fn started_in(
    source: Source,
    effect: Effect,
    asked: Option<Argument>,
    subscriber: Option<&Record>,
    new: Tid,
) -> Outcome
    ensures leaves { (here : Local) → IfSome subscriber.entry (λ s. s.now.imsi ≡ here.imsi)
        → here.record_of ≡ known subscriber.entry → outcome_of here None [] result
        ≡ begun here (source_with source (map rejection effect.rejects.items)) effect.started
        (option_map argument asked) new }
    ensures writable { CanBeWritten result.after (option_copied subscriber.entry) }
{
    match (effect.started, asked) {
        (Some(invoke), Some(asked)) => {
            let who = Initiator {
                source,
                rejects: effect.rejects,
                invoke: InvokeId::new(invoke),
            };
            procedure(who, &asked, subscriber, new)
        }
        _ => not_started(source, effect.rejects),
    }
}

/// A Begin in a context that is accepted from a peer.
fn begins_in(
    alloc: Global,
    source: Source,
    components: &[Component<Parameter>],
    subscriber: Option<&Record>,
    now: u64,
    new: Tid,
) -> Result<Outcome, AllocError>
    requires early { now ≤ 2 ^ 62 }
    requires some { components.now ≢ [] }
    ensures leaves { IfOk result (λ left. (here : Local) → here.clock ≡ now
        → IfSome subscriber.entry (λ s. s.now.imsi ≡ here.imsi)
        → here.record_of ≡ known subscriber.entry → outcome_of here None [] left
        ≡ begins_in here source.from source.origin (context source.context)
        (map (component parameter) components.now) new) }
    ensures writable { IfOk result (λ left. CanBeWritten left.after
        (option_copied subscriber.entry)) }
{
    let offer = offer_in(source.context, components);
    let effect = effect_of_begin(alloc, &offer, components, now)?;
    let asked = first_argument(components);
    Ok(started_in(source, effect, asked, subscriber, new))
}

/// The name of the context that a Begin requests, if it requests one.
fn requested(indication: &Indication) -> Option<&ContextName>
    ensures { (origin : List ℕ) (name : Option (List ℕ)) (components : List machine.Component)
        → indication.now.verdict ≡ Read (machine.Begin origin name components)
        → option_map (λ n. n.now) result ≡ name }
{
    match indication.verdict() {
        Verdict::Read(ReadMessage::Begin { context, .. }) => context.as_ref(),
        _ => None,
    }
}

/// A received Begin: answered with an Abort if its dialogue is not accepted, otherwise by its procedure. A dialogue that opens
/// has the id `new`. Only the effect of the components allocates.
// A call of its own makes the outcome where it stays; if it is inlined, each of the enums in it is copied part by part.
#[inline(never)]
pub fn begins(
    alloc: Global,
    indication: &Indication,
    origin: RemoteId,
    components: &[Component<Parameter>],
    subscriber: Option<&Record>,
    now: u64,
    new: Tid,
) -> Result<Outcome, AllocError>
    requires early { now ≤ 2 ^ 62 }
    requires begin { IsBeginOf indication.now.verdict origin
        (map (component parameter) components.now) }
    ensures leaves { IfOk result (λ left. (here : Local) (name : Option (List ℕ)) → here.clock ≡ now
        → indication.now.verdict ≡ Read (machine.Begin origin name
        (map (component parameter) components.now))
        → IfSome subscriber.entry (λ s. s.now.imsi ≡ here.imsi)
        → here.record_of ≡ known subscriber.entry → outcome_of here None [] left
        ≡ begins here indication.now.from origin name
        (map (component parameter) components.now) new) }
    ensures writable { IfOk result (λ left. CanBeWritten left.after
        (option_copied subscriber.entry)) }
{
    let from = indication.from();
    match accept(requested(indication), components.len()) {
        Accepted::Go(context) => {
            let source = Source {
                from,
                origin,
                context,
            };
            begins_in(alloc, source, components, subscriber, now, new)
        }
        Accepted::Refuse(why) => Ok(only(Addressed {
            to: from,
            message: SentMessage::Abort {
                destination: origin,
                why,
            },
        })),
    }
}
