//! What received components do to the own invocations of one dialogue (Q.774, component sublayer).

ghost use Rattle.std.specs.Prelude.{◌≡◌, ◌≤◌, ◌^◌, ◌++◌, map, [], false, IfOk, OnOk, option_to_list};
ghost use Rattle.std.specs.List.{list_any};
ghost use Rattle.machine.specs.State.{Invocation, is_sent};
ghost use Rattle.machine.specs.Effect.{AreRising, conclusion_of, effect};
ghost use Rattle.csl.specs.Seen.{heard};
ghost use Rattle.csl.specs.Effects.{IsEffect, concluded, offered};

use crate::list::{Few, any_sent, conclude};
use crate::offer::{Conclusion, Effect, Offer};
use crate::problems::{first_heard, rejection_of};
use crate::remaining::Remaining;
use q773_comp::{Component, Rejection};
use std::alloc::{AllocError, Global};

/// The conclusion: whether an invocation has failed, and whether one still waits for its answer.
#[tactic(auto, unfolding(machine::specs::Effect::conclusion_of))]
fn conclusion_of(has_failed: bool, still_sent: bool) -> Conclusion
    ensures { concluded result ≡ conclusion_of has_failed still_sent }
{
    if has_failed {
        Conclusion::HasFailed
    } else if still_sent {
        Conclusion::GoesOn
    } else {
        Conclusion::HasSucceeded
    }
}

/// Appends a Reject, if there is one.
fn push_rejection(
    rejects: &mut Vec<Rejection>,
    rejection: Option<Rejection>,
) -> Result<(), AllocError>
    ensures { OnOk result (rejects.new.items ≡ rejects.old.items ++ option_to_list rejection) }
{
    if let Some(rejection) = rejection {
        rejects.push(rejection)?;
    }
    Ok(())
}

/// The effect of no component.
fn effect_of_none(alloc: Global, list: Few) -> Effect
    requires { AreRising list.items }
    ensures rejects { result.rejects.items ≡ [] }
    ensures started { result.started ≡ None }
    ensures left { result.left ≡ list.items }
    ensures conclusion { concluded result.conclusion ≡ conclusion_of false
        (list_any (λ (own : Invocation). is_sent own.was) list.items) }
{
    Effect {
        rejects: Vec::new(alloc),
        started: None,
        conclusion: conclusion_of(false, any_sent(&list)),
        left: Remaining::of(list),
    }
}

/// Applies the components to these invocations, one by one, and returns the effect.
pub(crate) fn receive_each<P>(
    alloc: Global,
    offer: &Offer,
    mut list: Few,
    components: &[Component<P>],
    now: u64,
) -> Result<Effect, AllocError>
    requires rising { AreRising list.items }
    requires early { now ≤ 2 ^ 62 }
    ensures { IfOk result (λ answer. IsEffect answer
        (effect now (offered offer.now) list.items (map heard components.now))) }
{
    let [first, rest @ ..] = components else {
        return Ok(effect_of_none(alloc, list));
    };
    let (started, rejection) = first_heard(offer, &list, first);
    let mut rejects = Vec::new(alloc);
    push_rejection(&mut rejects, rejection)?;
    let mut has_failed = conclude(&mut list, first, now);
    for component in rest {
        let rejection = rejection_of(offer, &list, started, false, component);
        push_rejection(&mut rejects, rejection)?;
        has_failed |= conclude(&mut list, component, now);
    }
    let still_sent = any_sent(&list);
    Ok(Effect {
        rejects,
        started,
        conclusion: conclusion_of(has_failed, still_sent),
        left: Remaining::of(list),
    })
}

/// What the components of a Begin do. Its dialogue has no invocations yet.
pub fn effect_of_begin<P>(
    alloc: Global,
    offer: &Offer,
    components: &[Component<P>],
    now: u64,
) -> Result<Effect, AllocError>
    requires { now ≤ 2 ^ 62 }
    ensures { IfOk result (λ answer. IsEffect answer
        (effect now (offered offer.now) [] (map heard components.now))) }
{
    receive_each(alloc, offer, Few::new(alloc), components, now)
}
