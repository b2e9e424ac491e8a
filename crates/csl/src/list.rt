//! The invocations of one dialogue, by ascending invoke id. There are few, so a look-up is a linear search.

ghost use Rattle.std.specs.Prelude.{◌≡◌, ◌<◌, ◌≤◌, ◌^◌, ◌-◌, [], ◌∷◌, position, IfOk, int_lt};
ghost use Rattle.std.specs.List.{list_any};
ghost use Rattle.machine.specs.State.{Invocation, is_sent};
ghost use Rattle.machine.specs.Effect.{AreRising, any_failed, in_sent, invocations_after};
ghost use Rattle.csl.specs.Seen.{heard};
ghost use Rattle.csl.specs.Endings.{has_id};
ghost use Rattle.csl.specs.Tables.{first_invoked, with_one};

use crate::ending::{How, ending_of, is_failing};
use crate::invocation::Invocation;
use q773_comp::Component;
use smallvec::SmallVec;
use std::alloc::{AllocError, Global};

/// The invocations of one dialogue. Nearly every dialogue has one or none, and then they have no block of their own.
pub(crate) type Few = SmallVec<Invocation, 1>;

/// A copy of these invocations. It allocates only if there are several.
pub(crate) fn copy_of(alloc: Global, list: &[Invocation]) -> Result<Few, AllocError>
    ensures { IfOk result (λ copy. copy.items ≡ list.now) }
{
    if let [own] = list {
        return Ok(Few::from_buf(alloc, [*own]));
    }
    Ok(Few::from_vec(list.to_vec(alloc)?))
}

/// The place of the invocation with this id.
pub(crate) fn place_of(list: &[Invocation], id: i8) -> Option<usize>
    ensures { result ≡ position (has_id id) list.now }
{
    list.iter().position(|own| own.id() == id)
}

/// Whether the id is that of an invocation in Operation Sent.
pub(crate) fn in_sent(list: &[Invocation], id: i8) -> bool
    ensures { result ≡ in_sent id list.now }
{
    let Some(place) = place_of(list, id) else {
        return false;
    };
    list[place].is_sent()
}

/// Whether an invocation is in Operation Sent.
pub(crate) fn any_sent(list: &[Invocation]) -> bool
    ensures { result ≡ list_any (λ (own : Invocation). is_sent own.was) list.now }
{
    list.iter().any(|own| own.is_sent())
}

/// Concludes the invocation that a component concludes, if any, and returns whether the operation failed.
pub(crate) fn conclude<P>(list: &mut Few, component: &Component<P>, now: u64) -> bool
    requires rising { AreRising list.old.items }
    requires early { now ≤ 2 ^ 62 }
    ensures after { list.new.items ≡ invocations_after now
        (heard component.now ∷ []) list.old.items }
    ensures failed { result ≡ any_failed (heard component.now ∷ []) list.old.items }
{
    let Some(ending) = ending_of(component) else {
        return false;
    };
    let Some(place) = place_of(list, ending.id) else {
        return false;
    };
    if !list[place].is_sent() {
        return false;
    }
    match ending.how {
        How::IsRejected => {
            list.remove(place);
        }
        How::Fails | How::Succeeds => list[place].wait(now),
    }
    is_failing(ending.how)
}

/// The place of the first invocation with a greater id.
fn place_above(list: &[Invocation], own: &Invocation) -> Option<usize>
    ensures { result ≡ position (λ (other : Invocation). int_lt own.now.id other.id) list.now }
{
    list.iter().position(|other| own.id() < other.id())
}

/// The list with one more invocation, at its place by ascending ids.
pub(crate) fn with_one(
    alloc: Global,
    list: &[Invocation],
    own: Invocation,
) -> Result<Few, AllocError>
    ensures { IfOk result (λ longer. longer.items ≡ with_one own list.now) }
{
    let place = place_above(list, &own).unwrap_or(list.len());
    let mut longer = Few::with_capacity(alloc, list.len() + 1)?;
    longer.extend_from_slice(&list[..place])?;
    longer.push(own)?;
    longer.extend_from_slice(&list[place..])?;
    Ok(longer)
}

/// The first invocations of a dialogue: the ids 1 to `count`, all invoked now. It allocates only if there are several.
pub(crate) fn first_invoked(alloc: Global, count: u8, now: u64) -> Result<Few, AllocError>
    requires some { 0 < count }
    requires most { count < 128 }
    requires early { now ≤ 2 ^ 62 }
    ensures { IfOk result (λ list. list.items ≡ first_invoked now (count - 1)) }
{
    if count == 1 {
        return Ok(Few::from_buf(alloc, [Invocation::sent(1, now)]));
    }
    let mut list = Vec::with_capacity(alloc, usize::from(count))?;
    list.push(Invocation::sent(1, now))?;
    for further in 0..count - 1 {
        list.push(Invocation::sent((further + 2) as i8, now))?;
    }
    Ok(Few::from_vec(list))
}
