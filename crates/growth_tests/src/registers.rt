//! A step of a state, a shard with its journal and the whole register that run out of memory.

ghost use Rattle.std.specs.Prelude.{◌<◌};

use crate::events::{EVENTS, events_from, read_event, sent_octets};
use crate::given::{are_frames, is_shown, loaded};
use bumpalo::Bump;
use hlrcore::{Event, RawEvent, State, addressee_of, route};
use records::Loaded;
use shardlog::{Handled, Keep, Shard};
use std::alloc::Global;
use wholenode::Node;

// Each call of the register has its own function without a contract, so that no test carries the contracts along.

fn state_of(alloc: Global, number: u8, loaded: &Loaded) -> Option<State>
    requires { number < 16 }
{
    State::new(alloc, number, loaded).ok()
}

fn state(alloc: Global, number: u8) -> Option<State>
    requires { number < 16 }
{
    state_of(alloc, number, &loaded(alloc)?)
}

fn copy(state: &State) -> Option<State> {
    state.try_copy().ok()
}

fn are_same(one: &State, other: &State) -> Option<bool> {
    one.same(other).ok()
}

/// Whether an event is for shard 0. One whose frame has no context that is served is for no subscriber, and so for that shard.
fn is_for_zero(state: &State, event: &Event) -> bool {
    route(state.directory(), event) == 0
}

/// Whether a step sends this, `None` if it fails.
fn stepped(state: &mut State, event: &Event, sent: &[u8]) -> Option<bool> {
    let answer = state.step(event).ok()?;
    Some(are_frames(answer.outs.as_slice(), sent))
}

/// Whether a state is as it was, and its step then sends this.
fn takes_again(state: &mut State, before: &State, event: &Event, sent: &[u8]) -> Option<bool> {
    if !are_same(state, before)? {
        return Some(false);
    }
    Some(stepped(state, event, sent) == Some(true))
}

/// Whether a state sends this for an event, at the second try if the first fails; on error it is unchanged.
fn takes(state: &mut State, event: &Event, sent: &[u8]) -> Option<bool> {
    let before = copy(state)?;
    match stepped(state, event, sent) {
        Some(is_right) => Some(is_right),
        None => takes_again(state, &before, event, sent),
    }
}

/// Whether that state of two shards does whose event it is.
fn is_stepped(zero: &mut State, one: &mut State, event: &Event, sent: &[u8]) -> Option<bool> {
    if is_for_zero(zero, event) {
        takes(zero, event, sent)
    } else {
        takes(one, event, sent)
    }
}

/// Whether two states send what they have to for an event.
fn are_sent(alloc: Global, zero: &mut State, one: &mut State, number: usize) -> Option<bool> {
    let event = read_event(alloc, number)?;
    is_stepped(zero, one, &event, sent_octets(number))
}

/// Whether they do for each event.
fn are_stepped(alloc: Global, zero: &mut State, one: &mut State) -> Option<bool> {
    for number in 0..EVENTS {
        if !are_sent(alloc, zero, one, number)? {
            return Some(false);
        }
    }
    Some(true)
}

/// Whether the states of shards 0 and 1 do.
fn all_stepped(alloc: Global) -> Option<bool> {
    let mut zero = state(alloc, 0)?;
    let mut one = state(alloc, 1)?;
    are_stepped(alloc, &mut zero, &mut one)
}

#[test]
fn steps(rt: HostRuntime) {
    assert!(rt; is_shown(&rt, all_stepped(rt.alloc())));
}

fn shard_of(alloc: Global, state: State, keep: Keep) -> Option<Shard> {
    Shard::new(alloc, state, keep).ok()
}

fn shard(alloc: Global, number: u8, keep: Keep) -> Option<Shard>
    requires { number < 16 }
{
    shard_of(alloc, state(alloc, number)?, keep)
}

fn count(shard: &Shard) -> usize {
    shard.entries().len()
}

/// How many entries an event has.
fn each(shard: &Shard) -> usize {
    match shard.keep() {
        Keep::Entries => 1,
        Keep::Nothing => 0,
    }
}

/// Whether the journal has one more entry than so many, if entries are kept.
fn has_grown(shard: &Shard, first: usize) -> bool {
    count(shard) == first.saturating_add(each(shard))
}

fn handle(shard: &mut Shard, event: &mut Event) -> Option<Handled> {
    let found = addressee_of(shard.state().directory(), event);
    shard.handle(event, found).ok()
}

/// Whether a shard sends this, `None` if it fails.
fn handled(shard: &mut Shard, event: &mut Event, sent: &[u8]) -> Option<bool> {
    let handled = handle(shard, event)?;
    Some(are_frames(handled.outs.as_slice(), sent))
}

/// Whether a shard is as it was, with so many entries.
fn is_as_before(shard: &Shard, before: &State, first: usize) -> Option<bool> {
    Some(are_same(shard.state(), before)? && count(shard) == first)
}

/// Whether a shard sends this, and its journal has then grown from so many entries, `None` if it fails.
fn is_entered(shard: &mut Shard, event: &mut Event, sent: &[u8], first: usize) -> Option<bool> {
    Some(handled(shard, event, sent)? && has_grown(shard, first))
}

/// Whether a shard is as it was, with so many entries, and then sends this.
fn journals_again(
    shard: &mut Shard,
    before: &State,
    event: &mut Event,
    sent: &[u8],
    first: usize,
) -> Option<bool> {
    if !is_as_before(shard, before, first)? {
        return Some(false);
    }
    Some(is_entered(shard, event, sent, first) == Some(true))
}

/// Whether a shard sends this for an event, at the second try if the first fails; on error it is unchanged.
fn journals(shard: &mut Shard, event: &mut Event, sent: &[u8]) -> Option<bool> {
    let before = copy(shard.state())?;
    let first = count(shard);
    match is_entered(shard, event, sent, first) {
        Some(is_right) => Some(is_right),
        None => journals_again(shard, &before, event, sent, first),
    }
}

/// Whether that shard of two does whose event it is.
fn is_journalled(
    zero: &mut Shard,
    one: &mut Shard,
    event: &mut Event,
    sent: &[u8],
) -> Option<bool> {
    if is_for_zero(zero.state(), event) {
        journals(zero, event, sent)
    } else {
        journals(one, event, sent)
    }
}

/// Whether two shards send what they have to for an event.
fn are_entered(alloc: Global, zero: &mut Shard, one: &mut Shard, number: usize) -> Option<bool> {
    let mut event = read_event(alloc, number)?;
    is_journalled(zero, one, &mut event, sent_octets(number))
}

/// Whether they do for each event.
fn are_journalled(alloc: Global, zero: &mut Shard, one: &mut Shard) -> Option<bool> {
    for number in 0..EVENTS {
        if !are_entered(alloc, zero, one, number)? {
            return Some(false);
        }
    }
    Some(true)
}

/// Whether shards 0 and 1 do.
fn all_journalled(alloc: Global, keep: Keep) -> Option<bool> {
    let mut zero = shard(alloc, 0, keep)?;
    let mut one = shard(alloc, 1, keep)?;
    are_journalled(alloc, &mut zero, &mut one)
}

#[test]
fn journals_of_a_shard(rt: HostRuntime) {
    assert!(rt; is_shown(&rt, all_journalled(rt.alloc(), Keep::Entries)));
    assert!(rt; is_shown(&rt, all_journalled(rt.alloc(), Keep::Nothing)));
}

fn node_of(alloc: Global, loaded: Loaded, keep: Keep) -> Option<Node> {
    Node::new(alloc, loaded, keep, 0).ok()
}

fn node(alloc: Global, keep: Keep) -> Option<Node> {
    node_of(alloc, loaded(alloc)?, keep)
}

/// What a register hands out for events, up to the first that it does not handle.
fn run(alloc: Global, node: &mut Node, events: &[RawEvent]) -> Vec<Handled> {
    match node.run(&mut Bump::new(alloc), events) {
        Ok(done) => done,
        Err(fault) => fault.done,
    }
}

/// Whether events from this one on are answered by what is to be sent for each.
fn are_right(done: &[Handled], first: usize) -> bool {
    let mut number = first;
    for handled in done {
        if !are_frames(handled.outs.as_slice(), sent_octets(number)) {
            return false;
        }
        number = number.saturating_add(1);
    }
    true
}

/// Has a register run the events from this one on, and returns the number of the first that it does not handle, one beyond all if
/// another is answered wrongly.
fn run_from(alloc: Global, node: &mut Node, first: usize) -> Option<usize> {
    let events = events_from(alloc, first)?;
    let done = run(alloc, node, &events);
    if !are_right(&done, first) {
        return Some(usize::MAX);
    }
    Some(first.saturating_add(done.len()))
}

/// Whether a register runs all events, those after a failure by a second call.
fn all_run(alloc: Global, keep: Keep) -> Option<bool> {
    let mut node = node(alloc, keep)?;
    let next = run_from(alloc, &mut node, 0)?;
    Some(run_from(alloc, &mut node, next)? == EVENTS)
}

#[test]
fn whole_register(rt: HostRuntime) {
    assert!(rt; is_shown(&rt, all_run(rt.alloc(), Keep::Entries)));
    assert!(rt; is_shown(&rt, all_run(rt.alloc(), Keep::Nothing)));
}
