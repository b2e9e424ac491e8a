//! Components of a dialogue with two inserts, timers in order, and out of memory.

use csl::{Conclusion, CslFault, Due, Effect, Invocations, Offer, Was};
use hlr_types::Tid;
use q773_comp::{Code, Component, Rejection, Side};
use std::alloc::Global;
use std::process::Abort;
use std::test::Fail;

const INSERT_SUBSCRIBER_DATA: u8 = 7;

const DIALOGUE: Tid = Tid([2, 0, 0, 1]);

const OTHER: Tid = Tid([2, 0, 0, 2]);

/// The offer in an update's dialogue: the peer's Invoke 1 is open.
const UPDATING: Offer = Offer {
    open_id: Some(1),
    operation: Some(2),
    may_start: false,
    typed: false,
};

macro_rules! rejection {
    ($id:expr, $side:expr, $problem:expr) => {
        Rejection {
            id: Some($id),
            side: $side,
            problem: $problem,
        }
    };
}

/// An updateLocation with this id, and its linked id.
macro_rules! updating {
    ($id:expr, $linked:expr) => {
        Component::Invoke {
            id: $id,
            linked: $linked,
            operation: Code::Number(2),
            parameter: Some(0),
        }
    };
}

/// Components received at a time, and their expected effect.
struct Received {
    components: &'static [Component<u8>],
    now: u64,
    rejects: &'static [Rejection],
    conclusion: Conclusion,
}

/// A call, and its expected answer. Without an id it is for the one dialogue.
enum Step {
    /// Invokes 1 and 2, at the time 0.
    InvokesTwo,
    /// Invokes an insert under this id, at this time.
    Invokes(Tid, i8, u64, Result<(), CslFault>),
    Receives(Received),
    /// First `effect`, then `leave`.
    TellsAndLeaves(Received),
    Lists(&'static [(i8, Was, u64)]),
    Forgets,
    ForgetsOne(Tid, i8),
    LeastIs(u64, Option<Due>),
    Expires(u64, Option<(Tid, i8, Was)>),
}

fn invokes(table: &mut Invocations, id: Tid, invoke: i8, now: u64) -> Option<Result<(), CslFault>> {
    if now > 1 << 62 {
        return None;
    }
    Some(table.invoke(id, invoke, INSERT_SUBSCRIBER_DATA, now))
}

/// Whether an effect is the expected one, and nothing started.
fn is_effect(effect: &Effect, wanted: &Received) -> bool {
    effect.rejects.as_slice() == wanted.rejects
        && effect.conclusion == wanted.conclusion
        && effect.started == None
}

fn receives(table: &mut Invocations, wanted: &Received) -> Option<bool> {
    if wanted.now > 1 << 62 {
        return None;
    }
    let effect = table
        .receive(DIALOGUE, &UPDATING, wanted.components, wanted.now)
        .ok()?;
    Some(is_effect(&effect, wanted))
}

fn tells_and_leaves(table: &mut Invocations, wanted: &Received) -> Option<bool> {
    if wanted.now > 1 << 62 {
        return None;
    }
    let effect = table
        .effect(DIALOGUE, &UPDATING, wanted.components, wanted.now)
        .ok()?;
    let is_wanted = is_effect(&effect, wanted);
    table.leave(DIALOGUE, &effect.left).ok()?;
    Some(is_wanted)
}

fn lists(table: &Invocations, wanted: &[(i8, Was, u64)]) -> Option<bool> {
    Some(table.list(DIALOGUE).ok()?.as_slice() == wanted)
}

/// Whether a call answers as expected.
fn is_so(table: &mut Invocations, step: &Step) -> Option<bool> {
    match step {
        Step::InvokesTwo => Some(table.invoke_each(DIALOGUE, 2, 0).is_ok()),
        Step::Invokes(id, invoke, now, wanted) => {
            Some(invokes(table, *id, *invoke, *now)? == *wanted)
        }
        Step::Receives(wanted) => receives(table, wanted),
        Step::TellsAndLeaves(wanted) => tells_and_leaves(table, wanted),
        Step::Lists(wanted) => lists(table, wanted),
        Step::Forgets => {
            table.forget(DIALOGUE);
            Some(true)
        }
        Step::ForgetsOne(id, invoke) => {
            table.forget_one(*id, *invoke);
            Some(true)
        }
        Step::LeastIs(now, due) => Some(table.least_due(*now) == *due),
        Step::Expires(now, due) => Some(table.expire(*now) == *due),
    }
}

fn play(rt: &impl Abort, table: &mut Invocations, steps: &[Step]) {
    for (place, step) in steps.iter().enumerate() {
        assert!(rt; is_so(table, step) == Some(true), "step {place}");
    }
}

const TWO_INSERTS: [Step; 9] = [
    Step::InvokesTwo,
    Step::Lists(&[(1, Was::Sent, 20), (2, Was::Sent, 20)]),
    // 1 is not answered.
    Step::Receives(Received {
        components: &[Component::ResultLast { id: 2 }],
        now: 1,
        rejects: &[],
        conclusion: Conclusion::GoesOn,
    }),
    Step::Lists(&[(1, Was::Sent, 20), (2, Was::Waiting, 6)]),
    Step::TellsAndLeaves(Received {
        components: &[Component::ResultLast { id: 1 }],
        now: 3,
        rejects: &[],
        conclusion: Conclusion::HasSucceeded,
    }),
    Step::Lists(&[(1, Was::Waiting, 8), (2, Was::Waiting, 6)]),
    Step::Forgets,
    Step::Lists(&[]),
    Step::LeastIs(100, None),
];

#[test]
fn two_inserts(rt: HostRuntime) {
    play(&rt, &mut Invocations::new(rt.alloc()), &TWO_INSERTS);
}

const LATE_AND_LINKED: [Step; 4] = [
    Step::InvokesTwo,
    Step::Receives(Received {
        components: &[Component::ResultLast { id: 1 }],
        now: 1,
        rejects: &[],
        conclusion: Conclusion::GoesOn,
    }),
    // The result again.
    Step::Receives(Received {
        components: &[Component::ResultLast { id: 1 }],
        now: 2,
        rejects: &[rejection!(1, Side::OfResult, 0)],
        conclusion: Conclusion::GoesOn,
    }),
    // The id of the peer's invoke again, one linked to none, and one to an insert.
    Step::Receives(Received {
        components: &[
            updating!(1, None),
            updating!(5, Some(9)),
            updating!(5, Some(2)),
        ],
        now: 2,
        rejects: &[
            rejection!(1, Side::OfInvoke, 0),
            rejection!(5, Side::OfInvoke, 5),
            rejection!(5, Side::OfInvoke, 6),
        ],
        conclusion: Conclusion::GoesOn,
    }),
];

#[test]
fn late_and_linked_components(rt: HostRuntime) {
    play(&rt, &mut Invocations::new(rt.alloc()), &LATE_AND_LINKED);
}

const UNKNOWN_INVOKE: [Step; 4] = [
    Step::Receives(Received {
        components: &[Component::ResultLast { id: 9 }],
        now: 1,
        rejects: &[rejection!(9, Side::OfResult, 0)],
        conclusion: Conclusion::HasSucceeded,
    }),
    Step::Invokes(DIALOGUE, 9, 1, Ok(())),
    Step::Receives(Received {
        components: &[Component::ReturnError {
            id: 9,
            error: Code::Number(34),
        }],
        now: 1,
        rejects: &[],
        conclusion: Conclusion::HasFailed,
    }),
    Step::Invokes(DIALOGUE, 9, 1, Err(CslFault::IdInUse)),
];

#[test]
fn result_of_unknown_invoke(rt: HostRuntime) {
    play(&rt, &mut Invocations::new(rt.alloc()), &UNKNOWN_INVOKE);
}

const THREE_INVOKED: [Step; 3] = [
    Step::Invokes(OTHER, 1, 0, Ok(())),
    Step::Invokes(DIALOGUE, 3, 0, Ok(())),
    Step::Invokes(DIALOGUE, -3, 0, Ok(())),
];

const ONE_AT_A_TIME: [Step; 6] = [
    Step::Expires(19, None),
    Step::LeastIs(
        20,
        Some(Due {
            id: DIALOGUE,
            invoke: -3,
            was: Was::Sent,
        }),
    ),
    Step::Expires(20, Some((DIALOGUE, -3, Was::Sent))),
    Step::Expires(20, Some((DIALOGUE, 3, Was::Sent))),
    Step::ForgetsOne(OTHER, 1),
    Step::Expires(20, None),
];

const OF_A_COPY: [Step; 1] = [Step::Lists(&[(-3, Was::Sent, 20), (3, Was::Sent, 20)])];

#[test]
fn one_expires_at_a_time(rt: HostRuntime) -> Result<(), Fail> {
    let mut table = Invocations::new(rt.alloc());
    play(&rt, &mut table, &THREE_INVOKED);
    let mut copy = table.try_copy()?;
    play(&rt, &mut table, &ONE_AT_A_TIME);
    play(&rt, &mut copy, &OF_A_COPY);
    Ok(())
}

/// Removes the least timer of both until none is left, and checks that they are the same.
fn are_same_in_order(mut left: Invocations, mut right: Invocations) -> bool {
    for _count in 0..64 {
        if left.expire(u64::MAX) != right.expire(u64::MAX) {
            return false;
        }
    }
    true
}

/// The results of 1 to 3.
const RESULTS: [Component<u8>; 3] = [
    Component::ResultLast { id: 1 },
    Component::ResultLast { id: 2 },
    Component::ResultLast { id: 3 },
];

/// Twelve dialogues with four invocations each, as far as there is memory.
fn with_many(alloc: Global) -> Invocations {
    let mut table = Invocations::new(alloc);
    for number in 0..12 {
        let _begun = table.invoke_each(Tid::new(3, number), 4, number as u64);
    }
    table
}

/// Each allocation fails in turn by `rt try --test --fail-alloc N`: on error the table equals a copy made before.
#[test]
fn refused_results(rt: HostRuntime) {
    let mut table = with_many(rt.alloc());
    let Ok(copy) = table.try_copy() else {
        return;
    };
    let received = table.receive(Tid::new(3, 5), &UPDATING, &RESULTS, 9);
    if received.is_err() {
        assert!(rt; are_same_in_order(table, copy));
    }
}

/// The same for one more invocation, in a new dialogue and in an existing one.
#[test]
fn refused_invocations(rt: HostRuntime) {
    let mut table = with_many(rt.alloc());
    let _received = table.receive(Tid::new(3, 5), &UPDATING, &RESULTS, 9);
    let Ok(copy) = table.try_copy() else {
        return;
    };
    let (other, same) = (Tid::new(3, 77), Tid::new(3, 5));
    if table.invoke(other, 1, INSERT_SUBSCRIBER_DATA, 9).is_err()
        || table.invoke(same, 9, INSERT_SUBSCRIBER_DATA, 9).is_err()
    {
        table.forget(other);
        assert!(rt; are_same_in_order(table, copy));
    }
}
