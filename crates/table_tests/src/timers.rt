//! Deadlines in order, and out of memory.

ghost use Rattle.std.specs.Prelude.{◌<◌, ◌^◌};

use deadlines::{Deadlines, Invocation, Timer};
use hlr_types::Tid;
use std::process::Abort;
use std::test::Fail;

macro_rules! invocation {
    ($id:expr, $invoke:expr) => {
        Invocation {
            id: $id,
            invoke: $invoke,
        }
    };
}

macro_rules! timer {
    ($deadline:expr, $invocation:expr) => {
        Timer {
            deadline: $deadline,
            invocation: $invocation,
        }
    };
}

/// A call, and its expected answer.
enum Step {
    Sets(Tid, i8, u64),
    SetsTimer(Timer),
    SetsFour([Timer; 4]),
    Clears(Tid, i8),
    ClearsTimer(Invocation),
    /// The least of those that are due at this time.
    LeastIs(u64, Option<(u64, Tid, i8)>),
    DeadlineIs(Invocation, Option<u64>),
}

/// Whether this is the least that is due, as three values and as a timer.
fn is_least(deadlines: &Deadlines, now: u64, wanted: &Option<(u64, Tid, i8)>) -> bool {
    let timer = match wanted {
        Some((deadline, id, invoke)) => Some(timer!(*deadline, invocation!(*id, *invoke))),
        None => None,
    };
    deadlines.least_due(now) == *wanted && deadlines.least_timer(now) == timer
}

/// Whether a call answers as expected.
fn is_so(deadlines: &mut Deadlines, step: &Step) -> bool {
    match step {
        Step::Sets(id, invoke, deadline) => deadlines.set(*id, *invoke, *deadline).is_ok(),
        Step::SetsTimer(timer) => deadlines.set_timer(*timer).is_ok(),
        Step::SetsFour(timers) => deadlines.set_each(timers).is_ok(),
        Step::Clears(id, invoke) => {
            deadlines.clear(*id, *invoke);
            true
        }
        Step::ClearsTimer(invocation) => {
            deadlines.clear_timer(*invocation);
            true
        }
        Step::LeastIs(now, wanted) => is_least(deadlines, *now, wanted),
        Step::DeadlineIs(invocation, wanted) => deadlines.get(*invocation) == *wanted,
    }
}

fn play(rt: &impl Abort, deadlines: &mut Deadlines, steps: &[Step]) {
    for (place, step) in steps.iter().enumerate() {
        assert!(rt; is_so(deadlines, step), "step {place}");
    }
}

const FIRST: Tid = Tid([1, 0, 0, 1]);

const SECOND: Tid = Tid([1, 0, 0, 2]);

const EARLIER_SHARD: Tid = Tid([0, 9, 9, 9]);

/// Invocations 1 and 2 of each.
const FIRST_1: Invocation = invocation!(FIRST, 1);

const FIRST_2: Invocation = invocation!(FIRST, 2);

const SECOND_1: Invocation = invocation!(SECOND, 1);

const SECOND_2: Invocation = invocation!(SECOND, 2);

const ONE_BY_ONE: [Step; 16] = [
    Step::LeastIs(u64::MAX, None),
    Step::Sets(SECOND, 1, 20),
    Step::Sets(FIRST, 3, 20),
    Step::Sets(FIRST, -2, 20),
    Step::Sets(EARLIER_SHARD, 7, 30),
    Step::LeastIs(19, None),
    // The invoke id is signed.
    Step::LeastIs(20, Some((20, FIRST, -2))),
    Step::Clears(FIRST, -2),
    Step::LeastIs(20, Some((20, FIRST, 3))),
    Step::Clears(FIRST, 3),
    Step::LeastIs(20, Some((20, SECOND, 1))),
    // The new deadline replaces the old one.
    Step::Sets(SECOND, 1, 40),
    Step::LeastIs(20, None),
    Step::LeastIs(40, Some((30, EARLIER_SHARD, 7))),
    Step::DeadlineIs(SECOND_1, Some(40)),
    Step::DeadlineIs(SECOND_2, None),
];

#[test]
fn least_of_those_that_are_due(rt: HostRuntime) {
    play(&rt, &mut Deadlines::new(rt.alloc()), &ONE_BY_ONE);
}

const AT_ONCE: [Step; 9] = [
    Step::SetsTimer(timer!(10, FIRST_1)),
    Step::SetsFour([
        timer!(20, FIRST_1),
        timer!(15, FIRST_2),
        timer!(10, FIRST_1),
        timer!(12, SECOND_1),
    ]),
    // The last deadline set for an invocation counts.
    Step::LeastIs(100, Some((10, FIRST, 1))),
    Step::ClearsTimer(FIRST_1),
    Step::LeastIs(100, Some((12, SECOND, 1))),
    Step::ClearsTimer(SECOND_1),
    Step::LeastIs(100, Some((15, FIRST, 2))),
    Step::ClearsTimer(FIRST_2),
    Step::LeastIs(100, None),
];

#[test]
fn several_at_once(rt: HostRuntime) {
    play(&rt, &mut Deadlines::new(rt.alloc()), &AT_ONCE);
}

const OF_THE_COPIED: [Step; 2] = [Step::ClearsTimer(FIRST_1), Step::LeastIs(10, None)];

const OF_A_COPY: [Step; 1] = [Step::LeastIs(10, Some((10, FIRST, 1)))];

#[test]
fn a_copy_is_a_value_of_its_own(rt: HostRuntime) -> Result<(), Fail> {
    let mut deadlines = Deadlines::new(rt.alloc());
    deadlines.set_timer(timer!(10, FIRST_1))?;
    let mut copy = deadlines.try_copy()?;
    play(&rt, &mut deadlines, &OF_THE_COPIED);
    play(&rt, &mut copy, &OF_A_COPY);
    Ok(())
}

/// The timer of an invocation in shard 1.
fn timer(deadline: u64, number: u32, invoke: i8) -> Timer
    requires { number < 2 ^ 24 }
{
    let id = Tid::new(1, number);
    timer!(deadline, invocation!(id, invoke))
}

/// Removes the least deadline of both until none is left, and checks that they are the same.
fn are_same_in_order(mut left: Deadlines, mut right: Deadlines) -> bool {
    for _count in 0..64 {
        let least = left.least_timer(u64::MAX);
        if right.least_timer(u64::MAX) != least {
            return false;
        }
        if let Some(timer) = least {
            left.clear_timer(timer.invocation);
            right.clear_timer(timer.invocation);
        }
    }
    true
}

/// Timers that are set at once, for existing invocations and for new ones.
const NEW: [Timer; 12] = [
    timer!(7, invocation!(Tid([1, 0, 0, 3]), 1)),
    timer!(5, invocation!(Tid([1, 0, 0, 30]), 1)),
    timer!(9, invocation!(Tid([1, 0, 0, 31]), -1)),
    timer!(3, invocation!(Tid([1, 0, 0, 3]), 1)),
    timer!(1, invocation!(Tid([1, 0, 0, 32]), 5)),
    timer!(1, invocation!(Tid([1, 0, 0, 33]), 5)),
    timer!(1, invocation!(Tid([1, 0, 0, 34]), 5)),
    timer!(1, invocation!(Tid([1, 0, 0, 35]), 5)),
    timer!(1, invocation!(Tid([1, 0, 0, 36]), 5)),
    timer!(1, invocation!(Tid([1, 0, 0, 37]), 5)),
    timer!(1, invocation!(Tid([1, 0, 0, 38]), 5)),
    timer!(1, invocation!(Tid([1, 0, 0, 39]), 5)),
];

/// Each allocation fails in turn by `rt try --test --fail-alloc N`: on error the table equals a copy made before.
#[test]
fn refused_growths(rt: HostRuntime) {
    let mut deadlines = Deadlines::new(rt.alloc());
    for number in 0..20 {
        let _set = deadlines.set_timer(timer(number as u64 + 50, number, 1));
    }
    let Ok(copy) = deadlines.try_copy() else {
        return;
    };
    if deadlines.set_each(&NEW).is_err() {
        assert!(rt; are_same_in_order(deadlines, copy));
    }
}
