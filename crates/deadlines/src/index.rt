//! Deadlines put into both indexes at once, all of them or none.

ghost use Rattle.std.specs.Prelude.{◌≡◌, true, false, cond, not, Some, None, IfOk, OnOk, OnErr, IsSome, IsTrue, ◌↔◌, Bool};
ghost use Rattle.deadlines.specs.declared.timer.Invocation.{Invocation};
ghost use Rattle.deadlines.specs.declared.timer.Timer.{Timer};
ghost use Rattle.deadlines.specs.Index.{deadline_of, has, is_invocation, is_timer, IsIndexBut, deadline_after, was};

use crate::timer::{Invocation, Timer};
use crate::timers::Timers;
use std::alloc::AllocError;
use std::collections::BTreeMap;

/// Sets all of these in turn, or none: if a later one fails, the earlier ones are undone.
pub(crate) fn put_each(
    by_invocation: &mut BTreeMap<Invocation, u64>,
    by_deadline: &mut Timers,
    timers: &[Timer],
) -> Result<(), AllocError>
    ensures map { OnOk result ((q : Invocation)
        → deadline_of by_invocation.new q
        ≡ deadline_after timers.now q (deadline_of by_invocation.old q)) }
    ensures index { OnOk result ((stale : Timer → Bool)
        → IsIndexBut stale (deadline_of by_invocation.old) (has by_deadline.old)
        → IsIndexBut stale (deadline_of by_invocation.new) (has by_deadline.new)) }
    ensures err_map { OnErr result ((q : Invocation)
        → deadline_of by_invocation.new q ≡ deadline_of by_invocation.old q) }
    ensures err_index { OnErr result ((t : Timer) → has by_deadline.new t ≡ has by_deadline.old t) }
{
    let [first, rest @ ..] = timers else {
        return Ok(());
    };
    let timer = *first;
    let Before { deadline, is_new } = put(by_invocation, by_deadline, timer)?;
    let Err(refused) = put_each(by_invocation, by_deadline, rest) else {
        drop_stale(by_invocation, by_deadline, timer.invocation, deadline);
        return Ok(());
    };
    give_deadline(by_invocation, timer.invocation, deadline);
    if is_new {
        by_deadline.remove(&timer);
    }
    Err(refused)
}

/// What was there before a deadline was put in: the invocation's old deadline, and whether the new one was missing in the
/// index by time.
#[derive(Clone, Copy)]
struct Before {
    deadline: Option<u64>,
    is_new: bool,
}

/// Puts a deadline into both indexes, or into none. The invocation's old deadline stays in the index by time.
fn put(
    by_invocation: &mut BTreeMap<Invocation, u64>,
    by_deadline: &mut Timers,
    timer: Timer,
) -> Result<Before, AllocError>
    ensures deadline { IfOk result (λ before. before.deadline
        ≡ deadline_of by_invocation.old timer.invocation) }
    ensures is_new { IfOk result (λ before. before.is_new ≡ not (has by_deadline.old timer)) }
    ensures map { OnOk result ((q : Invocation)
        → deadline_of by_invocation.new q
        ≡ cond (is_invocation timer.invocation q) (Some timer.deadline)
        (deadline_of by_invocation.old q)) }
    ensures index { OnOk result ((t : Timer)
        → has by_deadline.new t ≡ cond (is_timer timer t) true (has by_deadline.old t)) }
    ensures err_map { OnErr result ((q : Invocation)
        → deadline_of by_invocation.new q ≡ deadline_of by_invocation.old q) }
    ensures err_index { OnErr result ((t : Timer) → has by_deadline.new t ≡ has by_deadline.old t) }
{
    let is_new = by_deadline.insert(timer)?;
    match by_invocation.insert(timer.invocation, timer.deadline) {
        Ok(before) => Ok(Before {
            deadline: before,
            is_new,
        }),
        Err(_refused) => {
            if is_new {
                by_deadline.remove(&timer);
            }
            Err(AllocError)
        }
    }
}

/// Removes an invocation's old deadline from the index by time, unless it is also the new one.
fn drop_stale(
    by_invocation: &BTreeMap<Invocation, u64>,
    by_deadline: &mut Timers,
    invocation: Invocation,
    before: Option<u64>,
)
    ensures kept { (t : Timer) → deadline_of by_invocation.now t.invocation ≡ Some t.deadline
        → has by_deadline.new t ≡ has by_deadline.old t }
    ensures gone { (t : Timer) → has by_deadline.new t ≡ true → has by_deadline.old t ≡ true }
    ensures stale { (t : Timer) → was before invocation t ≡ true → has by_deadline.new t ≡ true
        → deadline_of by_invocation.now t.invocation ≡ Some t.deadline }
{
    let Some(deadline) = before else {
        return;
    };
    if has_deadline(by_invocation, &invocation, deadline) {
        return;
    }
    by_deadline.remove(&Timer {
        deadline,
        invocation,
    });
}

fn has_deadline(
    by_invocation: &BTreeMap<Invocation, u64>,
    invocation: &Invocation,
    deadline: u64,
) -> bool
    ensures { IsTrue result ↔ (deadline_of by_invocation.now invocation.now ≡ Some deadline) }
{
    match by_invocation.get(invocation) {
        Some(found) => *found == deadline,
        None => false,
    }
}

/// Replaces the deadline of an invocation that has one, or removes it. Does not allocate.
fn give_deadline(
    by_invocation: &mut BTreeMap<Invocation, u64>,
    invocation: Invocation,
    deadline: Option<u64>,
)
    requires { IsSome (deadline_of by_invocation.old invocation) }
    ensures { (q : Invocation) → deadline_of by_invocation.new q
        ≡ cond (is_invocation invocation q) deadline (deadline_of by_invocation.old q) }
{
    match deadline {
        Some(deadline) => {
            let _before = by_invocation.insert(invocation, deadline);
        }
        None => {
            by_invocation.remove(&invocation);
        }
    }
}
