//! The timers of a dialogue's invocations, in the index of all timers.

ghost use Rattle.std.specs.Prelude.{◌≡◌, OnOk, OnErr, cond, true, false};
ghost use Rattle.deadlines.specs.declared.timer.Timer.{Timer};
ghost use Rattle.deadlines.specs.Index.{has};
ghost use Rattle.csl.specs.Tables.{has_timer, is_of, is_only};

use crate::invocation::Invocation;
use deadlines::Timers;
use hlr_types::Tid;
use std::alloc::AllocError;

/// Whether one of these invocations has the invoke id of this one and its deadline.
fn has_timer(list: &[Invocation], own: &Invocation) -> bool
    ensures { result ≡ has_timer list.now own.now.id own.now.deadline }
{
    list.iter().any(|other| other.is_timed_as(own))
}

/// Inserts the timers of these invocations of a dialogue, if they are missing. On error nothing changes.
pub(crate) fn insert_timers(
    timers: &mut Timers,
    id: Tid,
    list: &[Invocation],
) -> Result<(), AllocError>
    ensures ok { OnOk result ((t : Timer) → has timers.new t
        ≡ cond (is_of id list.now t) true (has timers.old t)) }
    ensures err { OnErr result (timers.new ≡ timers.old) }
{
    let [own, rest @ ..] = list else {
        return Ok(());
    };
    let timer = own.timer(id);
    let is_new = timers.insert(timer)?;
    if rest.is_empty() {
        return Ok(());
    }
    let Err(refused) = insert_timers(timers, id, rest) else {
        return Ok(());
    };
    if is_new {
        timers.remove(&timer);
    }
    Err(refused)
}

/// Removes the timers that these invocations of a dialogue have and those others do not. Does not allocate.
pub(crate) fn remove_timers(
    timers: &mut Timers,
    id: Tid,
    list: &[Invocation],
    others: &[Invocation],
)
    ensures { (t : Timer) → has timers.new t
        ≡ cond (is_only id list.now others.now t) false (has timers.old t) }
{
    let [own, rest @ ..] = list else {
        return;
    };
    if !has_timer(others, own) {
        timers.remove(&own.timer(id));
    }
    remove_timers(timers, id, rest, others);
}
