//! Timers by time, for callers that know the deadline of each invocation.

ghost use Rattle.std.specs.Prelude.{◌≡◌, OnOk, OnErr, IfOk, IfSome, IfNone, not};
ghost use Rattle.std.specs.FinSet as set;
ghost use Rattle.deadlines.specs.First.{IsFirst};
ghost use Rattle.deadlines.specs.Timers.{IsIn, IsLeastOf, NoneDueOf};

use crate::timer::Timer;
use std::alloc::{AllocError, Global};
use std::collections::BTreeSet;
use std::marker::Model;

/// Timers in the order in which they expire. Contracts see them as a finite set.
#[derive(Drop)]
pub struct Timers {
    by_deadline: BTreeSet<Timer>,
}

impl Model for Timers {
    ghost use Rattle.std.specs.FinSet as set;
    ghost use Rattle.deadlines.specs.Timers.{TimerSet, timer_set_code};

    ghost Value = { TimerSet };

    ghost coded = { timer_set_code };

    ghost view = { λ a. set.from_list a.by_deadline.keys };
}

impl Timers {
    /// No timer.
    pub fn new(alloc: Global) -> Self
        ensures { result ≡ set.empty }
    {
        Timers {
            by_deadline: BTreeSet::new(alloc),
        }
    }

    /// Inserts a timer, and returns whether it was missing. On error nothing changes.
    pub fn insert(&mut self, timer: Timer) -> Result<bool, AllocError>
        ensures ok { OnOk result (self.new ≡ set.insert self.old timer) }
        ensures is_new { IfOk result (λ is_new. is_new ≡ not (set.contains self.old timer)) }
        ensures err { OnErr result (self.new ≡ self.old) }
    {
        Ok(self.by_deadline.insert(timer)?)
    }

    /// Removes a timer, if it is there. Does not allocate.
    pub fn remove(&mut self, timer: &Timer)
        ensures { self.new ≡ set.remove self.old timer.now }
    {
        self.by_deadline.remove(timer);
    }

    /// The least of the timers that are not after `now`: by time, then by the octets of the local id, then by the invoke id as
    /// a signed number (profile).
    pub fn least_due(&self, now: u64) -> Option<Timer>
        ensures due { IfSome result (IsLeastOf (IsIn self.now) now) }
        ensures none { IfNone result (NoneDueOf (IsIn self.now) now) }
    {
        let Some(due) = self.by_deadline.first() else {
            return None;
        };
        if due.deadline <= now {
            Some(*due)
        } else {
            None
        }
    }

    /// The first deadline: the least of the timers, whether it is due or not.
    pub fn first_deadline(&self) -> Option<u64>
        ensures { IsFirst (IsIn self.now) result }
    {
        let Some(first) = self.by_deadline.first() else {
            return None;
        };
        Some(first.deadline)
    }

    /// An equal copy.
    pub fn try_copy(&self) -> Result<Self, AllocError>
        ensures { IfOk result (λ timers. timers ≡ self.now) }
    {
        Ok(Timers {
            by_deadline: self.by_deadline.clone()?,
        })
    }
}
