//! The deadlines, indexed by invocation and by time.

ghost use Rattle.std.specs.Prelude.{◌≡◌, OnOk, OnErr, IfOk, IfSome, IfNone, FitsSigned, Some};
ghost use Rattle.std.specs.Int.{w8};
ghost use Rattle.std.specs.FinMap as map;
ghost use Rattle.deadlines.specs.Timers.{IsLeastDue, NoneDue, invocation_of, timer_of, set_all};

use crate::index::put_each;
use crate::timer::{Invocation, Timer};
use crate::timers::Timers;
use hlr_types::Tid;
use std::alloc::{AllocError, Global};
use std::collections::BTreeMap;
use std::marker::Model;

/// The deadlines of invocations. Contracts see them as a finite map from invocation to time.
#[derive(Drop)]
pub struct Deadlines {
    by_invocation: BTreeMap<Invocation, u64>,
    by_deadline: Timers,
}

impl Model for Deadlines {
    ghost use Rattle.std.specs.FinMap as map;
    ghost use Rattle.deadlines.specs.Timers.{DeadlineMap, deadline_map_code};

    ghost Value = { DeadlineMap };

    ghost coded = { deadline_map_code };

    ghost use Rattle.deadlines.specs.Index.{IsIndex, deadline_of, has};

    ghost view = { λ a. map.from_entries a.by_invocation.entries };

    ghost invariant = { λ a. IsIndex (deadline_of a.by_invocation) (has a.by_deadline) };
}

impl Deadlines {
    /// No deadline.
    pub fn new(alloc: Global) -> Self
        ensures { result ≡ map.empty }
    {
        Deadlines {
            by_invocation: BTreeMap::new(alloc),
            by_deadline: Timers::new(alloc),
        }
    }

    /// Sets the deadline of an invocation; replaces the one that it had. On error nothing changes.
    pub fn set(&mut self, id: Tid, invoke: i8, deadline: u64) -> Result<(), AllocError>
        ensures ok { OnOk result (self.new
            ≡ map.insert self.old (invocation_of id invoke) deadline) }
        ensures err { OnErr result (self.new ≡ self.old) }
    {
        self.set_timer(Timer {
            deadline,
            invocation: Invocation { id, invoke },
        })
    }

    /// Like `set`, for callers that have a `Timer`.
    pub fn set_timer(&mut self, timer: Timer) -> Result<(), AllocError>
        ensures ok { OnOk result (self.new ≡ map.insert self.old timer.invocation timer.deadline) }
        ensures err { OnErr result (self.new ≡ self.old) }
    {
        self.set_each(&[timer])
    }

    /// Sets all of these in turn; replaces the deadlines that the invocations had. On error nothing changes.
    pub fn set_each(&mut self, timers: &[Timer]) -> Result<(), AllocError>
        ensures ok { OnOk result (self.new ≡ set_all self.old timers.now) }
        ensures err { OnErr result (self.new ≡ self.old) }
    {
        put_each(&mut self.by_invocation, &mut self.by_deadline, timers)
    }

    /// Removes the deadline of an invocation, if it has one. Does not allocate.
    pub fn clear(&mut self, id: Tid, invoke: i8)
        ensures { self.new ≡ map.remove self.old (invocation_of id invoke) }
    {
        self.clear_timer(Invocation { id, invoke });
    }

    /// Like `clear`, for callers that have an `Invocation`.
    pub fn clear_timer(&mut self, invocation: Invocation)
        ensures { self.new ≡ map.remove self.old invocation }
    {
        if let Some(deadline) = self.by_invocation.remove(&invocation) {
            self.by_deadline.remove(&Timer {
                deadline,
                invocation,
            });
        }
    }

    /// The deadline of an invocation.
    pub fn get(&self, invocation: Invocation) -> Option<u64>
        ensures { result ≡ map.get self.now invocation }
    {
        self.by_invocation.get(&invocation).copied()
    }

    /// The least of the deadlines that are not after `now`: by time, then by the octets of the local id, then by the invoke id
    /// as a signed number (profile).
    pub fn least_due(&self, now: u64) -> Option<(u64, Tid, i8)>
        ensures due { IfSome result (λ due. IsLeastDue self.now now (timer_of due.0 due.1 due.2)) }
        ensures none { IfNone result (NoneDue self.now now) }
        // Callers that put the invoke id into a key need its range.
        ensures invoke_fits { IfSome result (λ due. FitsSigned w8 due.2) }
    {
        let Timer {
            deadline,
            invocation,
        } = self.least_timer(now)?;
        let Invocation { id, invoke } = invocation;
        Some((deadline, id, invoke))
    }

    /// Like `least_due`, for callers that use a `Timer`.
    pub fn least_timer(&self, now: u64) -> Option<Timer>
        ensures due { IfSome result (IsLeastDue self.now now) }
        ensures none { IfNone result (NoneDue self.now now) }
    {
        self.by_deadline.least_due(now)
    }

    /// An equal copy.
    pub fn try_copy(&self) -> Result<Self, AllocError>
        ensures { IfOk result (λ deadlines. deadlines ≡ self.now) }
    {
        Ok(Deadlines {
            by_invocation: self.by_invocation.clone()?,
            by_deadline: self.by_deadline.try_copy()?,
        })
    }
}
