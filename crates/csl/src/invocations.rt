//! The own invocations of a shard (Q.774, component sublayer).

ghost use Rattle.std.specs.Prelude.{◌≡◌, ◌<◌, ◌≤◌, ◌^◌, ◌-◌, ◌↔◌, [], map, Some, Err, IsSome, IfOk, IfSome, IfNone, OnOk, OnErr, FitsSigned};
ghost use Rattle.std.specs.Int.{w8};
ghost use Rattle.std.specs.FinMap as finite;
ghost use Rattle.machine.specs.Effect.{AreRising, effect};
ghost use Rattle.machine.specs.Expiries.{without};
ghost use Rattle.machine.specs.Outcome.{invoked};
ghost use Rattle.machine.specs.Deadlines.{IsFirst};
ghost use Rattle.machine.specs.Turns.{invocation_of};
ghost use Rattle.csl.specs.Seen.{heard, told_of, was};
ghost use Rattle.csl.specs.Effects.{IsEffect, offered};
ghost use Rattle.csl.specs.Expiring.{Expires, IsNext, NoneDue};
ghost use Rattle.csl.specs.First.{IsTimerOf};
ghost use Rattle.csl.specs.Tables.{first_invoked, invocations_at, put_list, with_one};

use crate::effect::receive_each;
use crate::fault::CslFault;
use crate::invocation::Invocation;
use crate::list::{Few, copy_of, first_invoked, place_of, with_one};
use crate::lists::Lists;
use crate::offer::{Due, Effect, Offer};
use crate::remaining::Remaining;
use crate::timers::{insert_timers, remove_timers};
use crate::was::Was;
use deadlines::Timers;
use hlr_types::Tid;
use q773_comp::Component;
use std::alloc::{AllocError, Global};
use std::marker::Model;

/// The own invocations of a shard's dialogues.
#[derive(Drop)]
pub struct Invocations {
    alloc: Global,
    lists: Lists,
    timers: Timers,
}

impl Model for Invocations {
    ghost use Rattle.csl.specs.Tables.{HaveTimers, InvocationLists, lists_code};

    ghost Value = { InvocationLists };

    ghost coded = { lists_code };

    ghost view = { λ a. a.lists };

    ghost invariant = { λ a. HaveTimers a.lists a.timers };
}

impl Invocations {
    /// No invocation.
    pub fn new(alloc: Global) -> Self
        ensures { result ≡ finite.empty }
    {
        Invocations {
            alloc,
            lists: Lists::new(alloc),
            timers: Timers::new(alloc),
        }
    }

    /// Invokes an operation (TC-INVOKE): its invoke id goes to Operation Sent, with its timer. The operation is not used: all are
    /// of class 1 (profile). On error nothing changes.
    pub fn invoke(&mut self, id: Tid, invoke: i8, _operation: u8, now: u64) -> Result<(), CslFault>
        requires { now ≤ 2 ^ 62 }
        ensures ok { OnOk result (self.new
            ≡ put_list self.old id (with_one (invoked now invoke)
            (invocations_at self.old id))) }
        ensures in_use { result ≡ Err CslFault.IdInUse
            ↔ IsSome (invocation_of invoke (invocations_at self.old id)) }
        ensures err { OnErr result (self.new ≡ self.old) }
    {
        let list = self.lists.at(id);
        if place_of(list, invoke).is_some() {
            return Err(CslFault::IdInUse);
        }
        let own = Invocation::sent(invoke, now);
        let longer = with_one(self.alloc, list, own)?;
        self.replace(id, longer)?;
        Ok(())
    }

    /// Invokes the ids 1 to `count` in a dialogue that opens, all of them or none. They replace any invocations that the
    /// dialogue had.
    pub fn invoke_each(&mut self, id: Tid, count: u8, now: u64) -> Result<(), AllocError>
        requires some { 0 < count }
        requires most { count < 128 }
        requires early { now ≤ 2 ^ 62 }
        ensures ok { OnOk result (self.new ≡ put_list self.old id (first_invoked now (count - 1))) }
        ensures err { OnErr result (self.new ≡ self.old) }
    {
        let list = first_invoked(self.alloc, count, now)?;
        self.replace(id, list)
    }

    /// Returns what received components do to the invocations of a dialogue, and what they leave of them. Changes nothing.
    pub fn effect<P>(
        &self,
        id: Tid,
        offer: &Offer,
        components: &[Component<P>],
        now: u64,
    ) -> Result<Effect, AllocError>
        requires { now ≤ 2 ^ 62 }
        ensures { IfOk result (λ answer. IsEffect answer
            (effect now (offered offer.now) (invocations_at self.now id)
            (map heard components.now))) }
    {
        let list = copy_of(self.alloc, self.lists.at(id))?;
        receive_each(self.alloc, offer, list, components, now)
    }

    /// Applies received components to the invocations of a dialogue and their timers, and returns the effect. On error nothing
    /// changes.
    pub fn receive<P>(
        &mut self,
        id: Tid,
        offer: &Offer,
        components: &[Component<P>],
        now: u64,
    ) -> Result<Effect, AllocError>
        requires { now ≤ 2 ^ 62 }
        ensures effect { IfOk result (λ answer. IsEffect answer
            (effect now (offered offer.now) (invocations_at self.old id)
            (map heard components.now))) }
        ensures moved { OnOk result (self.new
            ≡ put_list self.old id (effect now (offered offer.now) (invocations_at self.old id)
            (map heard components.now)).invocations) }
        ensures err { OnErr result (self.new ≡ self.old) }
    {
        let effect = self.effect(id, offer, components, now)?;
        self.leave(id, &effect.left)?;
        Ok(effect)
    }

    /// Leaves a dialogue these invocations in place of its own, with their timers. On error nothing changes.
    pub fn leave(&mut self, id: Tid, left: &Remaining) -> Result<(), AllocError>
        ensures ok { OnOk result (self.new ≡ put_list self.old id left.now) }
        ensures err { OnErr result (self.new ≡ self.old) }
    {
        let list = left.list(self.alloc)?;
        self.replace(id, list)
    }

    /// The least of the timers that are not after `now`: by time, then by the octets of the local id, then by the invoke id as a
    /// signed number (profile).
    pub fn least_due(&self, now: u64) -> Option<Due>
        ensures due { IfSome result (λ due. IsNext self.now now due.id due.invoke (was due.was)) }
        ensures none { IfNone result (NoneDue self.now now) }
        // A caller that passes the invoke id on needs its range.
        ensures fits { IfSome result (λ due. FitsSigned w8 due.invoke) }
    {
        let Some(_) = self.timers.least_due(now) else {
            return None;
        };
        self.first_due(now)
    }

    /// The same if a timer is due. It stands apart, never inlined, since at nearly each look none is.
    #[inline(never)]
    fn first_due(&self, now: u64) -> Option<Due>
        ensures due { IfSome result (λ due. IsNext self.now now due.id due.invoke (was due.was)) }
        ensures none { IfNone result (NoneDue self.now now) }
        ensures fits { IfSome result (λ due. FitsSigned w8 due.invoke) }
    {
        let Some(least) = self.timers.least_due(now) else {
            return None;
        };
        let deadlines::Invocation { id, invoke } = least.invocation;
        let list = self.lists.at(id);
        let place = place_of(list, invoke).unwrap();
        Some(Due {
            id,
            invoke,
            was: list[place].was(),
        })
    }

    /// The first deadline of an invocation, whether it is due or not.
    pub fn first_deadline(&self) -> Option<u64>
        ensures { IsFirst (IsTimerOf self.now) result }
    {
        self.lists.law_rising();
        self.timers.first_deadline()
    }

    /// Handles the least timer that is due (Q.774): its invocation, and no other, becomes Idle. Does not allocate.
    pub fn expire(&mut self, now: u64) -> Option<(Tid, i8, Was)>
        ensures due { IfSome result (λ due. Expires self.old self.new now due.0 due.1 (was due.2)) }
        ensures none { IfNone result (NoneDue self.old now) }
        ensures unchanged { IfNone result (self.new ≡ self.old) }
    {
        let Some(due) = self.least_due(now) else {
            return None;
        };
        self.forget_one(due.id, due.invoke);
        Some((due.id, due.invoke, due.was))
    }

    /// Makes all invocations of a dialogue Idle. Does not allocate.
    pub fn forget(&mut self, id: Tid)
        ensures { self.new ≡ put_list self.old id [] }
    {
        let Some(list) = self.lists.remove(id) else {
            return;
        };
        remove_timers(&mut self.timers, id, &list, &[]);
    }

    /// Makes an invocation Idle, if there is one. Does not allocate.
    pub fn forget_one(&mut self, id: Tid, invoke: i8)
        ensures idle { self.new ≡ put_list self.old id
            (without invoke (invocations_at self.old id)) }
        ensures rising { AreRising (invocations_at self.old id) }
    {
        if let Some(own) = self.lists.remove_one(id, invoke) {
            self.timers.remove(&own.timer(id));
        }
    }

    /// The invocations of a dialogue by invoke id: each with its state and its deadline.
    pub fn list(&self, id: Tid) -> Result<Vec<(i8, Was, u64)>, AllocError>
        ensures { IfOk result (λ told. told.items ≡ map told_of (invocations_at self.now id)) }
    {
        self.lists
            .at(id)
            .iter()
            .map(|own| own.told())
            .collect(self.alloc)
    }

    /// An equal copy.
    pub fn try_copy(&self) -> Result<Self, AllocError>
        ensures { IfOk result (λ invocations. invocations ≡ self.now) }
    {
        Ok(Invocations {
            alloc: self.alloc,
            lists: self.lists.try_copy()?,
            timers: self.timers.try_copy()?,
        })
    }

    /// Makes these the invocations of a dialogue, with their timers. On error nothing changes.
    fn replace(&mut self, id: Tid, list: Few) -> Result<(), AllocError>
        requires { AreRising list.items }
        ensures ok { OnOk result (self.new ≡ put_list self.old id list.items) }
        ensures err { OnErr result (self.new ≡ self.old) }
    {
        insert_timers(&mut self.timers, id, &list)?;
        match self.lists.put(id, list) {
            Ok(None) => Ok(()),
            Ok(Some(were)) => {
                remove_timers(&mut self.timers, id, &were, self.lists.at(id));
                Ok(())
            }
            Err(refused) => {
                remove_timers(&mut self.timers, id, &refused, &[]);
                Err(AllocError)
            }
        }
    }
}
