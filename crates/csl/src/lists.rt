//! The invocations of each dialogue.

ghost use Rattle.std.specs.Prelude.{◌≡◌, ℕ, List, OnOk, OnErr, IfSome, IfNone, IfOk, IfErr, []};
ghost use Rattle.std.specs.FinMap as finite;
ghost use Rattle.machine.specs.Effect.{AreRising};
ghost use Rattle.machine.specs.Expiries.{without};
ghost use Rattle.machine.specs.Turns.{invocation_of};
ghost use Rattle.csl.specs.Tables.{invocations_at, octets_of, put_list};

use crate::invocation::Invocation;
use crate::list::{Few, place_of};
use hlr_types::Tid;
use std::alloc::{AllocError, Global};
use std::collections::HashMap;
use std::marker::Model;

/// The invocations of each dialogue that has some, by ascending invoke id.
#[derive(Drop)]
pub(crate) struct Lists {
    // By the local id as a number. The register itself hands these ids out; a peer only chooses which of them stay open, and these
    // are at most 4,096 in a shard.
    by_dialogue: HashMap<u64, Few>,
}

impl Model for Lists {
    ghost use Rattle.csl.specs.Tables.{InvocationLists, lists_code, lists_of, AreStored};

    ghost Value = { InvocationLists };

    ghost coded = { lists_code };

    ghost view = { λ a. lists_of a.by_dialogue };

    ghost invariant = { λ a. AreStored (lists_of a.by_dialogue) };
}

impl Lists {
    /// No dialogue has an invocation.
    pub(crate) fn new(alloc: Global) -> Self
        ensures { result ≡ finite.empty }
    {
        Lists {
            by_dialogue: HashMap::new(alloc),
        }
    }

    /// The invocations of a dialogue.
    pub(crate) fn at(&self, id: Tid) -> &[Invocation]
        ensures value { result.now ≡ invocations_at self.now id }
        ensures rising { AreRising result.now }
    {
        match self.by_dialogue.get(&key_of(id)) {
            Some(list) => list.as_slice(),
            None => &[],
        }
    }

    /// Law: the invocations of each dialogue ascend, which is the invariant.
    pub(crate) fn law_rising(&self)
        ensures { (id : List ℕ) → AreRising (invocations_at self.now id) }
    {
        let _lists = &self.by_dialogue;
    }

    /// Makes these the invocations of a dialogue, and returns those that it had. If it had some, this does not allocate. A
    /// refused list comes back.
    pub(crate) fn put(&mut self, id: Tid, list: Few) -> Result<Option<Few>, Few>
        requires { AreRising list.items }
        ensures ok { OnOk result (self.new ≡ put_list self.old id list.items) }
        ensures were { IfOk result (λ old. IfSome old (λ were. were.items
            ≡ invocations_at self.old id)) }
        ensures first { IfOk result (λ old. IfNone old (invocations_at self.old id ≡ [])) }
        ensures refused { IfErr result (λ refused. refused.items ≡ list.items) }
        ensures none { OnErr result (invocations_at self.old id ≡ []) }
        ensures err { OnErr result (self.new ≡ self.old) }
    {
        let key = key_of(id);
        if list.is_empty() {
            return Ok(self.by_dialogue.remove(&key));
        }
        match self.by_dialogue.insert(key, list) {
            Ok(were) => Ok(were),
            Err(refused) => Err(refused.value.1),
        }
    }

    /// Removes the invocations of a dialogue, if it has some.
    pub(crate) fn remove(&mut self, id: Tid) -> Option<Few>
        ensures removed { self.new ≡ put_list self.old id [] }
        ensures were { IfSome result (λ list. list.items ≡ invocations_at self.old id) }
        ensures none { IfNone result (invocations_at self.old id ≡ []) }
    {
        self.by_dialogue.remove(&key_of(id))
    }

    /// Removes one invocation, if it is there.
    pub(crate) fn remove_one(&mut self, id: Tid, invoke: i8) -> Option<Invocation>
        ensures removed { self.new ≡ put_list self.old id
            (without invoke (invocations_at self.old id)) }
        ensures was { result ≡ invocation_of invoke (invocations_at self.old id) }
        ensures rising { AreRising (invocations_at self.old id) }
    {
        let key = key_of(id);
        let Some(list) = self.by_dialogue.get_mut(&key) else {
            return None;
        };
        let Some(place) = place_of(list, invoke) else {
            return None;
        };
        let own = list.remove(place);
        if !list.is_empty() {
            return Some(own);
        }
        self.by_dialogue.remove(&key);
        Some(own)
    }

    /// An equal copy.
    pub(crate) fn try_copy(&self) -> Result<Self, AllocError>
        ensures { IfOk result (λ lists. lists ≡ self.now) }
    {
        Ok(Lists {
            by_dialogue: self.by_dialogue.clone()?,
        })
    }
}

/// The local id as a number, which is hashed in one step. It is one of 64 bits, as the hash spreads four octets alone badly.
fn key_of(id: Tid) -> u64
    ensures { octets_of result ≡ id }
{
    u64::from(u32::from_le_bytes(id.0))
}
