//! The ids of a shard.

ghost use Rattle.std.specs.Prelude.{◌≡◌, ◌+◌, ◌<◌, ◌≤◌, ◌↔◌, ◌++◌, ◌∷◌, List, ℕ, length, true, Some, IfOk, IfSome, OnOk, OnErr, IsNone, IsFalse, IsTrue, Err, option_map, slice_get};
ghost use Rattle.std.specs.FinSet as set;
ghost use Rattle.tidalloc.specs.LiveIds.{LiveIds, MayBeTaken, Takes, beginning_after, is_live, next_of, no_ids, given_back, id_at, slot_of, slot_if_live, next_use, HaveOwnSlots};
ghost use Rattle.tidalloc.specs.Resumed.{AreTakenAgain, IsNextUnused, IsResumed, ascending, set_back, untaken, with_used};

use crate::slot::{
    Slot, generation_before, generation_of, id_at, live_in, next_generation, next_use,
    same_generations, slot_of,
};
use hlr_types::Tid;
use machine::numbers::MAX_DIALOGUES;
use std::alloc::{AllocError, Global};
use std::marker::Model;
use thiserror::Error;

/// Why no id was taken.
#[derive(Clone, Copy, Debug, PartialEq, Eq, Drop, Error)]
pub enum IdFault {
    /// 4,096 ids are live.
    #[error("4,096 ids are live")]
    NoRoom,
}

/// The ids of a shard, of which at most 4,096 are live. Which id is next is a function of those that were taken and freed before.
#[derive(Drop)]
pub struct Ids {
    shard: u8,
    /// The generation of a slot before its first use.
    first: u16,
    slots: Vec<Slot>,
    free: Vec<u16>,
    freed_last: Option<Tid>,
}

impl Model for Ids {
    ghost use Rattle.std.specs.Prelude.{vec_capacity};
    ghost use Rattle.tidalloc.specs.LiveIds.{LiveIds, live_ids_code};

    ghost Value = { LiveIds };

    ghost coded = { live_ids_code };

    ghost use Rattle.tidalloc.specs.Slots.{ids_of, AreSlots};

    ghost view = { λ a. ids_of a.shard a.first a.slots.items a.free.items a.freed_last };

    ghost invariant = { λ a. AreSlots a.shard a.first a.slots.items a.free.items a.freed_last
        (vec_capacity a.slots) (vec_capacity a.free) };
}

impl Ids {
    /// How many ids can be live at once, one for each dialogue; also the number of slots.
    pub const MAX_IDS: usize = MAX_DIALOGUES;

    /// The ids of a shard, none of which is live. Allocates all that they ever need.
    pub fn new(alloc: Global, shard: u8) -> Result<Self, AllocError>
        requires { shard < 16 }
        ensures { IfOk result (λ ids. ids ≡ no_ids shard) }
    {
        Ok(Ids {
            shard,
            first: 0,
            slots: Vec::with_capacity(alloc, Self::MAX_IDS)?,
            free: Vec::with_capacity(alloc, Self::MAX_IDS)?,
            freed_last: None,
        })
    }

    /// From now on the first id of a slot that was never used has the generation after this one. So a register that is started again can
    /// take other ids than it took before.
    pub fn begin_after(&mut self, generation: u16)
        requires { generation < 4096 }
        ensures { self.new ≡ beginning_after self.old generation }
    {
        self.first = generation;
    }

    /// Takes the next id. `NoRoom` if 4,096 are live; then nothing changes. Does not allocate.
    pub fn take(&mut self) -> Result<Tid, IdFault>
        ensures taken { IfOk result (λ id. Takes self.old id self.new) }
        ensures no_room { result ≡ Err IdFault.NoRoom ↔ (set.len self.old.live ≡ 4096) }
        ensures err { OnErr result (self.new ≡ self.old) }
    {
        if self.is_full() {
            return Err(IdFault::NoRoom);
        }
        Ok(self.take_one())
    }

    /// Takes the next id, if there is room for one. Does not allocate.
    pub fn take_one(&mut self) -> Tid
        requires { set.len self.old.live < 4096 }
        ensures { Takes self.old result self.new }
    {
        let Some(slot) = self.free.pop() else {
            let slot = self.slots.len();
            let generation = next_generation(self.first);
            self.slots.push_reserved(Slot {
                generation,
                is_live: true,
            });
            return id_at(self.shard, slot, generation);
        };
        let slot = usize::from(slot);
        let generation = next_generation(self.slots[slot].generation);
        self.slots[slot] = Slot {
            generation,
            is_live: true,
        };
        id_at(self.shard, slot, generation)
    }

    /// The id that `take` returns next. It is neither live nor the one freed last. `None` exactly if 4,096 are live.
    pub fn next_id(&self) -> Option<Tid>
        ensures value { result ≡ next_of self.now }
        ensures may { IfSome result (MayBeTaken self.now) }
        ensures none { IsNone result ↔ (set.len self.now.live ≡ 4096) }
    {
        let _invariant = &self.slots;
        self.unused_id()
    }

    fn unused_id(&self) -> Option<Tid>
        ensures value { result ≡ next_of self.now }
        ensures none { IsNone result ↔ (set.len self.now.live ≡ 4096) }
    {
        let slot = match self.free.last() {
            Some(slot) => usize::from(*slot),
            None => self.slots.len(),
        };
        if slot >= Self::MAX_IDS {
            return None;
        }
        let generation = self
            .slots
            .get(slot)
            .map_or(self.first, |slot| slot.generation);
        Some(id_at(self.shard, slot, next_generation(generation)))
    }

    /// Whether there is no room: 4,096 ids are live.
    pub fn is_full(&self) -> bool
        ensures full { IsTrue result ↔ (set.len self.now.live ≡ 4096) }
        ensures room { IsFalse result ↔ (set.len self.now.live < 4096) }
    {
        self.live_count() == Self::MAX_IDS
    }

    /// The id that `take` returns next once this live one is freed: its slot at the next generation.
    pub fn next_after(&self, id: Tid) -> Tid
        requires { is_live self.now id ≡ true }
        ensures value { result ≡ next_use id }
        ensures next { next_of (given_back self.now id) ≡ Some result }
        ensures may { MayBeTaken (given_back self.now id) result }
    {
        let _invariant = &self.slots;
        next_use(id)
    }

    /// Frees a live id; its slot is used next. Does not allocate.
    pub fn give_back(&mut self, id: Tid)
        requires { is_live self.old id ≡ true }
        ensures { self.new ≡ given_back self.old id }
    {
        let slot = slot_of(id);
        let generation = self.slots[slot].generation;
        self.slots[slot] = Slot {
            generation,
            is_live: false,
        };
        self.free.push_reserved(slot as u16);
        self.freed_last = Some(id);
    }

    /// Uses the next slot that was never used, under this id, which is live then: so a shard has again the ids that it had. `false`, and
    /// nothing changes, if the id is not of this shard and that slot, if its generation is 0, or if all slots are used. Does not allocate.
    pub fn use_slot(&mut self, id: Tid) -> bool
        ensures used { IsTrue result ↔ IsNextUnused self.old id }
        ensures after { IsTrue result → self.new ≡ with_used self.old id }
        ensures same { IsFalse result → self.new ≡ self.old }
    {
        if !self.is_next_unused(id) {
            return false;
        }
        self.slots.push_reserved(Slot {
            generation: generation_of(id),
            is_live: true,
        });
        true
    }

    fn is_next_unused(&self, id: Tid) -> bool
        ensures { IsTrue result ↔ IsNextUnused self.now id }
    {
        let slot = self.slots.len();
        let generation = generation_of(id);
        if slot == Self::MAX_IDS || generation == 0 {
            return false;
        }
        id == id_at(self.shard, slot, generation)
    }

    /// As if the live ids had not been taken yet: none is live, and they are the next ones, in ascending order. On error nothing changes.
    pub fn set_back(&mut self) -> Result<(), AllocError>
        ensures ok { OnOk result (self.new ≡ set_back self.old) }
        ensures err { OnErr result (self.new ≡ self.old) }
    {
        let ids = self.live_ids()?;
        for place in (0..ids.len()).rev() {
            self.untake(ids[place]);
        }
        Ok(())
    }

    /// The live ids, in ascending order.
    fn live_ids(&self) -> Result<Vec<Tid>, AllocError>
        ensures { IfOk result (λ ids. ids.items ≡ ascending self.now.live) }
    {
        let mut ids = live_in(*self.slots.allocator(), self.shard, &self.slots)?;
        ids.sort_unstable();
        Ok(ids)
    }

    /// As if a live id had not been taken yet. Does not allocate.
    fn untake(&mut self, id: Tid)
        requires { is_live self.old id ≡ true }
        ensures { self.new ≡ record self.old {
          live = set.remove self.old.live id;
          supply = untaken self.old.supply id;
        } }
    {
        let place = slot_of(id);
        let generation = generation_before(self.slots[place].generation);
        self.slots[place] = Slot {
            generation,
            is_live: false,
        };
        self.free.push_reserved(place as u16);
    }

    /// The generation before the first use of a slot, below 4,096.
    pub fn first(&self) -> u16
        ensures value { result ≡ self.now.supply.first }
        ensures small { result < 4096 }
    {
        let _invariant = &self.slots;
        self.first
    }

    /// The id under which a slot is used, or was used last. `None` if it was never used.
    pub fn id_of_slot(&self, slot: usize) -> Option<Tid>
        ensures { result ≡ option_map (id_at self.now.shard slot)
            (slice_get self.now.supply.generations slot) }
    {
        match self.slots.get(slot) {
            Some(used) => Some(id_at(self.shard, slot, used.generation)),
            None => None,
        }
    }

    /// The slots that are free again, the one that was freed last at the end.
    pub fn free_slots(&self) -> &[u16]
        ensures { result.now ≡ self.now.supply.free }
    {
        &self.free
    }

    /// Law: what `use_slot` makes of the ids of all slots, and `give_back` then of those that are free, are these ids again, whichever was
    /// freed last.
    pub fn law_resumed(&self)
        ensures { IsResumed self.now }
    {
        let _invariant = &self.slots;
    }

    /// Law: ids that were set back are taken again, each in its turn.
    pub fn law_taken_again(&self)
        ensures { (front more : List (List ℕ)) (id : List ℕ)
            → ascending self.now.live ≡ front ++ id ∷ more → AreTakenAgain self.now id more }
    {
        let _invariant = &self.slots;
    }

    /// Whether the id is live.
    pub fn is_live(&self, id: Tid) -> bool
        ensures { result ≡ is_live self.now id }
    {
        let place = slot_of(id);
        match self.slots.get(place) {
            Some(slot) => slot.is_live && id == id_at(self.shard, place, slot.generation),
            None => false,
        }
    }

    /// The slot of a live id, below `MAX_IDS`: its last twelve bits, in which no two live ids agree. It is below the number of slots that
    /// were used, each of which is live or free.
    pub fn slot(&self, id: Tid) -> Option<usize>
        ensures slot { result ≡ slot_if_live self.now id }
        ensures small { IfSome result (λ slot. slot < 4096) }
        ensures used { IfSome result (λ slot.
            slot < set.len self.now.live + length self.now.supply.free) }
        ensures own { HaveOwnSlots self.now }
    {
        let _invariant = &self.slots;
        if self.is_live(id) {
            Some(slot_of(id))
        } else {
            None
        }
    }

    /// How many ids are live.
    pub fn live_count(&self) -> usize
        ensures value { result ≡ set.len self.now.live }
        ensures most { result ≤ 4096 }
    {
        self.slots.len() - self.free.len()
    }

    /// Whether the same ids come next, for ever, if the same ones are freed.
    pub fn goes_on_as(&self, other: &Ids) -> bool
        ensures { IsTrue result ↔ (self.now.supply ≡ other.now.supply) }
    {
        self.first == other.first
            && same_generations(&self.slots, &other.slots)
            && same_numbers(&self.free, &other.free)
    }

    /// An equal copy.
    pub fn try_copy(&self) -> Result<Self, AllocError>
        ensures { IfOk result (λ ids. ids ≡ self.now) }
    {
        let alloc = *self.slots.allocator();
        let mut slots = Vec::with_capacity(alloc, Self::MAX_IDS)?;
        slots.extend_from_slice(&self.slots)?;
        let mut free = Vec::with_capacity(alloc, Self::MAX_IDS)?;
        free.extend_from_slice(&self.free)?;
        Ok(Ids {
            shard: self.shard,
            first: self.first,
            slots,
            free,
            freed_last: self.freed_last,
        })
    }
}

fn same_numbers(left: &[u16], right: &[u16]) -> bool
    ensures { IsTrue result ↔ (left.now ≡ right.now) }
{
    left == right
}
