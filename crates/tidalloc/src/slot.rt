//! Slots with generations, and the ids that they stand for.

ghost use Rattle.std.specs.Prelude.{◌≡◌, ◌<◌, ◌≤◌, ◌↔◌, ℕ, IfOk, IsTrue, length, map, slice_get};
ghost use Rattle.tidalloc.specs.LiveIds.{id_at, slot_of, generation_of, next_generation, next_use};
ghost use Rattle.tidalloc.specs.Resumed.{generation_before};
ghost use Rattle.tidalloc.specs.Slots.{generation_in, ids_from};

use hlr_types::Tid;
use std::alloc::{AllocError, Global};

/// Holds one id at a time.
#[derive(Clone, Copy)]
pub(crate) struct Slot {
    pub(crate) generation: u16,
    pub(crate) is_live: bool,
}

/// The generation after 4,095 is 1.
const LAST_GENERATION: u16 = 4095;

/// The generation of a slot at its next use.
pub(crate) fn next_generation(generation: u16) -> u16
    requires { generation < 4096 }
    ensures value { result ≡ next_generation generation }
    ensures small { result < 4096 }
{
    if generation == LAST_GENERATION {
        1
    } else {
        generation + 1
    }
}

/// The generation of a slot before it was used at this one.
pub(crate) fn generation_before(generation: u16) -> u16
    requires begun { 0 < generation }
    requires small { generation < 4096 }
    ensures { result ≡ generation_before generation }
{
    if generation == 1 {
        LAST_GENERATION
    } else {
        generation - 1
    }
}

/// The id of a slot at a generation: the shard, then generation times 4,096 plus slot in three octets.
pub(crate) fn id_at(shard: u8, slot: usize, generation: u16) -> Tid
    requires slot { slot < 4096 }
    requires generation { generation < 4096 }
    ensures { result ≡ id_at shard slot generation }
{
    Tid::new(shard, u32::from(generation) * 4096 + slot as u32)
}

/// The slot of an id: its last twelve bits.
pub(crate) fn slot_of(id: Tid) -> usize
    ensures value { result ≡ slot_of id }
    ensures small { result < 4096 }
{
    (id.number() % 4096) as usize
}

/// The id that this one's slot has at its next use.
pub(crate) fn next_use(id: Tid) -> Tid
    ensures { result ≡ next_use id }
{
    id_at(id.shard(), slot_of(id), next_generation(generation_of(id)))
}

/// The generation of an id: the twelve bits before those of the slot.
pub(crate) fn generation_of(id: Tid) -> u16
    ensures value { result ≡ generation_of id }
    ensures small { result < 4096 }
{
    (id.number() / 4096) as u16
}

/// The ids of the slots that are live, by slot.
pub(crate) fn live_in(alloc: Global, shard: u8, slots: &[Slot]) -> Result<Vec<Tid>, AllocError>
    requires few { length slots.now ≤ 4096 }
    requires small { (k : ℕ) → generation_in 0 (slice_get slots.now k) < 4096 }
    ensures { IfOk result (λ ids. ids.items ≡ ids_from shard 0 slots.now) }
{
    let mut ids = Vec::with_capacity(alloc, slots.len())?;
    for number in 0..slots.len() {
        let slot = slots[number];
        if slot.is_live {
            ids.push(id_at(shard, number, slot.generation))?;
        }
    }
    Ok(ids)
}

/// Whether the slots of two tables have the same generations.
pub(crate) fn same_generations(left: &[Slot], right: &[Slot]) -> bool
    ensures { IsTrue result ↔ (map (λ s. s.generation) left.now ≡ map (λ s. s.generation) right.now) }
{
    if left.len() != right.len() {
        return false;
    }
    for number in 0..left.len() {
        if left[number].generation != right[number].generation {
            return false;
        }
    }
    true
}
