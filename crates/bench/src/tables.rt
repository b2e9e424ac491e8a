//! The tables of a full shard.

use anyhow::Result;
use deadlines::Deadlines;
use hlr_types::Tid;
use std::alloc::Global;
use tidalloc::{IdFault, Ids};

/// Takes an id and frees it in each round, with 4,095 others live; counts the ids taken.
pub fn take_ids(alloc: Global, rounds: u64) -> Result<u64> {
    let mut ids = Ids::new(alloc, 0)?;
    for _ in 1..Ids::MAX_IDS {
        ids.take()?;
    }
    let mut taken = 0u64;
    for _ in 0..rounds {
        take_and_give_back(&mut ids)?;
        taken = taken.saturating_add(1);
    }
    Ok(taken)
}

fn take_and_give_back(ids: &mut Ids) -> Result<(), IdFault> {
    let id = ids.take()?;
    ids.give_back(id);
    Ok(())
}

/// Finds the least of 4,096 deadlines in each round and makes it the last; counts those found.
pub fn move_deadlines(alloc: Global, rounds: u64) -> Result<u64> {
    let mut deadlines = Deadlines::new(alloc);
    for number in 0..4096u32 {
        deadlines.set(Tid::new(0, number), 1, u64::from(number))?;
    }
    let mut found = 0u64;
    for _ in 0..rounds {
        if let Some((deadline, id, invoke)) = deadlines.least_due(u64::MAX) {
            deadlines.set(id, invoke, deadline.saturating_add(4096))?;
            found = found.saturating_add(1);
        }
    }
    Ok(found)
}
