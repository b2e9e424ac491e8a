//! Messages for no open dialogue, and an expiry when nothing is due.

use crate::given::{peer, shard};
use crate::samples::RECORDS;
use hlr_types::RemoteId;
use hlrcore::{ShardParts, plan_close, plan_continue, plan_expiry};
use std::alloc::Global;
use std::test::Fail;

/// A destination id of no open dialogue, in four octets and in one.
const DESTINATIONS: [&[u8]; 2] = [&[1, 0, 0x10, 0], &[1]];

/// Whether neither a Continue nor an End for this id is for a dialogue.
fn is_for_none(alloc: Global, shard: &ShardParts, destination: &[u8]) -> Option<bool> {
    let from = peer(b"447700900011").ok()?;
    let origin = RemoteId::read(&[7])?;
    let id = RemoteId::read(destination)?;
    let continued = plan_continue(alloc, shard, from, origin, id, &[]).ok()?;
    Some(continued.is_none() && plan_close(shard, id).is_none())
}

#[test]
fn nothing_is_named(rt: HostRuntime) -> Result<(), Fail> {
    let shard = shard(rt.alloc(), RECORDS)?;
    for destination in DESTINATIONS {
        assert!(rt;
            is_for_none(rt.alloc(), &shard, destination) == Some(true),
            "{destination:?}"
        );
    }
    Ok(())
}

#[test]
fn nothing_is_due(rt: HostRuntime) -> Result<(), Fail> {
    let mut shard = shard(rt.alloc(), RECORDS)?;
    let was_due = plan_expiry(rt.alloc(), &shard).is_some();
    shard.tick(60);
    assert!(rt; !was_due && plan_expiry(rt.alloc(), &shard).is_none());
    Ok(())
}
