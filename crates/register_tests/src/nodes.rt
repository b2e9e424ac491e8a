//! The whole register in one thread, and its listings and saved file.

use crate::given::{octets_at, peer};
use crate::samples::{ROUTE, ROUTE_ANSWER, UPDATE};
use audit::{list_dialogues, list_journal, list_records, save_records};
use bumpalo::Bump;
use hlrcore::{RawEvent, ShardNumber};
use machine::numbers::MAX_ENTRIES;
use records::read_records;
use std::alloc::Global;
use std::test::Fail;
use wholenode::{Cause, Keep, Node};

/// Four subscribers, the first of them registered.
const RECORDS: &[u8] = b"HLR1 447700900100
234150000000001 447700900000 11,21 * 447700900011,447700900001,-,s
234150000000002 447700900202 11,12,20,21,22,61,62,91,92 * -
234150000000003 447700900203 21 4478 -
234150000000004 447700900204 11 * -
";

/// The listing of their records.
const LISTED: &str = "\
R 234150000000001 447700900000 11,21 * 447700900011,447700900001,-,s a
R 234150000000002 447700900202 11,12,20,21,22,61,62,91,92 * - a
R 234150000000003 447700900203 21 4478 - a
R 234150000000004 447700900204 11 * - a
";

/// And as they are saved.
const SAVED: &str = "\
HLR2 447700900100
234150000000001 447700900000 11,21 * 447700900011,447700900001,-,s a
234150000000002 447700900202 11,12,20,21,22,61,62,91,92 * - a
234150000000003 447700900203 21 4478 - a
234150000000004 447700900204 11 * - a
";

fn node(alloc: Global) -> Result<Node, Fail> {
    let loaded = read_records(alloc, RECORDS)?;
    Ok(Node::new(alloc, loaded, Keep::Entries, 0)?)
}

fn frame(alloc: Global, octets: &[u8]) -> Result<RawEvent, Fail> {
    Ok(RawEvent::Frame {
        from: peer(b"447700909999")?,
        octets: octets.to_vec(alloc)?,
    })
}

fn clock(shard: u8) -> Result<RawEvent, Fail> {
    let shard = ShardNumber::new(shard).ok_or("shard number")?;
    Ok(RawEvent::Clock { shard, now: 5 })
}

#[test]
fn first_route_is_listed(rt: HostRuntime) -> Result<(), Fail> {
    let alloc = rt.alloc();
    let mut node = node(alloc)?;
    let mut events = Vec::new(alloc);
    events.push(clock(3)?)?;
    events.push(frame(alloc, &ROUTE)?)?;
    let done = node.run(&mut Bump::new(alloc), &events).ok().ok_or("run")?;
    assert_eq!(rt; done.len(), 2);
    assert_eq!(rt;
        octets_at(done[1].outs.as_slice(), 0),
        ROUTE_ANSWER.as_slice()
    );
    assert_eq!(rt; list_records(alloc, node.shards())?.as_str(), LISTED);
    assert_eq!(rt; list_dialogues(alloc, node.shards())?.as_str(), "");
    assert_eq!(rt;
        list_journal(alloc, node.shards())?.as_str(),
        "J 1 0 F 234150000000001 1\nJ 3 0 C - 0\n"
    );
    let epoch = node.cut(1)?;
    assert_eq!(rt; epoch.entries.len(), 1);
    assert_eq!(rt;
        list_journal(alloc, node.shards())?.as_str(),
        "J 3 0 C - 0\n"
    );
    Ok(())
}

/// Whether a register answers the route by its octets, with this arena.
fn is_answered(node: &mut Node, bump: &mut Bump, events: &[RawEvent]) -> Result<bool, Fail> {
    let done = node.run(bump, events).ok().ok_or("run")?;
    let sent = done.first().ok_or("no answer")?.outs.as_slice();
    Ok(done.len() == 1 && octets_at(sent, 0) == ROUTE_ANSWER.as_slice())
}

/// A thousand routes through one arena are answered like a thousand through arenas of their own.
#[test]
fn a_thousand_routes(rt: HostRuntime) -> Result<(), Fail> {
    let alloc = rt.alloc();
    let (mut one, mut other) = (node(alloc)?, node(alloc)?);
    let events = vec![in alloc; frame(alloc, &ROUTE)?]?;
    let mut bump = Bump::new(alloc);
    for _ in 0..1_000 {
        assert!(rt; is_answered(&mut one, &mut bump, &events)?);
        assert!(rt; is_answered(&mut other, &mut Bump::new(alloc), &events)?);
    }
    Ok(())
}

#[test]
fn an_open_update_is_listed_and_not_saved(rt: HostRuntime) -> Result<(), Fail> {
    let alloc = rt.alloc();
    let mut node = node(alloc)?;
    let mut events = Vec::new(alloc);
    events.push(frame(alloc, &UPDATE)?)?;
    let _done = node.run(&mut Bump::new(alloc), &events).ok().ok_or("run")?;
    assert_eq!(rt;
        list_dialogues(alloc, node.shards())?.as_str(),
        "D 01001000 update Active 234150000000001 0000000B\nI 1 sent 20\n"
    );
    assert_eq!(rt; save_records(alloc, node.shards())?.as_str(), SAVED);
    Ok(())
}

#[test]
fn a_full_journal_ends_a_run_until_it_is_cut(rt: HostRuntime) -> Result<(), Fail> {
    let alloc = rt.alloc();
    let mut node = node(alloc)?;
    let mut bump = Bump::new(alloc);
    let mut events = Vec::new(alloc);
    for _ in 0..=MAX_ENTRIES {
        events.push(clock(3)?)?;
    }
    let refused = node.run(&mut bump, &events).err().ok_or("no fault")?;
    assert_eq!(rt;
        (refused.done.len(), refused.cause),
        (MAX_ENTRIES, Cause::JournalFull)
    );
    let _epoch = node.cut(3)?;
    events.truncate(1);
    let done = node.run(&mut bump, &events).ok().ok_or("run")?;
    assert_eq!(rt; done.len(), 1);
    Ok(())
}
