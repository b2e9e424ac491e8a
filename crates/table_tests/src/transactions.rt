//! Transactions that begin, go on and close, and out of memory. All are with one peer.

use hlr_types::{Digits, Peer, RemoteId, Tid};
use std::alloc::{AllocError, Global};
use std::process::Abort;
use std::test::Fail;
use tsl::{Head, Received, Transactions, TslFault};

/// A call, and its expected answer. Remote ids are octets.
enum Step {
    Begins(Result<Tid, TslFault>),
    /// A Begin with this originating id is answered by a Continue with that local id.
    Continues(&'static [u8], Tid),
    /// Whether a Continue with these ids, the originating one first, is for an open transaction.
    IsFound(&'static [u8], &'static [u8], bool),
    /// Closes the transaction with an id; the last frame goes to the remote id, if one is known.
    Closes(Tid, Option<&'static [u8]>),
    ListsTwo([Tid; 2]),
    CountIs(usize),
}

fn peer() -> Option<Peer> {
    Some(Peer::new(Digits::from_text(b"447")?))
}

/// Whether the transaction with an id closes, and the last frame goes there.
fn closes(table: &mut Transactions, id: Tid, wanted: Option<&[u8]>) -> Option<bool> {
    let transaction = table.get(id)?;
    if transaction.remote.is_some() {
        let (to, remote) = table.end(id);
        return Some(to == peer()? && Some(remote) == RemoteId::read(wanted?));
    }
    table.abort(id);
    Some(wanted.is_none())
}

fn is_found(table: &Transactions, origin: &[u8], destination: &[u8]) -> Option<bool> {
    let head = Head::Continue {
        origin: RemoteId::read(origin)?,
        destination: RemoteId::read(destination)?,
    };
    Some(matches!(table.look(&head), Received::For(_)))
}

fn lists(table: &Transactions, wanted: &[Tid]) -> Option<bool> {
    Some(table.list().ok()?.as_slice() == wanted)
}

/// Whether a call answers as expected.
fn is_so(table: &mut Transactions, step: &Step) -> Option<bool> {
    match step {
        Step::Begins(begun) => Some(table.begin(peer()?) == *begun),
        Step::Continues(origin, id) => {
            Some(table.continue_(peer()?, RemoteId::read(origin)?) == Ok(*id))
        }
        Step::IsFound(origin, destination, wanted) => {
            Some(is_found(table, origin, destination)? == *wanted)
        }
        Step::Closes(id, wanted) => closes(table, *id, *wanted),
        Step::ListsTwo(wanted) => lists(table, wanted),
        Step::CountIs(count) => Some(table.len() == *count),
    }
}

fn play(rt: &impl Abort, table: &mut Transactions, steps: &[Step]) {
    for (place, step) in steps.iter().enumerate() {
        assert!(rt; is_so(table, step) == Some(true), "step {place}");
    }
}

/// Ids are compared as octets: leading zeros count.
const SHORT_IDS: [Step; 4] = [
    Step::Continues(&[0, 0, 1], Tid([0, 0, 0x10, 0])),
    Step::IsFound(&[0, 0, 1], &[0, 0, 0x10, 0], true),
    Step::IsFound(&[0, 0, 0, 1], &[0, 0, 0x10, 0], false),
    Step::IsFound(&[0, 0, 1], &[0, 0x10, 0], false),
];

#[test]
fn short_ids(rt: HostRuntime) -> Result<(), Fail> {
    let mut table = Transactions::new(rt.alloc(), 0)?;
    play(&rt, &mut table, &SHORT_IDS);
    Ok(())
}

const OF_A_FULL_SHARD: [Step; 3] = [
    Step::Begins(Err(TslFault::NoRoom)),
    Step::Closes(Tid([15, 0, 0x1F, 0xFF]), None),
    Step::Begins(Ok(Tid([15, 0, 0x2F, 0xFF]))),
];

/// A full table.
fn full(alloc: Global, to: Peer) -> Result<Transactions, TslFault> {
    let mut table = Transactions::new(alloc, 15)?;
    for _number in 0..Transactions::MAX_TRANSACTIONS {
        let _id = table.begin(to)?;
    }
    Ok(table)
}

#[test]
fn full_shard(rt: HostRuntime) -> Result<(), Fail> {
    let mut table = full(rt.alloc(), peer().ok_or("digits")?)?;
    play(&rt, &mut table, &OF_A_FULL_SHARD);
    Ok(())
}

const FIRST: Tid = Tid([1, 0, 0x10, 0]);

const SECOND: Tid = Tid([1, 0, 0x10, 1]);

const THIRD: Tid = Tid([1, 0, 0x20, 0]);

/// Ids are listed in ascending order, whichever slot they have.
const LISTED: [Step; 5] = [
    Step::Begins(Ok(FIRST)),
    Step::Begins(Ok(SECOND)),
    Step::Closes(FIRST, None),
    Step::Begins(Ok(THIRD)),
    Step::ListsTwo([SECOND, THIRD]),
];

#[test]
fn listed(rt: HostRuntime) -> Result<(), Fail> {
    let mut table = Transactions::new(rt.alloc(), 1)?;
    play(&rt, &mut table, &LISTED);
    Ok(())
}

const OF_THE_COPIED: [Step; 1] = [Step::Continues(&[9], FIRST)];

const OF_A_COPY: [Step; 2] = [Step::Closes(FIRST, Some(&[9])), Step::CountIs(0)];

const AFTERWARDS: [Step; 1] = [Step::CountIs(1)];

#[test]
fn a_copy_is_a_value_of_its_own(rt: HostRuntime) -> Result<(), Fail> {
    let mut table = Transactions::new(rt.alloc(), 1)?;
    play(&rt, &mut table, &OF_THE_COPIED);
    let mut copy = table.try_copy()?;
    play(&rt, &mut copy, &OF_A_COPY);
    play(&rt, &mut table, &AFTERWARDS);
    Ok(())
}

/// Whether the copy equals the table.
fn is_same(table: &Transactions, copy: &Transactions) -> bool {
    for slot in 0..16u32 {
        let id = Tid::new(4, 4096 + slot);
        if table.get(id) != copy.get(id) {
            return false;
        }
    }
    table.len() == copy.len() && table.next_id() == copy.next_id()
}

/// Begins up to eight transactions: after a failed allocation the table is unchanged.
fn begin_some(rt: &impl Abort, table: &mut Transactions, to: Peer) -> Result<(), AllocError> {
    for _number in 0..8 {
        let copy = table.try_copy()?;
        if table.begin(to).is_err() {
            assert!(rt; is_same(table, &copy));
        }
    }
    Ok(())
}

/// Each allocation fails in turn by `rt try --test --fail-alloc N`.
#[test]
fn refused_growths(rt: HostRuntime) {
    let (Some(to), Ok(mut table)) = (peer(), Transactions::new(rt.alloc(), 4)) else {
        return;
    };
    if begin_some(&rt, &mut table, to).is_err() {
        return;
    }
    if let Ok(ids) = table.list() {
        assert!(rt; ids.len() == table.len());
    }
}
