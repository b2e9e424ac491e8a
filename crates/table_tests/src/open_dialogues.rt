//! Dialogues that open, go on, are replaced and close, and out of memory.

use csl::{Conclusion, Offer};
use dialogues::{Dialogue, Dialogues, Kind};
use hlr_types::{Digits, Imsi, Peer, RemoteId, Tid};
use mapargs_loc::CancellationType;
use q773_comp::Component;
use std::process::Abort;
use std::test::Fail;
use tsl::Transaction;

const FIRST: Tid = Tid([3, 0, 0x10, 0]);

const SECOND: Tid = Tid([3, 0, 0x10, 1]);

/// The next id of the first dialogue's slot.
const AFTER_FIRST: Tid = Tid([3, 0, 0x20, 0]);

/// In a dialogue of new data the peer may invoke nothing.
const NOTHING: Offer = Offer {
    open_id: None,
    operation: None,
    may_start: false,
    typed: false,
};

/// The last result of the first insert.
const LAST: [Component<u8>; 1] = [Component::ResultLast { id: 1 }];

/// A call, and its expected answer.
enum Step {
    /// A dialogue of new data opens with two inserts, at the time 5.
    OpensData(Tid),
    /// A cancel opens, at the time 6.
    OpensCancel(Tid),
    /// A cancel opens in place of an open dialogue, at the time 7, under the second id.
    ReplacedByCancel(Tid, Tid),
    /// Closes an open dialogue.
    Closes(Tid),
    /// The open dialogue is the cancel.
    IsCancel(Tid),
    /// The conclusion after the last result of the first insert, at the time 9.
    Tells(Tid, Conclusion),
    /// A Continue with originating id 7 and that result is received at the time 9.
    GoesOn(Tid),
    /// Whether an invocation is due.
    IsDue(u64, bool),
    ForgetsOne(Tid, i8),
    CountIs(usize),
    /// Only this dialogue is open.
    ListsOnly(Tid),
    /// How many invocations a dialogue has.
    Invocations(Tid, usize),
}

fn peer(digits: &[u8]) -> Option<Peer> {
    Some(Peer::new(Digits::from_text(digits)?))
}

/// A dialogue in Initiation Sent.
fn dialogue(kind: Kind) -> Option<Dialogue> {
    Some(Dialogue {
        subscriber: Imsi::from_digits(Digits::from_text(b"24001")?).ok()?,
        transaction: Transaction {
            peer: peer(b"467")?,
            remote: None,
        },
        kind,
    })
}

fn cancel() -> Option<Dialogue> {
    dialogue(Kind::Cancel {
        vlr: peer(b"467")?,
        attempt: 1,
        why: CancellationType::UpdateProcedure,
    })
}

fn opens_data(table: &mut Dialogues) -> Option<Tid> {
    let Some(data) = dialogue(Kind::Data) else {
        return None;
    };
    if table.is_full() {
        return None;
    }
    table.open(&data, 2, 5).ok()
}

fn opens_cancel(table: &mut Dialogues) -> Option<Tid> {
    let Some(cancel) = cancel() else {
        return None;
    };
    if table.is_full() {
        return None;
    }
    table.open(&cancel, 1, 6).ok()
}

fn replaced_by_cancel(table: &mut Dialogues, id: Tid) -> Option<Tid> {
    let Some(cancel) = cancel() else {
        return None;
    };
    if table.get(id).is_none() {
        return None;
    }
    table.replace(id, &cancel, 1, 7).ok()
}

fn closes(table: &mut Dialogues, id: Tid) -> bool {
    let is_open = table.get(id).is_some();
    if is_open {
        table.close(id);
    }
    is_open
}

fn goes_on(table: &mut Dialogues, id: Tid) -> Option<()> {
    if table.get(id).is_none() {
        return None;
    }
    let origin = RemoteId::read(&[7])?;
    let left = table.effect(id, &NOTHING, &LAST, 9).ok()?.left;
    table.go_on(id, &left).ok()?;
    if table.get(id).is_none() {
        return None;
    }
    table.activate(id, peer(b"468")?, origin);
    Some(())
}

fn tells(table: &Dialogues, id: Tid) -> Option<Conclusion> {
    Some(table.effect(id, &NOTHING, &LAST, 9).ok()?.conclusion)
}

fn lists_only(table: &Dialogues, id: Tid) -> Option<bool> {
    Some(table.list().ok()?.as_slice() == [id].as_slice())
}

fn invocations_of(table: &Dialogues, id: Tid) -> Option<usize> {
    Some(table.invocations(id).ok()?.len())
}

/// Whether a call that changes the table answers as expected, or the table is as expected.
fn is_so(table: &mut Dialogues, step: &Step) -> bool {
    match step {
        Step::OpensData(id) => opens_data(table) == Some(*id),
        Step::OpensCancel(id) => opens_cancel(table) == Some(*id),
        Step::ReplacedByCancel(id, next) => replaced_by_cancel(table, *id) == Some(*next),
        Step::Closes(id) => closes(table, *id),
        Step::GoesOn(id) => goes_on(table, *id) == Some(()),
        Step::ForgetsOne(id, invoke) => {
            table.forget_one(*id, *invoke);
            true
        }
        told => is_told(table, told),
    }
}

fn is_told(table: &Dialogues, step: &Step) -> bool {
    match step {
        Step::IsCancel(id) => cancel().is_some() && table.get(*id) == cancel(),
        Step::Tells(id, conclusion) => tells(table, *id) == Some(*conclusion),
        Step::IsDue(now, wanted) => table.least_due(*now).is_some() == *wanted,
        Step::CountIs(count) => table.len() == *count,
        Step::ListsOnly(id) => lists_only(table, *id) == Some(true),
        Step::Invocations(id, count) => invocations_of(table, *id) == Some(*count),
        _ => false,
    }
}

fn play(rt: &impl Abort, table: &mut Dialogues, steps: &[Step]) {
    for (place, step) in steps.iter().enumerate() {
        assert!(rt; is_so(table, step), "step {place}");
    }
}

const OPENS_AND_CLOSES: [Step; 5] = [
    Step::OpensData(FIRST),
    Step::OpensCancel(SECOND),
    Step::Closes(FIRST),
    Step::CountIs(1),
    Step::IsCancel(SECOND),
];

#[test]
fn opens_and_closes(rt: HostRuntime) -> Result<(), Fail> {
    let mut table = Dialogues::new(rt.alloc(), 3)?;
    play(&rt, &mut table, &OPENS_AND_CLOSES);
    Ok(())
}

const IN_ITS_PLACE: [Step; 3] = [
    Step::OpensData(FIRST),
    Step::ReplacedByCancel(FIRST, AFTER_FIRST),
    Step::IsCancel(AFTER_FIRST),
];

#[test]
fn another_in_its_place(rt: HostRuntime) -> Result<(), Fail> {
    let mut table = Dialogues::new(rt.alloc(), 3)?;
    play(&rt, &mut table, &IN_ITS_PLACE);
    Ok(())
}

const GOES_ON: [Step; 6] = [
    Step::OpensData(FIRST),
    Step::Tells(FIRST, Conclusion::GoesOn),
    Step::GoesOn(FIRST),
    Step::IsDue(14, true),
    Step::ForgetsOne(FIRST, 1),
    Step::IsDue(24, false),
];

#[test]
fn goes_on_after_a_continue(rt: HostRuntime) -> Result<(), Fail> {
    let mut table = Dialogues::new(rt.alloc(), 3)?;
    play(&rt, &mut table, &GOES_ON);
    Ok(())
}

const OF_THE_COPIED: [Step; 1] = [Step::OpensData(FIRST)];

const OF_A_COPY: [Step; 3] = [
    Step::ListsOnly(FIRST),
    Step::CountIs(1),
    Step::Invocations(FIRST, 2),
];

#[test]
fn listed(rt: HostRuntime) -> Result<(), Fail> {
    let mut table = Dialogues::new(rt.alloc(), 3)?;
    play(&rt, &mut table, &OF_THE_COPIED);
    let mut copy = table.try_copy()?;
    play(&rt, &mut copy, &OF_A_COPY);
    Ok(())
}

/// Whether a dialogue opens, or an allocation fails and nothing changes.
fn opens_or_stays(table: &mut Dialogues) -> bool {
    let before = (table.len(), table.next_id());
    opens_data(table).is_some() || (table.len(), table.next_id()) == before
}

/// Each allocation fails in turn by `rt try --test --fail-alloc N`.
#[test]
fn refused_growths(rt: HostRuntime) {
    let Ok(mut table) = Dialogues::new(rt.alloc(), 4) else {
        return;
    };
    for _number in 0..8 {
        assert!(rt; opens_or_stays(&mut table));
    }
}
