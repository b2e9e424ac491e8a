//! Ids taken and freed, and out of memory.

use hlr_types::Tid;
use std::process::Abort;
use std::test::Fail;
use tidalloc::{IdFault, Ids};

/// A call, and its expected answer.
enum Step {
    NextIs(Option<Tid>),
    Takes(Result<Tid, IdFault>),
    IsFull(bool),
    /// Takes the next id where it is known that there is room.
    TakesOne(Tid),
    /// Has the slots that were never used begin after a generation.
    BeginsAfter(u16),
    /// The id that is next after a live one is freed.
    NextAfter(Tid, Tid),
    /// Frees a live id.
    GivesBack(Tid),
    IsLive(Tid, bool),
    SlotIs(Tid, Option<usize>),
    CountIs(usize),
}

fn takes_one(ids: &mut Ids, wanted: Tid) -> bool {
    !ids.is_full() && ids.take_one() == wanted
}

fn begins_after(ids: &mut Ids, generation: u16) -> bool {
    let is_one = generation < 4096;
    if is_one {
        ids.begin_after(generation);
    }
    is_one
}

fn gives_back(ids: &mut Ids, id: Tid) -> bool {
    let is_live = ids.is_live(id);
    if is_live {
        ids.give_back(id);
    }
    is_live
}

/// Whether a call answers as expected.
fn is_so(ids: &mut Ids, step: &Step) -> bool {
    match step {
        Step::NextIs(id) => ids.next_id() == *id,
        Step::Takes(taken) => ids.take() == *taken,
        Step::IsFull(is_full) => ids.is_full() == *is_full,
        Step::TakesOne(id) => takes_one(ids, *id),
        Step::BeginsAfter(generation) => begins_after(ids, *generation),
        Step::NextAfter(id, next) => ids.is_live(*id) && ids.next_after(*id) == *next,
        Step::GivesBack(id) => gives_back(ids, *id),
        Step::IsLive(id, is_live) => ids.is_live(*id) == *is_live,
        Step::SlotIs(id, slot) => ids.slot(*id) == *slot,
        Step::CountIs(count) => ids.live_count() == *count,
    }
}

fn play(rt: &impl Abort, ids: &mut Ids, steps: &[Step]) {
    for (place, step) in steps.iter().enumerate() {
        assert!(rt; is_so(ids, step), "step {place}");
    }
}

/// Generation 1 of slot 0, and then of slot 1, in shard 11.
const FIRST: Tid = Tid([11, 0, 0x10, 0]);

const SECOND: Tid = Tid([11, 0, 0x10, 1]);

/// Generation 2 of slot 0.
const AFTER_FIRST: Tid = Tid([11, 0, 0x20, 0]);

const OF_A_SHARD: [Step; 13] = [
    Step::NextIs(Some(FIRST)),
    Step::Takes(Ok(FIRST)),
    Step::Takes(Ok(SECOND)),
    Step::SlotIs(FIRST, Some(0)),
    Step::SlotIs(SECOND, Some(1)),
    Step::IsLive(FIRST, true),
    Step::NextAfter(FIRST, AFTER_FIRST),
    Step::CountIs(2),
    Step::IsLive(FIRST, true),
    Step::GivesBack(FIRST),
    Step::SlotIs(FIRST, None),
    Step::NextIs(Some(AFTER_FIRST)),
    Step::Takes(Ok(AFTER_FIRST)),
];

#[test]
fn ids_of_a_shard(rt: HostRuntime) -> Result<(), Fail> {
    let mut ids = Ids::new(rt.alloc(), 11)?;
    play(&rt, &mut ids, &OF_A_SHARD);
    Ok(())
}

/// The id of the last slot of shard 15, and the next one of that slot.
const LAST: Tid = Tid([15, 0, 0x1F, 0xFF]);

const AFTER_LAST: Tid = Tid([15, 0, 0x2F, 0xFF]);

const OF_A_FULL_SHARD: [Step; 8] = [
    Step::Takes(Err(IdFault::NoRoom)),
    Step::IsFull(true),
    Step::NextIs(None),
    Step::IsLive(LAST, true),
    Step::NextAfter(LAST, AFTER_LAST),
    Step::GivesBack(LAST),
    Step::Takes(Ok(AFTER_LAST)),
    Step::Takes(Err(IdFault::NoRoom)),
];

#[test]
fn full_shard(rt: HostRuntime) -> Result<(), Fail> {
    let mut ids = Ids::new(rt.alloc(), 15)?;
    for _number in 0..Ids::MAX_IDS {
        let _id = ids.take()?;
    }
    play(&rt, &mut ids, &OF_A_FULL_SHARD);
    Ok(())
}

/// Generation 4,095 of slot 0 in shard 1; generation 1 comes after it.
const LAST_GENERATION: Tid = Tid([1, 0xFF, 0xF0, 0]);

const GENERATIONS: [Step; 4] = [
    Step::Takes(Ok(LAST_GENERATION)),
    Step::IsLive(LAST_GENERATION, true),
    Step::GivesBack(LAST_GENERATION),
    Step::Takes(Ok(Tid([1, 0, 0x10, 0]))),
];

/// Takes and frees an id `times` times; each must be live.
fn use_ids(ids: &mut Ids, times: u32) -> Result<(), IdFault> {
    for _use in 0..times {
        let id = ids.take()?;
        if ids.is_live(id) {
            ids.give_back(id);
        }
    }
    Ok(())
}

#[test]
fn generations_go_round(rt: HostRuntime) -> Result<(), Fail> {
    let mut ids = Ids::new(rt.alloc(), 1)?;
    use_ids(&mut ids, 4094)?;
    play(&rt, &mut ids, &GENERATIONS);
    Ok(())
}

const COPIED: Tid = Tid([2, 0, 0x10, 0]);

const OF_A_COPY: [Step; 4] = [
    Step::NextIs(Some(Tid([2, 0, 0x10, 1]))),
    Step::IsLive(COPIED, true),
    Step::GivesBack(COPIED),
    Step::IsLive(COPIED, false),
];

const OF_THE_COPIED: [Step; 2] = [
    Step::NextIs(Some(Tid([2, 0, 0x10, 1]))),
    Step::IsLive(COPIED, true),
];

#[test]
fn a_copy_is_a_value_of_its_own(rt: HostRuntime) -> Result<(), Fail> {
    let mut ids = Ids::new(rt.alloc(), 2)?;
    let _first = ids.take()?;
    let mut copy = ids.try_copy()?;
    play(&rt, &mut copy, &OF_A_COPY);
    play(&rt, &mut ids, &OF_THE_COPIED);
    Ok(())
}

/// If there is room, the id taken is the one that was next.
const WITH_ROOM: [Step; 4] = [
    Step::IsFull(false),
    Step::NextIs(Some(Tid([3, 0, 0x10, 0]))),
    Step::TakesOne(Tid([3, 0, 0x10, 0])),
    Step::CountIs(1),
];

#[test]
fn taken_where_there_is_room(rt: HostRuntime) -> Result<(), Fail> {
    let mut ids = Ids::new(rt.alloc(), 3)?;
    play(&rt, &mut ids, &WITH_ROOM);
    Ok(())
}

/// The slots that were never used begin after the generation that was told last; slot 0 goes on by one.
const LATER: [Step; 8] = [
    Step::Takes(Ok(Tid([5, 0, 0x10, 0]))),
    Step::BeginsAfter(7),
    Step::Takes(Ok(Tid([5, 0, 0x80, 1]))),
    Step::GivesBack(Tid([5, 0, 0x10, 0])),
    Step::Takes(Ok(Tid([5, 0, 0x20, 0]))),
    Step::BeginsAfter(4095),
    Step::NextIs(Some(Tid([5, 0, 0x10, 2]))),
    Step::IsLive(Tid([5, 0, 0x80, 1]), true),
];

#[test]
fn ids_begin_later(rt: HostRuntime) -> Result<(), Fail> {
    let mut ids = Ids::new(rt.alloc(), 5)?;
    play(&rt, &mut ids, &LATER);
    Ok(())
}

/// What comes next is the same in a copy, until one of both takes an id more, or frees another one.
#[test]
fn the_same_ids_come_next(rt: HostRuntime) -> Result<(), Fail> {
    let mut ids = Ids::new(rt.alloc(), 6)?;
    let first = ids.take()?;
    let mut copy = ids.try_copy()?;
    assert!(&rt; ids.goes_on_as(&copy));
    let second = copy.take()?;
    assert!(&rt; !ids.goes_on_as(&copy));
    let _same = ids.take()?;
    assert!(&rt; ids.goes_on_as(&copy));
    free(&mut ids, first);
    free(&mut copy, second);
    assert!(&rt; !ids.goes_on_as(&copy));
    Ok(())
}

fn free(ids: &mut Ids, id: Tid) {
    if ids.is_live(id) {
        ids.give_back(id);
    }
}

/// Takes eight ids, which allocates nothing, so it succeeds whichever allocation fails.
#[test]
fn no_growth(rt: HostRuntime) {
    let Ok(mut ids) = Ids::new(rt.alloc(), 4) else {
        return;
    };
    for number in 0..8 {
        assert!(&rt; ids.take() == Ok(Tid::new(4, 4096 + number)));
    }
}
