//! One batch of a script.

ghost use Rattle.std.specs.Prelude.{◌≡◌, ◌∷◌, [], ℕ, List, length, Some, IsNone, option_map, IfOk, IfErr, OnOk};
ghost use Rattle.std.specs.List.{AllByRecursion};
ghost use Rattle.frames.specs.Octets.{RawEvent as Event, RawFrame, RawOut};
ghost use Rattle.texts.specs.Lines.{lines};
ghost use Rattle.hlrcore.specs.Events.{raw_event};
ghost use Rattle.hlr_input.specs.declared.group.Group.{Group};
ghost use Rattle.hlr_input.specs.Octets.{IsOctets, ids_in, octets_of};
ghost use Rattle.hlr_input.specs.Script.{Frame, line_of};
ghost use Rattle.hlr_program.specs.Answered.{so_far};
ghost use Rattle.hlr_program.specs.Batches.{IsGood, HasIds, IsBehind, batch_of};
ghost use Rattle.hlr_program.specs.Gathering.{AddsSaid, AddsLine, AddsLines, SaidStops, LineStops, LinesStop, Handles, progress};
ghost use Rattle.hlr_program.specs.Printed.{Prints};
ghost use Rattle.hlr_program.specs.Registers.{part_of, state_known};
ghost use Rattle.hlr_program.specs.Runs.{AreEvents};
ghost use Rattle.hlr_program.specs.Stopping.{BatchStops};

use crate::ahead::count_events;
use crate::answers::Answers;
use crate::check::{check_letters, is_end};
use crate::each::Each;
use crate::fault::Fault;
use crate::register::Register;
use hlr_input::{Item, read_line, read_octets};
use hlr_types::{Peer, Tid};
use hlrcore::{Change, RawEvent};
use std::alloc::{AllocError, Global};
use std::sync::Wait;
use std::thread::Threads;
use texts::Lines;

/// Handles the events of a batch, in the order of its lines, and appends the lines of what they send. Returns the lines after the
/// batch.
///
/// A letter without an id is found before any event of the batch is handled.
pub fn handle_batch<'a, R: Threads + Wait + Sync>(
    rt: &R,
    alloc: Global,
    register: &mut Register,
    answers: &mut Answers,
    from: Lines<'a>,
    ids: Option<&[Tid]>,
) -> Result<Lines<'a>, Fault>
    requires good { AllByRecursion IsGood (batch_of (lines from.rest.now)) }
    requires plain { IsNone ids → AllByRecursion (HasIds 0) (batch_of (lines from.rest.now)) }
    requires none { part_of register.now ≡ [] }
    ensures handles { OnOk result ((sent : List RawOut)
        × Handles (ids_in (option_map (λ i. i.now) ids.entry)) register.old
        (batch_of (lines from.entry.rest.now)) sent register.new
        × Prints (so_far answers.old) sent (so_far answers.new)) }
    ensures none { OnOk result (part_of register.new ≡ []) }
    ensures behind { IfOk result (λ left.
        IsBehind from.entry.rest.now from.entry.before left.rest.now left.before) }
    ensures stops { IfErr result (BatchStops (ids_in (option_map (λ i. i.now) ids.entry))
        from.entry.before (state_known register.old) (batch_of (lines from.entry.rest.now))) }
{
    check_letters(from, ids)?;
    begin_batch(register, from);
    let behind = take_lines(rt, alloc, register, answers, from, ids)?;
    register.end_batch(rt, answers)?;
    Ok(behind)
}

/// A batch begins. Its events are counted if the register asks for their number.
fn begin_batch(register: &mut Register, from: Lines)
    ensures { register.new ≡ register.old }
{
    if register.counts() {
        register.begin_batch(count_events(from));
    }
}

/// Takes the events of the lines of a batch. Returns the lines after the batch.
fn take_lines<'a, R: Threads + Wait + Sync>(
    rt: &R,
    alloc: Global,
    register: &mut Register,
    answers: &mut Answers,
    from: Lines<'a>,
    ids: Option<&[Tid]>,
) -> Result<Lines<'a>, Fault>
    requires good { AllByRecursion IsGood (batch_of (lines from.rest.now)) }
    requires known { AllByRecursion (HasIds (length (ids_in (option_map (λ i. i.now) ids))))
        (batch_of (lines from.rest.now)) }
    ensures adds { OnOk result (AddsLines (ids_in (option_map (λ i. i.now) ids.entry))
        (progress register.old answers.old) (batch_of (lines from.entry.rest.now))
        (progress register.new answers.new)) }
    ensures behind { IfOk result (λ left.
        IsBehind from.entry.rest.now from.entry.before left.rest.now left.before) }
    ensures stops { IfErr result (LinesStop (ids_in (option_map (λ i. i.now) ids.entry))
        (progress register.old answers.old) (batch_of (lines from.entry.rest.now))) }
{
    let mut left = from;
    'lines: while let Some((line, behind)) = left.next() {
        if is_end(line.text) {
            return Ok(behind);
        }
        take_line(rt, alloc, register, answers, line.text, ids)?;
        left = behind;
    }
    Ok(left)
}

/// Takes the events of a line.
fn take_line<R: Threads + Wait + Sync>(
    rt: &R,
    alloc: Global,
    register: &mut Register,
    answers: &mut Answers,
    line: &[u8],
    ids: Option<&[Tid]>,
) -> Result<(), Fault>
    requires good { IsGood line.now }
    requires known { HasIds (length (ids_in (option_map (λ i. i.now) ids))) line.now }
    ensures adds { OnOk result (AddsLine (ids_in (option_map (λ i. i.now) ids.entry))
        (progress register.old answers.old) line.now (progress register.new answers.new)) }
    ensures stops { IfErr result (LineStops (ids_in (option_map (λ i. i.now) ids.entry))
        (progress register.old answers.old) line.now) }
{
    let Some(item) = read_line(line) else {
        unreachable!()
    };
    take_said(rt, alloc, register, answers, item, ids)
}

/// Takes the events of what a line says.
fn take_said<R: Threads + Wait + Sync>(
    rt: &R,
    alloc: Global,
    register: &mut Register,
    answers: &mut Answers,
    item: Item,
    ids: Option<&[Tid]>,
) -> Result<(), Fault>
    requires known { (events : List Event)
        × AreEvents (ids_in (option_map (λ i. i.now) ids)) (line_of item) events }
    ensures adds { OnOk result (AddsSaid (ids_in (option_map (λ i. i.now) ids.entry))
        (progress register.old answers.old) (line_of item.entry)
        (progress register.new answers.new)) }
    ensures stops { IfErr result (SaidStops (ids_in (option_map (λ i. i.now) ids.entry))
        (progress register.old answers.old) (line_of item.entry)) }
{
    match item {
        Item::Frame { from, octets } => take_frame(rt, register, answers, from, octets, ids),
        Item::Clock(now) => register.take_each(rt, Each::Clock(now), answers),
        Item::Expire => register.take_each(rt, Each::Expiry, answers),
        Item::Batch => Ok(()),
        Item::Codes { imsi, codes } => {
            let change = Change::Codes(Box::new(alloc, codes)?);
            register.take(rt, RawEvent::Change { imsi, change }, answers)
        }
        Item::Withdraw { imsi } => {
            let change = Change::Withdraw;
            register.take(rt, RawEvent::Change { imsi, change }, answers)
        }
    }
}

/// Takes a frame.
fn take_frame<R: Threads + Wait + Sync>(
    rt: &R,
    register: &mut Register,
    answers: &mut Answers,
    from: Peer,
    octets: &[u8],
    ids: Option<&[Tid]>,
) -> Result<(), Fault>
    requires { (events : List Event)
        × AreEvents (ids_in (option_map (λ i. i.now) ids)) (Frame from octets.now) events }
    ensures adds { OnOk result (AddsSaid (ids_in (option_map (λ i. i.now) ids.entry))
        (progress register.old answers.old) (Frame from octets.now)
        (progress register.new answers.new)) }
    ensures stops { IfErr result (SaidStops (ids_in (option_map (λ i. i.now) ids.entry))
        (progress register.old answers.old) (Frame from octets.now)) }
{
    let room = register.take_room();
    let event = frame(room, from, octets, ids)?;
    register.take(rt, event, answers)
}

/// A received frame, with these ids in place of the letters, in the buffer of octets that are given up.
fn frame(
    room: Vec<u8>,
    from: Peer,
    octets: &[u8],
    ids: Option<&[Tid]>,
) -> Result<RawEvent, AllocError>
    requires { (groups : List Group) × (found : List ℕ) × IsOctets octets.now groups
        × (octets_of (ids_in (option_map (λ i. i.now) ids)) groups ≡ Some found) }
    ensures { IfOk result (λ event. (groups : List Group) × (found : List ℕ)
        × IsOctets octets.now groups
        × (octets_of (ids_in (option_map (λ i. i.now) ids.entry)) groups ≡ Some found)
        × (raw_event event ≡ RawFrame from found)) }
{
    match read_octets(room, octets, ids)? {
        Some(octets) => Ok(RawEvent::Frame { from, octets }),
        None => unreachable!(),
    }
}
