//! A register in one thread: its shards with their journals, and the arena in which frames are decoded.

ghost use Rattle.std.specs.Prelude.{◌≡◌, ◌≢◌, ◌<◌, ◌≤◌, ◌+◌, ◌-◌, ◌↔◌, ◌∷◌, min, max, ℕ, [], List, IsTrue, IfOk, IfErr, OnOk, OnErr, Some, map, length};
ghost use Rattle.std.specs.List.{flat_map};
ghost use Rattle.machine.specs.declared.numbers.TheConstants.{MAX_ENTRIES};
ghost use Rattle.frames.specs.Octets.{RawOut};
ghost use Rattle.hlrcore.specs.Events.{raw_of};
ghost use Rattle.shardlog.specs.Codes.{kept_if};
ghost use Rattle.shardlog.specs.declared.keep.Keep.{Keep};
ghost use Rattle.wholenode.specs.Handling.{Refuses, Takes};
ghost use Rattle.wholenode.specs.Keeping.{NodeKeeps};
ghost use Rattle.wholenode.specs.Nodes.{whole};
ghost use Rattle.wholenode.specs.Reading.{AreRead};
ghost use Rattle.hlr_program.specs.Answered.{so_far};
ghost use Rattle.hlr_program.specs.Printed.{Prints};
ghost use Rattle.hlr_program.specs.Journals.{RunsAlone};
ghost use Rattle.hlr_program.specs.Parts.{AreCut, HasRoom, IsReady, MakesRoom};
ghost use Rattle.hlr_program.specs.Shards.{event_for};
ghost use Rattle.hlr_program.specs.Statuses.{stopped_by};
ghost use Rattle.hlr_program.specs.Stopping.{EventsStop};

use crate::ahead::Ahead;
use crate::answers::Answers;
use crate::each::Each;
use crate::fault::Fault;
use bumpalo::Bump;
use hlrcore::{Event, RawEvent, ShardNumber};
use machine::numbers::{MAX_ENTRIES, SHARDS};
use records::Loaded;
use shardlog::{Handled, Keep, Shard};
use std::alloc::{AllocError, Global};
use std::marker::Model;
use wholenode::{Cause, Node, read_lot};

/// How many frames and changes are read before the first of them is handled: a lot. The code that reads them stays near then.
const LOT: usize = 64;

/// The sixteen shards, an arena for one frame at a time, and the events of a lot.
#[derive(Drop)]
pub struct Alone {
    alloc: Global,
    node: Node,
    bump: Bump,
    /// If the journals are not listed, nobody can see an entry, and none is kept, which spares time.
    keep: Keep,
    /// If entries are kept, what of the batch is not handled yet.
    ahead: Ahead,
    /// Frames and changes that are not handled yet.
    gathered: Vec<RawEvent>,
    /// The same once they are read. Both lists keep their buffers for the next lot.
    read: Vec<Event>,
    /// Octets of frames that are handled, into whose buffers the next ones are read.
    spare: Vec<Vec<u8>>,
}

impl Model for Alone {
    ghost use Rattle.std.specs.Prelude.{◌≤◌, length, map};
    ghost use Rattle.hlrcore.specs.Events.{raw_event};
    ghost use Rattle.wholenode.specs.Nodes.{NodeState, node_state_code};
    ghost use Rattle.hlr_program.specs.Gathered.{Gathered, gathered_code, with_part};
    ghost use Rattle.hlr_program.specs.Parts.{IsReady};

    ghost Value = { Gathered NodeState };

    ghost coded = { gathered_code NodeState node_state_code };

    ghost view = { λ a. with_part a.node (map raw_event a.gathered.items) };

    // The journals have room for what is left of the part, and the events that are gathered are one lot at most.
    ghost invariant = { λ a. IsReady a.keep a.node a.ahead.room × (length a.gathered.items ≤ 64) };
}

impl Alone {
    ghost use Rattle.std.specs.Prelude.{◌≡◌, ◌≤◌, ◌∷◌, [], false, IfOk, IfErr, OnOk, length};
    ghost use Rattle.hlrcore.specs.Events.{raw_event};
    ghost use Rattle.shardlog.specs.Codes.{kept_if};
    ghost use Rattle.wholenode.specs.Keeping.{NodeKeeps};
    ghost use Rattle.wholenode.specs.Opening.{BeginsWith};
    ghost use Rattle.hlr_program.specs.declared.register.Register.TheVariants as register;
    ghost use Rattle.hlr_program.specs.Gathering.{Adds, AddingStops, progress};
    ghost use Rattle.hlr_program.specs.Parts.{KeepsAs};
    ghost use Rattle.hlr_program.specs.Shards.{event_for, events_for};

    /// The register of a records file, with no open dialogue, empty journals, and no event. `listed` says whether the journals are listed
    /// at the end: only then entries are kept.
    pub fn new(alloc: Global, loaded: Loaded, listed: bool) -> Result<Alone, AllocError>
        ensures begins { IfOk result (λ alone. BeginsWith loaded (kept_if listed) 0 alone.register) }
        ensures keeps { IfOk result (λ alone. NodeKeeps alone.register) }
        ensures none { IfOk result (λ alone. alone.part ≡ []) }
    {
        let keep = keep_of(listed);
        let node = Node::new(alloc, loaded, keep, 0)?;
        Ok(Alone {
            alloc,
            node,
            bump: Bump::new(alloc),
            keep,
            ahead: Ahead::new(0),
            gathered: Vec::new(alloc),
            read: Vec::new(alloc),
            spare: Vec::new(alloc),
        })
    }

    /// The shards, indexed by their numbers.
    pub fn into_shards(self) -> Vec<Shard>
        ensures shards { result.items ≡ self.register.shards }
        ensures keeps { NodeKeeps self.register }
    {
        let Alone {
            alloc: _,
            node,
            bump: _,
            keep: _,
            ahead: _,
            gathered: _,
            read: _,
            spare: _,
        } = self;
        node.into_shards()
    }

    /// Whether entries are kept.
    pub fn keeps_entries(&self) -> bool
        ensures { KeepsAs (kept_if result) self.now.register }
    {
        matches!(self.keep, Keep::Entries)
    }

    /// A batch of so many events begins.
    pub fn begin_batch(&mut self, events: usize)
        ensures { self.new ≡ self.old }
    {
        self.ahead = Ahead::new(events);
    }

    /// An empty list for the octets of a frame, with the buffer of one that is handled, if there is one.
    pub fn take_room(&mut self) -> Vec<u8>
        ensures { self.new ≡ self.old }
    {
        match self.spare.pop() {
            Some(room) => room,
            None => Vec::new(self.alloc),
        }
    }

    /// Gathers a frame or a change. Those that are gathered are handled first if they are a lot.
    pub fn take(&mut self, raw: RawEvent, answers: &mut Answers) -> Result<(), Fault>
        ensures adds { OnOk result (Adds (progress (register.Alone self.old) answers.old)
            (raw_event raw ∷ []) (progress (register.Alone self.new) answers.new)) }
        ensures stops { IfErr result (AddingStops (progress (register.Alone self.old) answers.old)
            (raw_event raw ∷ [])) }
    {
        if self.gathered.len() >= lot_of(self.keep, &self.ahead) {
            self.run(answers)?;
        }
        self.gathered.push(raw).map_err(|_| Fault::Memory)?;
        Ok(())
    }

    /// Handles an event of each shard, in order of the shards, after those that are gathered, and appends the lines of what they send.
    pub fn take_each(&mut self, said: Each, answers: &mut Answers) -> Result<(), Fault>
        ensures adds { OnOk result (Adds (progress (register.Alone self.old) answers.old)
            (events_for said) (progress (register.Alone self.new) answers.new)) }
        ensures stops { IfErr result (AddingStops (progress (register.Alone self.old) answers.old)
            (events_for said)) }
    {
        self.run(answers)?;
        for number in 0..SHARDS {
            let shard = ShardNumber::new(number).unwrap();
            self.take_for(said, shard, answers)?;
        }
        Ok(())
    }

    /// Handles an event of a shard, if none are gathered, and appends the lines of what it sends.
    #[inline(always)]
    fn take_for(
        &mut self,
        said: Each,
        shard: ShardNumber,
        answers: &mut Answers,
    ) -> Result<(), Fault>
        requires { self.now.part ≡ [] }
        ensures adds { OnOk result (Adds (progress (register.Alone self.old) answers.old)
            (event_for said shard ∷ []) (progress (register.Alone self.new) answers.new)) }
        ensures none { self.new.part ≡ [] }
        ensures stops { IfErr result (AddingStops (progress (register.Alone self.old) answers.old)
            (event_for said shard ∷ [])) }
    {
        begin_part(self.keep, &mut self.node, &mut self.ahead, 1);
        handle_for(&mut self.node, said, shard, answers)
    }

    /// Handles the events that are gathered, and appends the lines of what they send.
    pub fn run(&mut self, answers: &mut Answers) -> Result<(), Fault>
        ensures adds { OnOk result (Adds (progress (register.Alone self.old) answers.old) []
            (progress (register.Alone self.new) answers.new)) }
        ensures none { OnOk result (self.new.part ≡ []) }
        ensures stops { IfErr result (AddingStops (progress (register.Alone self.old) answers.old) []) }
    {
        if self.gathered.is_empty() {
            return Ok(());
        }
        let count = self.gathered.len();
        begin_part(self.keep, &mut self.node, &mut self.ahead, count);
        match read_lot(
            self.alloc,
            &mut self.bump,
            &mut self.gathered,
            &mut self.read,
        ) {
            Ok(()) => handle_lot(&mut self.node, &mut self.read, answers, &mut self.spare),
            Err(cause) => Err(stopped(cause)),
        }
    }
}

/// Entries are kept only to be listed.
fn keep_of(listed: bool) -> Keep
    ensures { result ≡ kept_if listed }
{
    if listed { Keep::Entries } else { Keep::Nothing }
}

/// How many events a lot has at most. If entries are kept, it ends with its part.
fn lot_of(keep: Keep, ahead: &Ahead) -> usize
    ensures few { result ≤ 64 }
    ensures ends { keep ≡ Keep.Entries → 0 < ahead.now.room → result ≤ ahead.now.room }
    ensures next { keep ≡ Keep.Entries → ahead.now.room ≡ 0 → result ≤ ahead.now.events }
{
    match keep {
        Keep::Entries => ahead.left_of_part().min(LOT),
        Keep::Nothing => LOT,
    }
}

/// Before so many events. If they begin a part of the batch, all journals are cut, if one of them has no room for all events of the
/// part (profile). A part has 65,536 events, or those that are left of the batch. If no entry is kept there is always room.
#[inline(always)]
fn begin_part(keep: Keep, node: &mut Node, ahead: &mut Ahead, count: usize)
    requires few { count ≤ MAX_ENTRIES }
    requires ready { IsReady keep node.now ahead.now.room }
    ensures cuts { keep ≡ Keep.Entries → ahead.old.room < count
        → MakesRoom node.old (max count (min ahead.old.events MAX_ENTRIES)) node.new }
    ensures stays { count ≤ ahead.old.room → node.new ≡ node.old }
    ensures unlisted { keep ≡ Keep.Nothing → (node.new ≡ node.old) × (ahead.new ≡ ahead.old) }
    // What is left of the room: what is handled now is taken off.
    ensures made { keep ≡ Keep.Entries → ahead.old.room < count
        → ahead.new.room ≡ max count (min ahead.old.events MAX_ENTRIES) - count }
    ensures taken { keep ≡ Keep.Entries → count ≤ ahead.old.room
        → ahead.new.room ≡ ahead.old.room - count }
    ensures left { keep ≡ Keep.Entries → ahead.new.events ≡ ahead.old.events - count }
    ensures ready { IsReady keep node.new (count + ahead.new.room) }
    ensures ran { RunsAlone node.old [] [] node.new }
{
    if let Keep::Nothing = keep {
        return;
    }
    if ahead.room < count {
        ahead.room = ahead.events.min(MAX_ENTRIES).max(count);
        make_room(node, ahead.room);
    }
    ahead.room -= count;
    ahead.events = ahead.events.saturating_sub(count);
}

/// Handles an event of a shard, and appends the lines of what it sends.
#[inline(always)]
fn handle_for(
    node: &mut Node,
    said: Each,
    shard: ShardNumber,
    answers: &mut Answers,
) -> Result<(), Fault>
    requires { (keep : Keep) × IsReady keep node.now 1 }
    ensures sends { OnOk result ((sent : List RawOut)
        × RunsAlone node.old (event_for said shard ∷ []) (sent ∷ []) node.new
        × Prints (so_far answers.old) sent (so_far answers.new)) }
    ensures ready { (keep : Keep) (more : ℕ) → IsReady keep node.old (1 + more)
        → IsReady keep node.new more }
    ensures stops { IfErr result (EventsStop (Some (whole node.old.shards))
        (event_for said shard ∷ [])) }
{
    match tick_or_expire(node, said, shard) {
        Ok(handled) => Ok(answers.push_all(handled.outs.as_slice())?),
        Err(cause) => Err(stopped(cause)),
    }
}

/// A clock value and an expiry need no reading.
#[inline(always)]
fn tick_or_expire(node: &mut Node, said: Each, shard: ShardNumber) -> Result<Handled, Cause>
    ensures takes { IfOk result (λ handled. Takes node.old (event_for said shard) handled node.new) }
    ensures refused { IfErr result (λ cause. Refuses node.old (event_for said shard) cause) }
    ensures err { OnErr result (node.new ≡ node.old) }
    ensures keeps { NodeKeeps node.new }
{
    match said {
        Each::Clock(now) => node.tick(shard, now),
        Each::Expiry => node.expire(shard),
    }
}

/// Handles events that were read, and appends the lines of what they send: those of each before the next is handled, while its frames
/// are near. The buffers of octets that no entry takes go to `spare`.
fn handle_lot(
    node: &mut Node,
    read: &mut [Event],
    answers: &mut Answers,
    spare: &mut Vec<Vec<u8>>,
) -> Result<(), Fault>
    requires read { AreRead (map raw_of read.now) read.now }
    requires ready { (keep : Keep) × IsReady keep node.now (length read.now) }
    ensures sends { OnOk result ((outs : List (List RawOut))
        × RunsAlone node.old (map raw_of read.old) outs node.new
        × Prints (so_far answers.old) (flat_map (λ o. o) outs) (so_far answers.new)) }
    ensures ready { (keep : Keep) (more : ℕ) → IsReady keep node.old (length read.old + more)
        → IsReady keep node.new more }
    ensures stops { IfErr result (EventsStop (Some (whole node.old.shards)) (map raw_of read.old)) }
{
    for event in read.iter_mut() {
        let handled = match node.handle(event) {
            Ok(handled) => handled,
            Err(cause) => return Err(stopped(cause)),
        };
        answers.push_all(handled.outs.as_slice())?;
        keep_room(event.take_raw(), spare);
    }
    Ok(())
}

/// Keeps the octets of a frame that was handled, so that the next one is read into their buffer. They are dropped if memory is
/// refused.
fn keep_room(handled: RawEvent, spare: &mut Vec<Vec<u8>>) {
    if let RawEvent::Frame { octets, .. } = handled {
        let _is_kept = spare.push(octets).is_ok();
    }
}

/// Cuts all journals, if one of them has no room for `count` more entries.
fn make_room(node: &mut Node, count: usize)
    requires { count ≤ MAX_ENTRIES }
    ensures makes { MakesRoom node.old count node.new }
    ensures room { HasRoom node.new count }
    ensures keeps { NodeKeeps node.new }
{
    if !has_room(node, count) {
        cut_all(node);
    }
}

/// Whether each journal has room for `count` more entries.
fn has_room(node: &Node, count: usize) -> bool
    ensures room { IsTrue result ↔ HasRoom node.now count }
    ensures keeps { NodeKeeps node.now }
{
    let shards = node.shards();
    for shard in shards {
        if count > MAX_ENTRIES - shard.entries().len() {
            return false;
        }
    }
    true
}

/// Cuts the journal of each shard, and drops it.
fn cut_all(node: &mut Node)
    requires { NodeKeeps node.now }
    ensures cut { AreCut node.old node.new }
    ensures keeps { NodeKeeps node.new }
{
    for shard in 0..SHARDS {
        node.drop_journal(shard);
    }
}

/// The fault of events that were not handled; each had room in its journal.
fn stopped(cause: Cause) -> Fault
    requires { cause ≢ Cause.JournalFull }
    ensures { result ≡ stopped_by cause }
{
    match cause {
        Cause::Memory | Cause::ResetRefused => Fault::Memory,
        Cause::NoRoom => Fault::NoRoom,
        Cause::JournalFull => unreachable!(),
    }
}
