//! The sixteen shards of a register, in one thread.

ghost use Rattle.std.specs.Prelude.{◌≡◌, ◌≢◌, ◌<◌, [], map, Err, IfOk, IfErr, OnErr, OnOk};
ghost use Rattle.std.specs.Arc.{arc_value};
ghost use Rattle.frames.specs.Octets.{IsEvent, RawClock, RawExpire};
ghost use Rattle.hlrcore.specs.Events.{event_of, raw_event, raw_of};
ghost use Rattle.wholenode.specs.Opening.{BeginsWith, IsNodeOf};
ghost use Rattle.wholenode.specs.Handling.{Cuts, Drops, IsRun, Refuses, Runs, Stops, Takes, sent_of};
ghost use Rattle.wholenode.specs.Keeping.{AreShards, AreStates, NodeKeeps};
ghost use Rattle.wholenode.specs.Nodes.{node, whole};
ghost use Rattle.wholenode.specs.Ticking.{RefusesTicks, TicksAll};

use crate::fault::{Cause, NodeFault, refusal, unread};
use crate::opening::{opening_states, with_journals};
use bumpalo::Bump;
use hlrcore::{Event, RawEvent, ShardNumber, State, addressee_of};
use records::{Directory, Loaded};
use shardlog::{Epoch, Handled, Keep, Shard, tick_all};
use std::alloc::{AllocError, Global};
use std::marker::Model;
use std::sync::Arc;

/// The sixteen shards of a register, each with its journal, and the directory that all of them share. Together the shards are
/// one state of the machine.
#[derive(Drop)]
pub struct Node {
    alloc: Global,
    directory: Arc<Directory>,
    shards: Vec<Shard>,
}

impl Model for Node {
    ghost use Rattle.std.specs.Arc.{arc_value};
    ghost use Rattle.wholenode.specs.Nodes.{NodeState, node, node_state_code};
    ghost use Rattle.wholenode.specs.Keeping.{AreShards};

    ghost Value = { NodeState };

    ghost coded = { node_state_code };

    ghost view = { λ n. node (arc_value n.directory) n.shards.items };

    ghost invariant = { λ n. AreShards (arc_value n.directory) n.shards.items };
}

impl Node {
    /// The register of a records file: its records, no open dialogue, each clock at 0, and empty journals, which get an entry of each
    /// event, or none. The number of the start, which is to differ from one start to the next, moves where local ids begin, so that what a
    /// peer sends for a dialogue of an earlier start names, as a rule, none of this one; starts whose numbers are equal modulo 4,095 begin
    /// alike. On error the loaded value is dropped.
    pub fn new(alloc: Global, loaded: Loaded, keep: Keep, start: u32) -> Result<Node, AllocError>
        ensures begins { IfOk result (BeginsWith loaded keep start) }
        ensures keeps { IfOk result NodeKeeps }
    {
        let directory = loaded.shared_directory()?;
        let states = opening_states(alloc, loaded, start)?;
        Node::of_states(alloc, directory, states, keep)
    }

    /// The register of these states, which are of the sixteen shards in order, and share this directory: with empty journals, which get an
    /// entry of each event, or none. On error the states are dropped.
    pub fn of_states(
        alloc: Global,
        directory: Arc<Directory>,
        states: Vec<State>,
        keep: Keep,
    ) -> Result<Node, AllocError>
        requires { AreStates (arc_value directory) states.items }
        ensures is { IfOk result (IsNodeOf (arc_value directory) keep states.items) }
        ensures keeps { IfOk result NodeKeeps }
    {
        let shards = with_journals(alloc, states, keep)?;
        Ok(Node::of_parts(alloc, directory, shards))
    }

    /// The register of these shards, with the journals that they have. They are the sixteen in order, and share this directory, as
    /// `into_parts` returns them.
    pub fn of_parts(alloc: Global, directory: Arc<Directory>, shards: Vec<Shard>) -> Node
        requires { AreShards (arc_value directory) shards.items }
        ensures is { result ≡ node (arc_value directory) shards.items }
        ensures keeps { NodeKeeps result }
    {
        Node {
            alloc,
            directory,
            shards,
        }
    }

    /// The shards, indexed by their numbers.
    pub fn shards(&self) -> &[Shard]
        ensures shards { result.now ≡ self.now.shards }
        ensures keeps { NodeKeeps self.now }
    {
        &self.shards
    }

    /// The shards, indexed by their numbers. Consumes the register.
    pub fn into_shards(self) -> Vec<Shard>
        ensures shards { result.items ≡ self.shards }
        ensures keeps { NodeKeeps self }
    {
        let (_, shards) = self.into_parts();
        shards
    }

    /// The directory that the shards share, and the shards, indexed by their numbers. Consumes the register, so that each shard can be
    /// moved, for example behind a lock; `of_parts` makes it again.
    pub fn into_parts(self) -> (Arc<Directory>, Vec<Shard>)
        ensures directory { arc_value result.0 ≡ self.directory }
        ensures shards { result.1.items ≡ self.shards }
        ensures keeps { NodeKeeps self }
    {
        let Node {
            alloc: _,
            directory,
            shards,
        } = self;
        (directory, shards)
    }

    /// Handles events in order, each in its own shard, and returns for each its position in that shard's journal and what is sent.
    /// It stops at the first event that is not handled; the register is then as the events before it leave it.
    ///
    /// - `JournalFull`: the journal of its shard has 65,536 entries, until `cut`.
    /// - `NoRoom`: it is an operator's change for which the machine has no step: it would open a dialogue beside 4,096.
    /// - `Memory`: out of memory.
    /// - `ResetRefused`: it is a frame, after which the arena could not be reset.
    ///
    /// Limitation: after a fault the arena's contents are unspecified. Use a new one then.
    pub fn run(&mut self, bump: &mut Bump, events: &[RawEvent]) -> Result<Vec<Handled>, NodeFault>
        // Step by step; a step leaves each open dialogue as it is that its event does not name.
        ensures handled { IfOk result (λ done. Runs self.old
            (map raw_event events.now) done.items self.new) }
        // For the whole state they are a run of the machine over octets.
        ensures run { IfOk result (λ done. IsRun (whole self.old.shards) (map raw_event events.now)
            (map sent_of done.items) (whole self.new.shards)) }
        ensures stops { IfErr result (λ fault. Stops self.old
            (map raw_event events.now) fault.done.items fault.cause self.new) }
        ensures keeps { NodeKeeps self.new }
    {
        let mut done = room_for(self.alloc, events.len());
        for event in events {
            if done.reserve(1).is_err() {
                let cause = Cause::Memory;
                return Err(NodeFault { done, cause });
            }
            match self.take_copy(bump, event) {
                Ok(handled) => done.push_reserved(handled),
                Err(cause) => return Err(NodeFault { done, cause }),
            }
        }
        Ok(done)
    }

    /// Handles one event as received. On error nothing changes.
    fn take_copy(&mut self, bump: &mut Bump, raw: &RawEvent) -> Result<Handled, Cause>
        ensures takes { IfOk result (λ handled. Takes self.old
            (raw_event raw.now) handled self.new) }
        ensures refused { IfErr result (λ cause. Refuses self.old (raw_event raw.now) cause) }
        ensures err { OnErr result (self.new ≡ self.old) }
        ensures keeps { NodeKeeps self.new }
    {
        let event = raw.try_copy(self.alloc)?;
        self.take(bump, event)
    }

    /// Handles one event as received, which is handed over, so that its octets are not copied. A frame is decoded in the arena. On error
    /// nothing changes, and the event is dropped.
    ///
    /// - `JournalFull`: the journal of its shard has 65,536 entries, until `cut`.
    /// - `NoRoom`: it is an operator's change for which the machine has no step: it would open a dialogue beside 4,096.
    /// - `Memory`: out of memory.
    /// - `ResetRefused`: it is a frame, after which the arena could not be reset.
    ///
    /// Limitation: after a fault the arena's contents are unspecified. Use a new one then.
    pub fn take(&mut self, bump: &mut Bump, raw: RawEvent) -> Result<Handled, Cause>
        ensures takes { IfOk result (λ handled. Takes self.old (raw_event raw) handled self.new) }
        ensures refused { IfErr result (λ cause. Refuses self.old (raw_event raw) cause) }
        ensures err { OnErr result (self.new ≡ self.old) }
        ensures keeps { NodeKeeps self.new }
    {
        match raw {
            RawEvent::Clock { shard, now } => self.tick(shard, now),
            RawEvent::Expire { shard } => self.expire(shard),
            read => self.read_and_handle(bump, read),
        }
    }

    /// Handles the expiry of a shard's least timer that is due, if any. It needs no reading. On error nothing changes.
    pub fn expire(&mut self, number: ShardNumber) -> Result<Handled, Cause>
        ensures takes { IfOk result (λ handled. Takes self.old
            (RawExpire number) handled self.new) }
        ensures refused { IfErr result (λ cause. Refuses self.old (RawExpire number) cause) }
        ensures err { OnErr result (self.new ≡ self.old) }
        ensures keeps { NodeKeeps self.new }
    {
        let place = usize::from(number.number());
        let shard = &mut self.shards[place];
        match shard.expire(number) {
            Ok(expired) => Ok(expired),
            Err(why) => Err(refusal(why)),
        }
    }

    /// Handles a clock value of a shard. It needs no reading. On error nothing changes.
    pub fn tick(&mut self, number: ShardNumber, now: u64) -> Result<Handled, Cause>
        ensures takes { IfOk result (λ handled. Takes self.old
            (RawClock number now) handled self.new) }
        ensures refused { IfErr result (λ cause. Refuses self.old (RawClock number now) cause) }
        ensures err { OnErr result (self.new ≡ self.old) }
        ensures keeps { NodeKeeps self.new }
    {
        let place = usize::from(number.number());
        let shard = &mut self.shards[place];
        match shard.tick(number, now) {
            Ok(ticked) => Ok(ticked),
            Err(why) => Err(refusal(why)),
        }
    }

    /// Handles a clock value of each of the sixteen shards, in the order of their numbers. On error nothing changes, in no shard.
    ///
    /// - `JournalFull`: a journal has 65,536 entries, until `cut`.
    /// - `Memory`: out of memory, which can be only if entries are kept.
    pub fn tick_all(&mut self, now: u64) -> Result<(), Cause>
        ensures ticks { OnOk result (TicksAll self.old now self.new) }
        ensures refused { IfErr result (RefusesTicks self.old now) }
        ensures err { OnErr result (self.new ≡ self.old) }
        ensures keeps { NodeKeeps self.new }
    {
        match tick_all(&mut self.shards, now) {
            Ok(()) => Ok(()),
            Err(why) => Err(refusal(why)),
        }
    }

    /// Handles an event, whose frame is decoded in the arena. On error nothing changes.
    fn read_and_handle(&mut self, bump: &mut Bump, raw: RawEvent) -> Result<Handled, Cause>
        ensures takes { IfOk result (λ handled. Takes self.old (raw_event raw) handled self.new) }
        ensures refused { IfErr result (λ cause. Refuses self.old (raw_event raw) cause) }
        ensures err { OnErr result (self.new ≡ self.old) }
        ensures keeps { NodeKeeps self.new }
    {
        // What is read stays where it is made, since it has room for whatever a frame may hold.
        let mut read = Event::of_owned(self.alloc, bump, raw);
        match &mut read {
            Ok(event) => self.handle(event),
            Err(fault) => Err(unread(fault)),
        }
    }

    /// Handles an event that was read, as by `read_lot`. If entries are kept, its entry takes its octets. On error nothing changes.
    pub fn handle(&mut self, event: &mut Event) -> Result<Handled, Cause>
        requires { IsEvent (raw_of event.old) (event_of event.old) }
        ensures takes { IfOk result (λ handled. Takes self.old
            (raw_of event.old) handled self.new) }
        ensures refused { IfErr result (λ cause. Refuses self.old (raw_of event.old) cause) }
        ensures err { OnErr result (self.new ≡ self.old) }
        ensures keeps { NodeKeeps self.new }
    {
        let found = addressee_of(&self.directory, event);
        let place = usize::from(found.shard);
        let shard = &mut self.shards[place];
        match shard.handle(event, found) {
            Ok(handled) => Ok(handled),
            Err(fault) => Err(refusal(fault)),
        }
    }

    /// Cuts the journal of a shard off, and returns it with the state in which it begins. The states stay the same. The shard's
    /// state is copied, as the base of the next journal. On error nothing changes.
    pub fn cut(&mut self, shard: u8) -> Result<Epoch, AllocError>
        requires { shard < 16 }
        ensures cuts { IfOk result (λ epoch. Cuts self.old shard epoch self.new) }
        ensures keeps { NodeKeeps self.new }
        ensures err { OnErr result (self.new ≡ self.old) }
    {
        let place = usize::from(shard);
        self.shards[place].cut()
    }

    /// Cuts the journal of a shard off, and drops it. The states stay the same, and the next journal has the room of this one.
    pub fn drop_journal(&mut self, shard: u8)
        requires { shard < 16 }
        ensures drops { Drops self.old shard self.new }
        ensures keeps { NodeKeeps self.new }
    {
        let place = usize::from(shard);
        self.shards[place].drop_journal();
    }
}

/// An empty list, with room for so many values if memory suffices. Room for each is made again before it is there, so that nothing
/// rests on this; it spares moving them as their list grows.
fn room_for<T: Drop>(alloc: Global, values: usize) -> Vec<T>
    ensures { result.items ≡ [] }
{
    match Vec::with_capacity(alloc, values) {
        Ok(room) => room,
        Err(_) => Vec::new(alloc),
    }
}
