//! A shard and its journal.

ghost use Rattle.std.specs.Prelude.{◌≡◌, ◌≢◌, ◌⊎◌, ◌↔◌, ◌<◌, ◌≤◌, ◌++◌, ◌∷◌, [], List, length, vec_len, vec_capacity, IfOk, IfErr, OnOk, OnErr, MatchResult, Err, Some, None};
ghost use Rattle.frames.specs.OctetJournals.{RawEpoch};
ghost use Rattle.frames.specs.Octets.{RawClock, RawExpire};
ghost use Rattle.machine.specs.declared.numbers.TheConstants.{MAX_ENTRIES};
ghost use Rattle.machine.specs.Routing.{route};
ghost use Rattle.machine.specs.Step.{HasNoRoom};
ghost use Rattle.hlrcore.specs.Answers.{entry_of};
ghost use Rattle.hlrcore.specs.Shards.{directory_of, state_of};
ghost use Rattle.hlrcore.specs.Addressees.{IsAddressee};
ghost use Rattle.hlrcore.specs.Events.{event_of, raw_event, raw_of};
ghost use Rattle.hlrcore.specs.Spent.{spent};
ghost use Rattle.shardlog.specs.Entries.{raw_entries};
ghost use Rattle.shardlog.specs.Handling.{Handles, RefusesOwn};
ghost use Rattle.shardlog.specs.Log.{LogKeeps, base_of, fresh, log};
ghost use Rattle.shardlog.specs.Chains.{LeadTo, raw_epoch};
ghost use Rattle.shardlog.specs.Ticking.{AreTicked, Hinders};

use crate::entry::{Entry, Epoch, Handled};
use crate::fault::ShardFault;
use crate::keep::Keep;
use hlr_types::Imsi;
use hlrcore::{Addressee, Event, OutList, RawEvent, ShardNumber, State, StepAnswer};
use machine::numbers::MAX_ENTRIES;
use std::alloc::{AllocError, Global};
use std::marker::Model;
use std::mem;

/// For how many entries a journal begins with room: an eighth of what it may have.
const FIRST_ROOM: usize = 8_192;

/// A shard with its journal, which is legal: its entries lead from the base to the state. If no entries are kept, the journal is
/// empty, and begins in the current state.
#[derive(Drop)]
pub struct Shard {
    alloc: Global,
    keep: Keep,
    /// The base. If there is none, the journal is empty, and begins in the current state.
    base: Option<State>,
    entries: Vec<Entry>,
    state: State,
}

impl Model for Shard {
    ghost use Rattle.shardlog.specs.Entries.{raw_entries};
    ghost use Rattle.shardlog.specs.Log.{IsHeld, Log, base_of, log, log_code};

    ghost Value = { Log };

    ghost coded = { log_code };

    ghost view = { λ s. log s.keep (base_of s.base s.state) (raw_entries s.entries.items) s.state };

    ghost invariant = { λ s. IsHeld s.keep s.base (raw_entries s.entries.items) s.state };
}

impl Shard {
    /// A shard that begins in this state, without an entry. If entries are kept, it has a buffer for 8,192 of them, and the state is
    /// copied, as the base, only before the first event. On error the state is returned.
    pub fn new(alloc: Global, state: State, keep: Keep) -> Result<Shard, (State, AllocError)>
        ensures begins { IfOk result (λ shard. shard ≡ fresh keep state) }
        ensures keeps { IfOk result LogKeeps }
        ensures back { IfErr result (λ refused. refused.0 ≡ state) }
    {
        state.law_sound();
        match first_entries(alloc, keep) {
            Ok(entries) => Ok(Shard {
                alloc,
                keep,
                base: None,
                entries,
                state,
            }),
            Err(refused) => Err((state, refused)),
        }
    }

    /// Handles an event, of which it is known whom it is for. If entries are kept, the journal gets one, which takes the event's octets,
    /// so that they are not copied: what is left of a frame has no octets, and what is left of a change is a withdrawal. Otherwise the
    /// event is unchanged. `NotMine` if it is for another shard; `JournalFull` if the journal is full; `NoRoom` if it is an operator's
    /// change that would open a dialogue in a full shard; `Memory` if an allocation fails. On error nothing changes.
    pub fn handle(&mut self, event: &mut Event, found: Addressee) -> Result<Handled, ShardFault>
        requires { IsAddressee (directory_of self.old.state.directory) (event_of event.old) found }
        // A step of the machine over octets, which leaves each open dialogue as it is that the event does not name.
        ensures handles { IfOk result (λ handled. Handles self.old
            (raw_of event.old) handled self.new) }
        // The invariant of every journal.
        ensures keeps { LogKeeps self.new }
        ensures not_mine { result ≡ Err ShardFault.NotMine
            → route (directory_of self.old.state.directory)
            (event_of event.old) ≢ self.old.state.shard }
        ensures mine { route (directory_of self.old.state.directory)
            (event_of event.old) ≢ self.old.state.shard
            → result ≡ Err ShardFault.NotMine }
        // A full journal comes before what memory or the state would refuse.
        ensures full { (result ≡ Err ShardFault.JournalFull)
            ↔ ((route (directory_of self.old.state.directory) (event_of event.old)
            ≡ self.old.state.shard)
            × (self.old.keep ≡ Keep.Entries) × (length self.old.entries ≡ MAX_ENTRIES)) }
        ensures room { length self.old.entries ≡ MAX_ENTRIES → OnOk result ⊥ }
        ensures no_room { result ≡ Err ShardFault.NoRoom
            → HasNoRoom (state_of self.old.state) (event_of event.old) }
        ensures no_step { HasNoRoom (state_of self.old.state) (event_of event.old) → OnOk result ⊥ }
        ensures err { OnErr result (self.new ≡ self.old) }
        ensures left { OnOk result (self.old.keep ≡ Keep.Entries
            → raw_of event.new ≡ spent (raw_of event.old)) }
        ensures lent { self.old.keep ≡ Keep.Nothing → event.new ≡ event.old }
        ensures unchanged { OnErr result (event.new ≡ event.old) }
    {
        self.own(found.shard)?;
        make_room(self.keep, &mut self.base, &mut self.entries, &self.state)?;
        let answer = self.state.step_for(event, found)?;
        match self.keep {
            Keep::Entries => Ok(append(&mut self.entries, event.take_raw(), answer)),
            Keep::Nothing => Ok(sent(answer)),
        }
    }

    /// Handles the expiry of this shard's least timer that is due, if any: as `handle` does, with nothing to read.
    /// `NotMine` if it is for another shard; `JournalFull` if the journal is full; `Memory` if an allocation fails. On error
    /// nothing changes.
    pub fn expire(&mut self, shard: ShardNumber) -> Result<Handled, ShardFault>
        // A step of the machine over octets, which leaves each open dialogue as it is that the event does not name.
        ensures handles { IfOk result (λ handled. Handles self.old
            (RawExpire shard) handled self.new) }
        // The invariant of every journal.
        ensures keeps { LogKeeps self.new }
        ensures refused { RefusesOwn self.old shard result }
        ensures err { OnErr result (self.new ≡ self.old) }
    {
        self.own(shard.number())?;
        make_room(self.keep, &mut self.base, &mut self.entries, &self.state)?;
        let answer = self.state.expire()?;
        match self.keep {
            Keep::Entries => Ok(append(&mut self.entries, RawEvent::Expire { shard }, answer)),
            Keep::Nothing => Ok(sent(answer)),
        }
    }

    /// Handles a clock value for this shard: as `handle` does, with nothing to read. `NotMine` if it is for another shard;
    /// `JournalFull` if the journal is full; `Memory` if an allocation fails, which can be only if entries are kept. On error nothing
    /// changes.
    pub fn tick(&mut self, shard: ShardNumber, now: u64) -> Result<Handled, ShardFault>
        // A step of the machine over octets, which leaves each open dialogue as it is that the event does not name.
        ensures handles { IfOk result (λ handled. Handles self.old
            (RawClock shard now) handled self.new) }
        // The invariant of every journal.
        ensures keeps { LogKeeps self.new }
        ensures refused { RefusesOwn self.old shard result }
        ensures enough { result ≡ Err ShardFault.Memory → self.old.keep ≡ Keep.Entries }
        ensures err { OnErr result (self.new ≡ self.old) }
    {
        self.own(shard.number())?;
        make_room(self.keep, &mut self.base, &mut self.entries, &self.state)?;
        let answer = self.state.tick(now);
        match self.keep {
            Keep::Entries => Ok(append(&mut self.entries, RawEvent::Clock { shard, now }, answer)),
            Keep::Nothing => Ok(sent(answer)),
        }
    }

    /// Refuses an event that is for another shard.
    fn own(&self, shard: u8) -> Result<(), ShardFault>
        ensures mine { OnOk result (shard ≡ self.now.state.shard) }
        ensures not_mine { (result ≡ Err ShardFault.NotMine) ↔ (shard ≢ self.now.state.shard) }
        ensures only { OnErr result (result ≡ Err ShardFault.NotMine) }
    {
        if shard == self.state.number() {
            Ok(())
        } else {
            Err(ShardFault::NotMine)
        }
    }

    /// Whether entries are kept.
    pub fn keep(&self) -> Keep
        ensures { result ≡ self.now.keep }
    {
        self.keep
    }

    /// The base: the state in which the journal begins.
    pub fn base(&self) -> &State
        ensures base { result.now ≡ self.now.base }
        ensures keeps { LogKeeps self.now }
    {
        match &self.base {
            Some(base) => base,
            None => &self.state,
        }
    }

    /// The journal.
    pub fn entries(&self) -> &[Entry]
        ensures entries { raw_entries result.now ≡ self.now.entries }
        ensures keeps { LogKeeps self.now }
    {
        &self.entries
    }

    /// The current state of the shard.
    pub fn state(&self) -> &State
        ensures { result.now ≡ self.now.state }
    {
        &self.state
    }

    /// Cuts the journal off, and returns it with its base. The next journal is empty and begins in the current state.
    pub fn cut(&mut self) -> Result<Epoch, AllocError>
        ensures epoch { IfOk result (λ epoch. (epoch.base ≡ self.old.base)
            × (raw_entries epoch.entries.items ≡ self.old.entries)) }
        ensures next { OnOk result (self.new ≡ fresh self.old.keep self.old.state) }
        ensures keeps { LogKeeps self.old × LogKeeps self.new }
        // If epochs lead to the shard, they also do with this one appended.
        ensures leads { IfOk result (λ epoch. (epochs : List RawEpoch) → LeadTo epochs self.old
            → LeadTo (epochs ++ raw_epoch epoch ∷ []) self.new) }
        ensures err { OnErr result (self.new ≡ self.old) }
    {
        keep_base(&mut self.base, &self.state)?;
        let Some(base) = mem::replace(&mut self.base, None) else {
            unreachable!()
        };
        let entries = mem::replace(&mut self.entries, Vec::new(self.alloc));
        Ok(Epoch { base, entries })
    }

    /// Cuts the journal off, and drops it. The next journal is empty, begins in the current state, and has the room of this one.
    pub fn drop_journal(&mut self)
        ensures next { self.new ≡ fresh self.old.keep self.old.state }
        ensures keeps { LogKeeps self.old × LogKeeps self.new }
    {
        self.base = None;
        self.entries.clear();
    }
}

/// Handles a clock value for each of these shards, as `Shard::tick` does. `JournalFull` if the journal of one of them is full; `Memory`
/// if an allocation fails, which can be only if entries are kept. What can fail comes first, in each of them: on error nothing changes.
pub fn tick_all(shards: &mut [Shard], now: u64) -> Result<(), ShardFault>
    ensures ticks { OnOk result (AreTicked now shards.old shards.new) }
    ensures hinders { IfErr result (Hinders shards.old) }
    ensures err { OnErr result (shards.new ≡ shards.old) }
{
    let Some((first, rest)) = shards.split_first_mut() else {
        return Ok(());
    };
    make_room(
        first.keep,
        &mut first.base,
        &mut first.entries,
        &first.state,
    )?;
    tick_all(rest, now)?;
    first.state.law_sound();
    let shard = ShardNumber::new(first.state.number()).unwrap();
    let answer = first.state.tick(now);
    match first.keep {
        Keep::Entries => {
            append(&mut first.entries, RawEvent::Clock { shard, now }, answer);
            Ok(())
        }
        Keep::Nothing => Ok(()),
    }
}

/// An empty list of entries. If entries are kept, it has a buffer for 8,192, so that they are not moved as the list begins to grow; what
/// is not written to takes addresses, but no memory.
fn first_entries(alloc: Global, keep: Keep) -> Result<Vec<Entry>, AllocError>
    ensures { IfOk result (λ entries. entries.items ≡ []) }
{
    match keep {
        Keep::Entries => Vec::with_capacity(alloc, FIRST_ROOM),
        Keep::Nothing => Ok(Vec::new(alloc)),
    }
}

/// If entries are kept, makes room for one more, and keeps the state as the base if there is none yet. `JournalFull` if there are
/// 65,536. What is held stays the same.
fn make_room(
    keep: Keep,
    base: &mut Option<State>,
    entries: &mut Vec<Entry>,
    state: &State,
) -> Result<(), ShardFault>
    requires { length entries.old.items ≤ MAX_ENTRIES }
    ensures room { OnOk result (keep ≡ Keep.Entries → vec_len entries.new < vec_capacity entries.new) }
    ensures few { OnOk result (keep ≡ Keep.Entries → length entries.old.items < MAX_ENTRIES) }
    ensures kept { OnOk result (keep ≡ Keep.Entries
        → base.new ≡ Some (base_of base.old state.now)) }
    ensures base { keep ≡ Keep.Nothing → base.new ≡ base.old }
    ensures entries { entries.new.items ≡ entries.old.items }
    ensures same { base_of base.new state.now ≡ base_of base.old state.now }
    ensures full { (result ≡ Err ShardFault.JournalFull)
        ↔ ((keep ≡ Keep.Entries) × (length entries.old.items ≡ MAX_ENTRIES)) }
    ensures only { IfErr result
        (λ fault. (fault ≡ ShardFault.JournalFull) ⊎ (fault ≡ ShardFault.Memory)) }
    ensures err { OnErr result (base.new ≡ base.old) }
    ensures enough { keep ≡ Keep.Nothing → OnErr result ⊥ }
{
    if let Keep::Nothing = keep {
        return Ok(());
    }
    if entries.len() >= MAX_ENTRIES {
        return Err(ShardFault::JournalFull);
    }
    entries.reserve(1)?;
    keep_base(base, state)?;
    Ok(())
}

/// What is sent of a step of which no entry is kept.
#[inline(always)]
fn sent(answer: StepAnswer) -> Handled
    ensures outs { result.outs ≡ answer.outs }
    ensures position { result.position ≡ 0 }
    ensures subject { result.subject ≡ answer.subject }
{
    told(0, answer.subject, answer.outs.into_both().0)
}

/// Copies the state as the base, if there is none yet. What is the base stays the same.
fn keep_base(base: &mut Option<State>, state: &State) -> Result<(), AllocError>
    ensures kept { OnOk result (base.new ≡ Some (base_of base.old state.now)) }
    ensures err { OnErr result (base.new ≡ base.old) }
{
    if base.is_none() {
        *base = Some(state.try_copy()?);
    }
    Ok(())
}

/// Appends the entry of a step, and returns what is to be sent.
fn append(entries: &mut Vec<Entry>, event: RawEvent, answer: StepAnswer) -> Handled
    requires { vec_len entries.old < vec_capacity entries.old }
    ensures put { raw_entries entries.new.items
        ≡ raw_entries entries.old.items ++ entry_of (raw_event event) answer ∷ [] }
    ensures outs { result.outs ≡ answer.outs }
    ensures position { result.position ≡ length entries.old.items }
    ensures subject { result.subject ≡ answer.subject }
{
    let position = entries.len();
    let (outs, kept) = answer.outs.into_both();
    entries.push_reserved(Entry {
        event,
        id: answer.id,
        subject: answer.subject,
        outs: kept,
    });
    told(position, answer.subject, outs)
}

/// What is told of an event that is handled.
#[inline(always)]
fn told(position: usize, subject: Option<Imsi>, outs: OutList) -> Handled
    ensures position { result.position ≡ position }
    ensures subject { result.subject ≡ subject }
    ensures outs { result.outs ≡ outs }
{
    Handled {
        position,
        subject,
        outs,
    }
}
