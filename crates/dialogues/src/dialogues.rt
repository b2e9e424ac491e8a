//! The open dialogues of a shard.

ghost use Rattle.std.specs.Prelude.{◌≡◌, ◌≢◌, ◌<◌, ◌≤◌, ◌^◌, ◌-◌, ◌↔◌, ℕ, List, Some, None, IfOk, IfSome, IsNone, IsTrue, OnOk, OnErr, FitsSigned, map, option_map};
ghost use Rattle.std.specs.Int.{w8};
ghost use Rattle.std.specs.FinMap as finite;
ghost use Rattle.std.specs.FinSet as set;
ghost use Rattle.machine.specs.Deadlines.{IsFirst, IsTimer};
ghost use Rattle.machine.specs.Effect.{effect};
ghost use Rattle.machine.specs.Keys.{put};
ghost use Rattle.machine.specs.State.{State, IsFull, IsIdOf};
ghost use Rattle.machine.specs.Turns.{Expiry};
ghost use Rattle.tidalloc.specs.LiveIds.{after_freeing, after_taking, next_id, next_use};
ghost use Rattle.tidalloc.specs.Resumed.{ascending};
ghost use Rattle.tsl.specs.Received.{destination_of};
ghost use Rattle.csl.specs.Effects.{IsEffect, offered};
ghost use Rattle.csl.specs.Seen.{heard, told_of};
ghost use Rattle.csl.specs.Tables.{first_invoked};

use crate::dialogue::Dialogue;
use crate::parts::{begin, close, make_room, place_for, slot_of};
use crate::talk::Talk;
use csl::{Due, Effect, Invocations, Offer, Remaining, Was};
use hlr_types::{Peer, RemoteId, Tid};
use q773_comp::Component;
use std::alloc::{AllocError, Global};
use std::marker::Model;
use tidalloc::Ids;
use tsl::{Head, Received, Transactions};

/// The open dialogues of a shard, at most 4,096: the transaction, the invocations, the subscriber and the kind of each.
#[derive(Drop)]
pub struct Dialogues {
    transactions: Transactions,
    invocations: Invocations,
    /// Subscriber and kind of each dialogue, indexed by the slot of its id. A slot without an open dialogue holds stale data.
    talks: Vec<Talk>,
}

impl Model for Dialogues {
    ghost use Rattle.dialogues.specs.Dialogues.{OpenDialogues, open_dialogues_code};

    ghost Value = { OpenDialogues };

    ghost coded = { open_dialogues_code };

    ghost use Rattle.dialogues.specs.Joined.{joined, AreTied};

    ghost view = { λ a. joined a.transactions a.invocations a.talks.items };

    ghost invariant = { λ a. AreTied a.transactions a.invocations a.talks.items };
}

impl Dialogues {
    ghost use Rattle.dialogues.specs.Dialogues.{IsFresh, IsNew, KeepsIds, activated, beginning_after, count, dialogues_of, invocations_in, gone_on, forgotten, next_of, none_with};
    ghost use Rattle.dialogues.specs.Expiring.{HasDialogues, expiry_turn};
    ghost use Rattle.dialogues.specs.Looking.{looked};
    ghost use Rattle.dialogues.specs.Seen.{dialogue_with};

    /// No dialogue is open.
    pub fn new(alloc: Global, shard: u8) -> Result<Self, AllocError>
        requires { shard < 16 }
        ensures { IfOk result (IsFresh shard) }
    {
        Self::with_ids(alloc, Ids::new(alloc, shard)?)
    }

    /// No dialogue is open, and the next ids are those of these, of which none is live: so a shard goes on with the ids that it had.
    pub fn with_ids(alloc: Global, ids: Ids) -> Result<Self, AllocError>
        requires { ids.live ≡ set.empty }
        ensures { IfOk result (λ dialogues. dialogues ≡ none_with ids) }
    {
        Ok(Dialogues {
            transactions: Transactions::with_ids(alloc, ids)?,
            invocations: Invocations::new(alloc),
            talks: Vec::new(alloc),
        })
    }

    /// The ids: those of the open dialogues, and those that come next.
    pub fn ids(&self) -> &Ids
        ensures shard { result.now.shard ≡ self.now.shard }
        ensures supply { result.now.supply ≡ self.now.supply }
        ensures live { ascending result.now.live ≡ finite.keys self.now.open_ones }
        ensures count { set.len result.now.live ≡ count self.now }
    {
        self.transactions.ids()
    }

    /// The open dialogue with this id, if there is one.
    pub fn get(&self, id: Tid) -> Option<Dialogue>
        ensures { option_map (dialogue_with (invocations_in (dialogues_of self.now id))) result
            ≡ dialogues_of self.now id }
    {
        let Some(transaction) = self.transactions.get(id) else {
            return None;
        };
        let talk = self.talks[slot_of(id)];
        Some(Dialogue {
            subscriber: talk.subscriber,
            transaction,
            kind: talk.kind,
        })
    }

    /// Which dialogue a message is for, from whatever source (Q.774): a Continue for the dialogue with its destination id, if the
    /// transaction table accepts it; an End or an Abort for the open dialogue with its destination id.
    pub fn look(&self, head: &Head) -> Received
        ensures { (from : List ℕ) → result
            ≡ looked from head.now (dialogues_of self.now (destination_of head.now)) }
    {
        self.transactions.look(head)
    }

    /// Returns what received components do to the invocations of a dialogue, and what they leave of them. Changes nothing.
    pub fn effect<P>(
        &self,
        id: Tid,
        offer: &Offer,
        components: &[Component<P>],
        now: u64,
    ) -> Result<Effect, AllocError>
        requires { now ≤ 2 ^ 62 }
        ensures { IfOk result (λ answer. IsEffect answer
            (effect now (offered offer.now) (invocations_in (dialogues_of self.now id))
            (map heard components.now))) }
    {
        self.invocations.effect(id, offer, components, now)
    }

    /// The invocation that an expiry handles: of those whose timer is due the least by time, then by the octets of the local id,
    /// then by the invoke id as a signed number (profile).
    pub fn least_due(&self, now: u64) -> Option<Due>
        ensures expiry { (S : State) → HasDialogues S self.now now
            → Expiry S self.now.shard (expiry_turn self.now result) }
        ensures is_open { IfSome result (λ due. dialogues_of self.now due.id ≢ None) }
        // A caller that passes the invoke id on needs its range.
        ensures fits { IfSome result (λ due. FitsSigned w8 due.invoke) }
    {
        self.invocations.least_due(now)
    }

    /// The first deadline of an invocation, whether it is due or not.
    pub fn first_deadline(&self) -> Option<u64>
        ensures { (S : State) → S.dialogues ≡ dialogues_of self.now
            → IsFirst (IsTimer S self.now.shard) result }
    {
        self.invocations.first_deadline()
    }

    /// The id for the next dialogue that opens. `None` exactly if the shard is full.
    pub fn next_id(&self) -> Option<Tid>
        ensures value { result ≡ next_of self.now }
        ensures is_new { IfSome result (IsNew self.now) }
        ensures full { (S : State) → S.dialogues ≡ dialogues_of self.now
            → IsNone result ↔ IsFull S self.now.shard }
    {
        self.transactions.next_id()
    }

    /// The id for a dialogue that opens in the step in which this one closes.
    pub fn next_after(&self, id: Tid) -> Tid
        requires { dialogues_of self.now id ≢ None }
        ensures value { result ≡ next_use id }
        ensures is_new { IsNew self.now result }
        ensures other { result ≢ id }
    {
        self.transactions.next_after(id)
    }

    /// Whether the shard is full: 4,096 dialogues are open.
    pub fn is_full(&self) -> bool
        ensures full { (S : State) → S.dialogues ≡ dialogues_of self.now
            → IsTrue result ↔ IsFull S self.now.shard }
        ensures room { IsTrue result ↔ (next_of self.now ≡ None) }
    {
        self.next_id().is_none()
    }

    /// How many dialogues are open, each under an id of the shard.
    pub fn len(&self) -> usize
        ensures value { result ≡ count self.now }
        ensures most { result ≤ 4096 }
        ensures of_shard { (id : List ℕ) → dialogues_of self.now id ≢ None
            → IsIdOf self.now.shard id }
    {
        self.transactions.len()
    }

    /// The ids of the open dialogues, in ascending order.
    pub fn list(&self) -> Result<Vec<Tid>, AllocError>
        ensures { IfOk result (λ ids. ids.items ≡ finite.keys self.now.open_ones) }
    {
        self.transactions.list()
    }

    /// The invocations of a dialogue by invoke id: each with its state and its deadline.
    pub fn invocations(&self, id: Tid) -> Result<Vec<(i8, Was, u64)>, AllocError>
        ensures { IfOk result (λ told. told.items
            ≡ map told_of (invocations_in (dialogues_of self.now id))) }
    {
        self.invocations.list(id)
    }

    /// Whether dialogues here and there open under the same ids, for ever, if the same ones close.
    pub fn goes_on_as(&self, other: &Dialogues) -> bool
        ensures { IsTrue result ↔ (self.now.supply ≡ other.now.supply) }
    {
        self.transactions.goes_on_as(&other.transactions)
    }

    /// From now on the first id of a slot that was never used has the generation after this one, so that a register that is started again can
    /// take other ids than before.
    pub fn begin_after(&mut self, generation: u16)
        requires { generation < 4096 }
        ensures { self.new ≡ beginning_after self.old generation }
    {
        self.transactions.begin_after(generation);
    }

    /// An equal copy.
    pub fn try_copy(&self) -> Result<Self, AllocError>
        ensures { IfOk result (λ dialogues. dialogues ≡ self.now) }
    {
        Ok(Dialogues {
            transactions: self.transactions.try_copy()?,
            invocations: self.invocations.try_copy()?,
            talks: Vec::from_slice(*self.talks.allocator(), &self.talks)?,
        })
    }

    /// Closes an open dialogue. Does not allocate.
    pub fn close(&mut self, id: Tid)
        requires { dialogues_of self.old id ≢ None }
        ensures closed { dialogues_of self.new ≡ put (dialogues_of self.old) id None }
        ensures freed { self.new.supply ≡ after_freeing self.old.supply id }
        ensures shard { self.new.shard ≡ self.old.shard }
    {
        close(&mut self.transactions, &mut self.invocations, id);
    }

    /// Opens a dialogue under the next id, and invokes the ids 1 to `invokes` in it. On error nothing changes.
    pub fn open(&mut self, dialogue: &Dialogue, invokes: u8, now: u64) -> Result<Tid, AllocError>
        requires room { next_of self.old ≢ None }
        requires some { 0 < invokes }
        requires most { invokes < 128 }
        requires early { now ≤ 2 ^ 62 }
        ensures next { IfOk result (λ id. next_of self.old ≡ Some id) }
        ensures used { OnOk result (self.new.supply ≡ after_taking self.old.supply) }
        ensures opened { IfOk result (λ id. dialogues_of self.new
            ≡ put (dialogues_of self.old) id
            (Some (dialogue_with (first_invoked now (invokes - 1)) dialogue.now))) }
        ensures shard { self.new.shard ≡ self.old.shard }
        ensures err { OnErr result (self.new ≡ self.old) }
    {
        let id = place_for(&mut self.transactions, &mut self.talks, dialogue)?;
        self.invocations.invoke_each(id, invokes, now)?;
        Ok(begin(&mut self.transactions, &mut self.talks, dialogue))
    }

    /// Opens a dialogue again under the next id, with these invocations. On error nothing changes.
    pub fn reopen(&mut self, dialogue: &Dialogue, left: &Remaining) -> Result<Tid, AllocError>
        requires { next_of self.old ≢ None }
        ensures next { IfOk result (λ id. next_of self.old ≡ Some id) }
        ensures used { OnOk result (self.new.supply ≡ after_taking self.old.supply) }
        ensures opened { IfOk result (λ id. dialogues_of self.new
            ≡ put (dialogues_of self.old) id (Some (dialogue_with left.now dialogue.now))) }
        ensures shard { self.new.shard ≡ self.old.shard }
        ensures err { OnErr result (self.new ≡ self.old) }
    {
        let next = place_for(&mut self.transactions, &mut self.talks, dialogue)?;
        self.invocations.leave(next, left)?;
        Ok(begin(&mut self.transactions, &mut self.talks, dialogue))
    }

    /// Closes an open dialogue and opens another, also in a full shard, under the id that `next_after` returns. On error nothing
    /// changes.
    pub fn replace(
        &mut self,
        id: Tid,
        dialogue: &Dialogue,
        invokes: u8,
        now: u64,
    ) -> Result<Tid, AllocError>
        requires is_open { dialogues_of self.old id ≢ None }
        requires some { 0 < invokes }
        requires most { invokes < 128 }
        requires early { now ≤ 2 ^ 62 }
        ensures next { IfOk result (λ next. next ≡ next_use id) }
        ensures other { IfOk result (λ next. next ≢ id) }
        ensures after { IfOk result (λ next. next_id self.old.shard
            (after_freeing self.old.supply id) ≡ Some next) }
        ensures used { OnOk result (self.new.supply
            ≡ after_taking (after_freeing self.old.supply id)) }
        ensures replaced { IfOk result (λ next. dialogues_of self.new
            ≡ put (put (dialogues_of self.old) id None) next
            (Some (dialogue_with (first_invoked now (invokes - 1)) dialogue.now))) }
        ensures shard { self.new.shard ≡ self.old.shard }
        ensures err { OnErr result (self.new ≡ self.old) }
    {
        let next = self.transactions.next_after(id);
        make_room(&mut self.talks, slot_of(next), dialogue.talk())?;
        self.invocations.invoke_each(next, invokes, now)?;
        close(&mut self.transactions, &mut self.invocations, id);
        Ok(begin(&mut self.transactions, &mut self.talks, dialogue))
    }

    /// An open dialogue goes on with these invocations in place of its own. On error nothing changes.
    pub fn go_on(&mut self, id: Tid, left: &Remaining) -> Result<(), AllocError>
        requires { dialogues_of self.old id ≢ None }
        ensures ok { OnOk result (dialogues_of self.new ≡ put (dialogues_of self.old) id
            (option_map (gone_on left.now) (dialogues_of self.old id))) }
        ensures ids { KeepsIds self.old self.new }
        ensures err { OnErr result (self.new ≡ self.old) }
    {
        self.invocations.leave(id, left)?;
        Ok(())
    }

    /// An open dialogue is Active after a Continue (Q.774), with this peer and this remote id. Does not allocate.
    pub fn activate(&mut self, id: Tid, peer: Peer, remote: RemoteId)
        requires { dialogues_of self.old id ≢ None }
        ensures active { dialogues_of self.new ≡ put (dialogues_of self.old) id
            (option_map (activated peer remote) (dialogues_of self.old id)) }
        ensures ids { KeepsIds self.old self.new }
    {
        self.transactions.set(id, peer, remote);
    }

    /// Makes an invocation of a dialogue Idle, if there is one. Does not allocate.
    pub fn forget_one(&mut self, id: Tid, invoke: i8)
        ensures forgotten { dialogues_of self.new ≡ put (dialogues_of self.old) id
            (option_map (forgotten invoke) (dialogues_of self.old id)) }
        ensures ids { KeepsIds self.old self.new }
    {
        self.invocations.forget_one(id, invoke);
    }
}
