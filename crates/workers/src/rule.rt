//! What the channel of a batch carries, and its rule.

ghost use Rattle.std.specs.Prelude.{◌≡◌, ◌+◌, ◌-◌, ◌++◌, ◌∷◌, [], true, false, ⊤};
ghost use Rattle.workers.specs.Hands.{hand, MatchesAll};

use crate::lot::Lot;
use crossbeam_channel::protocol::{Join, Lesson, Outcome, Protocol, Split};
use crossbeam_channel::{Pass, RuledReceiver, RuledSender};
use std::collections::LinkedList;

/// A message to a worker: which jobs of the batch it is to handle, or the order to stop.
#[derive(Drop)]
pub enum Work {
    Do(Lot),
    Stop,
}

/// What a pass knows of the channel: whether it is the sender's, its shares in the knowledge of the whole, what it sent and what
/// it took. No value of this type is ever made.
pub struct Hand {
    pub sends: bool,
    pub shares: u64,
    pub sent: LinkedList<Work>,
    pub taken: LinkedList<Work>,
}

/// The channel holds what was sent minus what was taken, in order, and after a `Stop` only `Stop` is sent.
pub struct InOrder;

impl Protocol<Work, Hand> for InOrder {
    ghost use Rattle.std.specs.Prelude.{true, []};
    ghost use Rattle.workers.specs.Hands.{hand, Kept, all_shares};

    ghost holds = { Kept };

    ghost first = { hand true all_shares [] [] };
}

/// Sends a message.
pub struct Sends;

impl Outcome<Work, Hand> for Sends {
    ghost then = { λ v x w. w ≡ hand v.sends v.shares (v.sent ++ x ∷ []) v.taken };
}

impl Lesson<Work, Hand> for Sends {
    ghost fact = { λ v items. ⊤ };
}

/// Takes a message.
pub struct Takes;

impl Outcome<Work, Hand> for Takes {
    ghost then = { λ v x w. w ≡ hand v.sends v.shares v.sent (v.taken ++ x ∷ []) };
}

impl Lesson<Work, Hand> for Takes {
    ghost fact = { λ v items. ⊤ };
}

/// Splits a worker's pass from the sender's, and joins it again.
pub struct Hires;

impl Split<Hand> for Hires {
    ghost left = { λ v. hand true (v.shares - 1) v.sent v.taken };

    ghost right = { λ v. hand false 1 [] [] };
}

impl Join<Hand> for Hires {
    ghost both = { λ v w. hand v.sends (v.shares + w.shares) v.sent (v.taken ++ w.taken) };

    ghost spent = { hand false 0 [] [] };
}

/// With every share in hand: what was sent is what was taken, followed by what the channel holds.
pub struct Totals;

impl Lesson<Work, Hand> for Totals {
    ghost fact = { λ v items. MatchesAll v.sent v.taken items };
}

pub type Sender = RuledSender<Work, Hand, InOrder>;

pub type Receiver = RuledReceiver<Work, Hand, InOrder>;

/// What one thread knows of the channel. It has no bytes.
pub type Seat = Pass<Work, Hand>;
