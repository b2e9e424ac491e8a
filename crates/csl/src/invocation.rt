//! One own invocation (Q.774, invocation state machine).

ghost use Rattle.std.specs.Prelude.{◌≡◌, ◌≤◌, ◌^◌, ◌+◌, FitsSigned};
ghost use Rattle.std.specs.Int.{w8};
ghost use Rattle.machine.specs.declared.numbers.TheConstants.{REJECT_TIMER};
ghost use Rattle.machine.specs.State.{is_sent, WaitForReject};
ghost use Rattle.machine.specs.Outcome.{invoked};
ghost use Rattle.csl.specs.Seen.{invocation_of, told_of, was};
ghost use Rattle.csl.specs.Tables.{is_timed, timer_at};

use crate::was::Was;
use deadlines::Timer;
use hlr_types::Tid;
use machine::numbers::{INVOCATION_TIMER, REJECT_TIMER};
use std::marker::Model;

/// An own invocation in Operation Sent or Wait for Reject, with the time at which its timer expires.
#[derive(Clone, Copy)]
pub(crate) struct Invocation {
    id: i8,
    was: Was,
    deadline: u64,
}

impl Model for Invocation {
    ghost use Rattle.std.specs.Prelude.{◌≡◌};
    ghost use Rattle.machine.specs.State as state;
    ghost use Rattle.csl.specs.Seen.{invocation_of, was_back, was_returns};

    ghost Value = { state.Invocation };

    ghost view = { λ v. invocation_of v.id v.was v.deadline };

    ghost inverse = { λ v. record { id = v.id; was = was_back v.was; deadline = v.deadline } };

    ghost inverse_ok = { λ a h i.
        record { id = a.id; was = was_returns a.was i; deadline = a.deadline } };
}

/// What fills the place of an invocation while there is none: a list of invocations has such a place (`Few`).
impl Default for Invocation {
    fn default() -> Self {
        Invocation {
            id: 0,
            was: Was::Sent,
            deadline: 0,
        }
    }
}

impl Invocation {
    /// An invocation of this invoke id, in this state, whose timer expires at this time.
    pub(crate) fn new(id: i8, was: Was, deadline: u64) -> Self
        ensures { result ≡ invocation_of id was deadline }
    {
        Invocation { id, was, deadline }
    }

    /// An invocation that is invoked now.
    pub(crate) fn sent(id: i8, now: u64) -> Self
        requires { now ≤ 2 ^ 62 }
        ensures { result ≡ invoked now id }
    {
        Invocation {
            id,
            was: Was::Sent,
            deadline: now + INVOCATION_TIMER,
        }
    }

    pub(crate) fn id(&self) -> i8
        ensures value { result ≡ self.now.id }
        // A caller that looks for the id needs its range.
        ensures fits { FitsSigned w8 result }
    {
        self.id
    }

    pub(crate) fn was(&self) -> Was
        ensures { was result ≡ self.now.was }
    {
        self.was
    }

    pub(crate) fn is_sent(&self) -> bool
        ensures { result ≡ is_sent self.now.was }
    {
        self.was == Was::Sent
    }

    /// It is answered now: Wait for Reject, with the reject timer.
    pub(crate) fn wait(&mut self, now: u64)
        requires { now ≤ 2 ^ 62 }
        ensures { self.new
            ≡ record { id = self.old.id; was = WaitForReject; deadline = now + REJECT_TIMER } }
    {
        self.was = Was::Waiting;
        self.deadline = now + REJECT_TIMER;
    }

    /// Whether it has the invoke id of another and the same deadline.
    pub(crate) fn is_timed_as(&self, other: &Self) -> bool
        ensures { result ≡ is_timed other.now.id other.now.deadline self.now }
    {
        self.id == other.id && self.deadline == other.deadline
    }

    /// Its timer, in the dialogue of this id.
    pub(crate) fn timer(&self, id: Tid) -> Timer
        ensures { result ≡ timer_at id self.now }
    {
        Timer {
            deadline: self.deadline,
            invocation: deadlines::Invocation {
                id,
                invoke: self.id,
            },
        }
    }

    /// Its invoke id, its state and its deadline.
    pub(crate) fn told(&self) -> (i8, Was, u64)
        ensures { result ≡ told_of self.now }
    {
        (self.id, self.was, self.deadline)
    }
}
