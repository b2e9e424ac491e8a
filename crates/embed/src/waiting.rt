//! The frames that wait to be sent.

ghost use Rattle.std.specs.Prelude.{◌≡◌, ◌<◌, ◌++◌, [], OnOk, drop, option_map, slice_get};
ghost use Rattle.std.specs.VecDeque.{deque_capacity, deque_len};
ghost use Rattle.hlrcore.specs.Frames.{raw_out};
ghost use Rattle.embed.specs.Waiting.{IsQueue, waiting_in};

use hlrcore::{Out, OutList};
use std::alloc::{AllocError, Global};
use std::collections::VecDeque;

/// The frames of each event that sent some, in order. Of the first of these events so many were taken.
#[derive(Drop)]
pub(crate) struct Waiting {
    pub(crate) taken: usize,
    pub(crate) lists: VecDeque<OutList>,
}

impl Waiting {
    /// No frame.
    pub(crate) fn none(alloc: Global) -> Waiting
        ensures taken { result.taken ≡ 0 }
        ensures lists { result.lists.items ≡ [] }
    {
        Waiting {
            taken: 0,
            lists: VecDeque::new(alloc),
        }
    }

    /// The frame that is to be taken next. It still waits.
    pub(crate) fn front(&self) -> Option<&Out>
        requires { IsQueue self.now.taken self.now.lists.items }
        ensures { option_map (λ out. raw_out out.now) result
            ≡ slice_get (waiting_in self.now.taken self.now.lists.items) 0 }
    {
        let Some(outs) = self.lists.front() else {
            return None;
        };
        outs.as_slice().get(self.taken)
    }

    /// Drops the frame that is to be taken next, if one waits.
    pub(crate) fn drop_front(&mut self)
        requires { IsQueue self.old.taken self.old.lists.items }
        ensures queue { IsQueue self.new.taken self.new.lists.items }
        ensures rest { waiting_in self.new.taken self.new.lists.items
            ≡ drop 1 (waiting_in self.old.taken self.old.lists.items) }
    {
        let Some(outs) = self.lists.front() else {
            return;
        };
        let count = outs.as_slice().len();
        self.taken += 1;
        if self.taken < count {
            return;
        }
        self.lists.pop_front();
        self.taken = 0;
    }

    /// Drops each frame that waits. The space for the lists stays.
    pub(crate) fn drop_all(&mut self)
        ensures taken { self.new.taken ≡ 0 }
        ensures lists { self.new.lists.items ≡ [] }
    {
        let Waiting { taken, lists } = self;
        *taken = 0;
        lists.clear();
    }

    /// Makes room for the frames of one more event. Those that wait stay.
    pub(crate) fn reserve(&mut self) -> Result<(), AllocError>
        ensures taken { self.new.taken ≡ self.old.taken }
        ensures lists { self.new.lists.items ≡ self.old.lists.items }
        ensures room { OnOk result (deque_len self.new.lists < deque_capacity self.new.lists) }
    {
        self.lists.reserve(1)
    }

    /// Puts frames after those that wait.
    pub(crate) fn append(&mut self, outs: OutList)
        requires room { deque_len self.old.lists < deque_capacity self.old.lists }
        requires queue { IsQueue self.old.taken self.old.lists.items }
        ensures queue { IsQueue self.new.taken self.new.lists.items }
        ensures waiting { waiting_in self.new.taken self.new.lists.items
            ≡ waiting_in self.old.taken self.old.lists.items ++ outs }
    {
        if outs.as_slice().is_empty() {
            return;
        }
        self.lists.push_back_reserved(outs);
    }
}
