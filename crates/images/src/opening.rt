//! A shard whose dialogues are opened again.

ghost use Rattle.std.specs.Prelude.{◌≡◌, []};
ghost use Rattle.csl.specs.Seen.{invocation_of};
ghost use Rattle.machine.specs.Effect.{AreRising};
ghost use Rattle.images.specs.Fits.{IsFit};
ghost use Rattle.dialogues.specs.Seen.{dialogue_with};
ghost use Rattle.image_lines.specs.Lines.{End, Opened, Waits};
ghost use Rattle.images.specs.Reading.{OpensAt};
ghost use Rattle.images.specs.Seen.{TakesIf, TakesOne, seen, seen_opening};

use crate::so_far::{Opening, Reading, Stage};
use csl::{Remaining, Was};
use dialogues::Dialogue;
use hlr_types::Tid;
use std::alloc::AllocError;

impl Opening {
    /// After an invocation of the next dialogue. `None` if its id is not above those of the others.
    pub(crate) fn wait(
        mut self,
        invoke: i8,
        was: Was,
        deadline: u64,
    ) -> Result<Option<Reading>, AllocError>
        requires { AreRising self.invocations }
        ensures { TakesOne (OpensAt self.state self.left self.invocations
            (Waits (invocation_of invoke was deadline))) result }
    {
        if self.invocations.push(invoke, was, deadline)? {
            Ok(Some(self.reading()))
        } else {
            Ok(None)
        }
    }

    /// After the next dialogue, with the invocations before it. `None` if it is not the next, or cannot be put back.
    pub(crate) fn open(
        self,
        id: Tid,
        is_current: bool,
        dialogue: &Dialogue,
    ) -> Result<Option<Reading>, AllocError>
        requires { AreRising self.invocations }
        ensures { TakesOne (OpensAt self.state self.left self.invocations
            (Opened id is_current (dialogue_with [] dialogue.now))) result }
    {
        let Opening {
            alloc,
            mut state,
            left,
            invocations,
        } = self;
        if left == 0 {
            return Ok(None);
        }
        let Some(next) = state.dialogues().next_id() else {
            return Ok(None);
        };
        if next != id {
            return Ok(None);
        }
        if !state.reopen(dialogue, is_current, &invocations)? {
            return Ok(None);
        }
        let opened = Opening {
            alloc,
            state,
            left: left - 1,
            invocations: Remaining::none(alloc),
        };
        Ok(Some(opened.reading()))
    }

    /// After the last line: the shard is whole. `None` if a dialogue is left, or an invocation waits for one.
    pub(crate) fn end(self) -> Option<Reading>
        ensures { TakesIf (OpensAt self.state self.left self.invocations End) result }
    {
        let Opening {
            alloc,
            state,
            left,
            invocations,
        } = self;
        if left != 0 {
            return None;
        }
        if !invocations.is_empty() {
            return None;
        }
        Some(Reading {
            alloc,
            state,
            stage: Stage::Whole,
        })
    }

    /// What was read so far.
    fn reading(self) -> Reading
        requires { AreRising self.invocations }
        ensures seen { seen result ≡ seen_opening self }
        ensures fits { IsFit result }
    {
        let Opening {
            alloc,
            state,
            left,
            invocations,
        } = self;
        Reading {
            alloc,
            state,
            stage: Stage::HasOpened { left, invocations },
        }
    }
}
