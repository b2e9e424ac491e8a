//! A shard as far as its lines are read.

ghost use Rattle.std.specs.Prelude.{◌≡◌, ◌≤◌, ◌<◌, ◌↔◌, IsTrue, Ok};
ghost use Rattle.machine.specs.declared.numbers.TheConstants.{MAX_CLOCK};
ghost use Rattle.image_lines.specs.Lines.{Freed, IsLine, Shard, Used};
ghost use Rattle.image_lines.specs.Seen.{line_of};
ghost use Rattle.images.specs.Reading.{Ends, Takes};
ghost use Rattle.images.specs.Reading as definition;
ghost use Rattle.images.specs.Fits.{IsFit, NoneOpen};
ghost use Rattle.images.specs.Seen.{EndsIf, OpensUp, TakesIf, TakesOne, seen};

use crate::so_far::{Opening, Reading, Stage};
use csl::Remaining;
use hlr_types::Tid;
use hlrcore::State;
use image_lines::Line;
use std::alloc::{AllocError, Global};
use tidalloc::Ids;

impl Reading {
    /// No line is read.
    pub(crate) fn new(alloc: Global, state: State) -> Reading
        requires { NoneOpen state }
        ensures seen { seen result ≡ definition.reading state definition.Begins }
        ensures fits { IsFit result }
    {
        Reading {
            alloc,
            state,
            stage: Stage::Begins,
        }
    }

    /// Whether its last line was read.
    pub(crate) fn is_whole(&self) -> bool
        ensures { IsTrue result ↔ ((seen self.now).stage ≡ definition.Whole) }
    {
        match self.stage {
            Stage::Begins => false,
            Stage::HasIds { .. } => false,
            Stage::HasOpened { .. } => false,
            Stage::Whole => true,
        }
    }

    /// After one more line. `None` if it cannot follow.
    pub(crate) fn take(self, line: Line) -> Result<Option<Reading>, AllocError>
        requires line { IsLine (line_of line) }
        requires fits { IsFit self }
        ensures { TakesOne (Takes (seen self) (line_of line)) result }
    {
        match line {
            Line::Shard {
                shard,
                clock,
                first,
            } => self.begin(shard, clock, first),
            Line::Used(id) => Ok(self.use_slot(id)),
            Line::Freed(id) => Ok(self.free(id)),
            Line::Waits {
                invoke,
                was,
                deadline,
            } => match self.opening()? {
                Some(opening) => opening.wait(invoke, was, deadline),
                None => Ok(None),
            },
            Line::Opened {
                id,
                is_current,
                dialogue,
            } => match self.opening()? {
                Some(opening) => opening.open(id, is_current, &dialogue),
                None => Ok(None),
            },
            Line::End => match self.opening()? {
                Some(opening) => Ok(opening.end()),
                None => Ok(None),
            },
        }
    }

    /// After its first line.
    fn begin(self, shard: u8, clock: u64, first: u16) -> Result<Option<Reading>, AllocError>
        requires clock { clock ≤ MAX_CLOCK }
        requires first { first < 4096 }
        requires fits { IsFit self }
        ensures { TakesOne (Takes (seen self) (Shard shard clock first)) result }
    {
        let Reading {
            alloc,
            state,
            stage,
        } = self;
        let Stage::Begins = stage else {
            return Ok(None);
        };
        if shard != state.number() {
            return Ok(None);
        }
        let mut ids = Ids::new(alloc, shard)?;
        ids.begin_after(first);
        Ok(Some(Reading {
            alloc,
            state,
            stage: Stage::HasIds { clock, ids },
        }))
    }

    /// After a slot that was used. Such lines come before those of free ones.
    fn use_slot(self, id: Tid) -> Option<Reading>
        requires { IsFit self }
        ensures { TakesIf (Takes (seen self) (Used id)) result }
    {
        let Reading {
            alloc,
            state,
            stage,
        } = self;
        let Stage::HasIds { clock, mut ids } = stage else {
            return None;
        };
        if !ids.free_slots().is_empty() || !ids.use_slot(id) {
            return None;
        }
        Some(Reading {
            alloc,
            state,
            stage: Stage::HasIds { clock, ids },
        })
    }

    /// After a slot that is free.
    fn free(self, id: Tid) -> Option<Reading>
        requires { IsFit self }
        ensures { TakesIf (Takes (seen self) (Freed id)) result }
    {
        let Reading {
            alloc,
            state,
            stage,
        } = self;
        let Stage::HasIds { clock, mut ids } = stage else {
            return None;
        };
        if !ids.is_live(id) {
            return None;
        }
        ids.give_back(id);
        Some(Reading {
            alloc,
            state,
            stage: Stage::HasIds { clock, ids },
        })
    }

    /// The shard with all its ids. `None` if no line was read, or the last one was.
    fn opening(self) -> Result<Option<Opening>, AllocError>
        requires { IsFit self }
        ensures { OpensUp (seen self) result }
    {
        let Reading {
            alloc,
            mut state,
            stage,
        } = self;
        let (left, invocations) = match stage {
            Stage::Begins | Stage::Whole => return Ok(None),
            Stage::HasIds { clock, mut ids } => {
                let left = ids.live_count();
                ids.set_back()?;
                state.resume(clock, ids)?;
                (left, Remaining::none(alloc))
            }
            Stage::HasOpened { left, invocations } => (left, invocations),
        };
        Ok(Some(Opening {
            alloc,
            state,
            left,
            invocations,
        }))
    }

    /// The shard, if it is whole.
    pub(crate) fn end(self) -> Option<State>
        ensures { EndsIf (λ state. state) (Ends (seen self)) result }
    {
        let Reading {
            alloc: _,
            state,
            stage,
        } = self;
        let Stage::Whole = stage else {
            return None;
        };
        Some(state)
    }
}
