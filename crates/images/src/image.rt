//! An image as far as it is read.

ghost use Rattle.std.specs.Prelude.{◌≡◌, [], IfSome, IsNone};
ghost use Rattle.std.specs.List.{AllByRecursion};
ghost use Rattle.image_lines.specs.Lines.{IsLine};
ghost use Rattle.image_lines.specs.Seen.{line_of};
ghost use Rattle.images.specs.Reading.{BeginsNext, GoesOn, IsWhole, TakesLine};
ghost use Rattle.images.specs.Seen.{EndsAs, TakesNext, seen_image};
ghost use Rattle.images.specs.Texts.{IsStart};
ghost use Rattle.images.specs.Fits.{IsFitImage, NoneOpen};

use crate::so_far::{Image, Reading};
use hlrcore::State;
use image_lines::Line;
use std::alloc::{AllocError, Global};
use std::collections::VecDeque;

impl Image {
    /// No line is read. `None` if there is no shard.
    pub(crate) fn new(alloc: Global, shards: Vec<State>) -> Option<Image>
        requires { AllByRecursion NoneOpen shards.items }
        ensures start { IfSome result (λ image. IsStart shards.items (seen_image image)) }
        ensures fits { IfSome result IsFitImage }
        ensures none { IsNone result → shards.items ≡ [] }
    {
        let mut later = VecDeque::from(shards);
        let first = later.pop_front()?;
        Some(Image {
            alloc,
            done: Vec::new(alloc),
            now: Reading::new(alloc, first),
            later,
        })
    }

    /// After one more line. `None` if it cannot follow.
    pub(crate) fn take(self, line: Line) -> Result<Option<Image>, AllocError>
        requires line { IsLine (line_of line) }
        requires fits { IsFitImage self }
        ensures { TakesNext (TakesLine (seen_image self) (line_of line)) result }
    {
        if self.now.is_whole() {
            self.begin_next(line)
        } else {
            self.go_on(line)
        }
    }

    /// After a line of the shard that is read.
    fn go_on(self, line: Line) -> Result<Option<Image>, AllocError>
        requires line { IsLine (line_of line) }
        requires fits { IsFitImage self }
        ensures { TakesNext (GoesOn (seen_image self) (line_of line)) result }
    {
        let Image {
            alloc,
            done,
            now,
            later,
        } = self;
        let Some(now) = now.take(line)? else {
            return Ok(None);
        };
        Ok(Some(Image {
            alloc,
            done,
            now,
            later,
        }))
    }

    /// After the first line of the next shard. `None` if this one is not whole.
    fn begin_next(self, line: Line) -> Result<Option<Image>, AllocError>
        requires line { IsLine (line_of line) }
        requires fits { IsFitImage self }
        ensures { TakesNext (BeginsNext (seen_image self) (line_of line)) result }
    {
        let Image {
            alloc,
            mut done,
            now,
            mut later,
        } = self;
        let Some(whole) = now.end() else {
            return Ok(None);
        };
        let Some(next) = later.pop_front() else {
            return Ok(None);
        };
        let Some(now) = Reading::new(alloc, next).take(line)? else {
            return Ok(None);
        };
        done.push(whole)?;
        Ok(Some(Image {
            alloc,
            done,
            now,
            later,
        }))
    }

    /// The shards, if all are whole.
    pub(crate) fn end(self) -> Result<Option<Vec<State>>, AllocError>
        ensures { EndsAs (λ done. done.items) (IsWhole (seen_image self)) result }
    {
        let Image {
            alloc: _,
            mut done,
            now,
            later,
        } = self;
        if let Some(_) = later.front() {
            return Ok(None);
        }
        let Some(whole) = now.end() else {
            return Ok(None);
        };
        done.push(whole)?;
        Ok(Some(done))
    }
}
