//! How many events a batch has, and how many of them are ahead.

ghost use Rattle.std.specs.Prelude.{◌≡◌, ◌≤◌, ◌<◌, ◌^◌, ◌-◌, min, ℕ, List, length};
ghost use Rattle.frames.specs.Octets.{RawEvent};
ghost use Rattle.machine.specs.declared.numbers.TheConstants.{MAX_ENTRIES};
ghost use Rattle.texts.specs.Lines.{lines};
ghost use Rattle.hlr_program.specs.Batches.{batch_of};
ghost use Rattle.hlr_program.specs.Runs.{LineEvents, LinesEvents};

use crate::check::is_end;
use machine::numbers::{MAX_ENTRIES, SHARDS};
use texts::Lines;

/// The events of a batch that are not handled yet.
#[derive(Clone, Copy)]
pub struct Ahead {
    pub events: usize,
    /// For how many of these the journals have room: those that are left of their part.
    pub room: usize,
}

impl Ahead {
    /// A batch of so many events, at its beginning.
    pub fn new(events: usize) -> Ahead
        ensures events { result.events ≡ events }
        ensures room { result.room ≡ 0 }
    {
        Ahead { events, room: 0 }
    }

    /// How many events are left of their part, or, if none is, how many the next part has: 65,536, or those that are left of the batch.
    pub fn left_of_part(&self) -> usize
        ensures within { 0 < self.now.room → result ≡ self.now.room }
        ensures next { self.now.room ≡ 0 → result ≡ min self.now.events MAX_ENTRIES }
    {
        if self.room > 0 {
            return self.room;
        }
        self.events.min(MAX_ENTRIES)
    }
}

/// How many events the lines of a batch stand for.
pub fn count_events(from: Lines) -> usize
    ensures { (ids : List (List ℕ)) (events : List RawEvent)
        → LinesEvents ids (batch_of (lines from.entry.rest.now)) events
        → length events < 2 ^ 64 → result ≡ length events }
{
    let mut count: usize = 0;
    let mut left = from;
    'lines: while let Some((line, behind)) = left.next() {
        if is_end(line.text) {
            return count;
        }
        count = count.saturating_add(count_in(line.text));
        left = behind;
    }
    count
}

/// How many events a line stands for: a clock value and an expiry are one for each shard, the end of a batch is none.
fn count_in(line: &[u8]) -> usize
    ensures { (ids : List (List ℕ)) (events : List RawEvent) → LineEvents ids line.now events
        → result ≡ length events }
{
    match line.first() {
        Some(b'W') => 0,
        Some(b'C' | b'E') => usize::from(SHARDS),
        _ => 1,
    }
}
