//! By how many workers a script is handled.

ghost use Rattle.std.specs.Prelude.{◌≡◌, ◌≤◌};
ghost use Rattle.std.specs.List.{list_any};
ghost use Rattle.texts.specs.Lines.{lines};
ghost use Rattle.hlr_program.specs.Batches.{batches_of};
ghost use Rattle.hlr_program.specs.Sharing.{is_long, workers_for};

use crate::check::{Script, is_end};
use texts::Lines;
use workers::JOBS_OF_A_START;

/// The lines of a batch of which two workers have a half each that is worth a thread.
const LONG: usize = 2 * JOBS_OF_A_START;

/// As many workers as are asked for, if some batch of the script has lines enough for two of them. Otherwise none: one thread handles all
/// batches then, and nobody has to account for what it does.
pub fn workers_for(asked: u8, script: &Script) -> u8
    ensures workers { result ≡ workers_for asked script.now.text.items }
    ensures no_more { result ≤ asked }
{
    if asked > 0 && has_long_batch(&script.text) {
        return asked;
    }
    0
}

/// Whether some batch has lines enough for two workers.
fn has_long_batch(script: &[u8]) -> bool
    ensures { result ≡ list_any is_long (batches_of (lines script.now)) }
{
    let mut count: usize = 0;
    let mut left = Lines::new(script);
    'lines: while let Some((line, behind)) = left.next() {
        count = if is_end(line.text) { 0 } else { count + 1 };
        if count >= LONG {
            return true;
        }
        left = behind;
    }
    false
}
