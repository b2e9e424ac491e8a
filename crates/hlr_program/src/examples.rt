//! Worked examples of batches, of what is printed and of how a run ends.

ghost use Rattle.hlr_program.specs.Examples.{Endings, PrintedLines, ScriptBatches, ScriptWorkers};

/// Law: the batches of a script, of which one is empty, and how many lines stand before the next one.
pub fn worked_batches()
    ensures { ScriptBatches }
{}

/// Law: workers share the register of a script with a batch of 256 lines, and not that of one with two batches of 255.
pub fn worked_workers()
    ensures { ScriptWorkers }
{}

/// Law: the line of a frame, and that what is saved comes after the listings.
pub fn worked_prints()
    ensures { PrintedLines }
{}

/// Law: the status and the line of each fault.
pub fn worked_endings()
    ensures { Endings }
{}
