//! Laws about the journals of sixteen shards, and about their runs.

ghost use Rattle.frames_laws.specs.JournalLaws.{MergesAreRuns};
ghost use Rattle.wholenode.specs.Keeping.{JournalsMerge};
ghost use Rattle.wholenode.specs.Replaying.{AreReplayed};
ghost use Rattle.wholenode.specs.Room.{RunsHaveRoom};

/// Law: for legal journals of octets of the sixteen shards, with one directory and one HLR number, every merge that keeps the
/// order of each is a run from the union of the bases to the union of the states.
pub fn merges_are_runs()
    ensures { MergesAreRuns }
{}

/// Law: the same for sixteen shards with their journals, as a `Node` has them.
pub fn journals_merge()
    ensures { JournalsMerge }
{}

/// Law: a run that handled all events met no change without room: the machine has a step for each event at its place.
pub fn runs_have_room()
    ensures { RunsHaveRoom }
{}

/// Law: the same events, handled again in the same order by a register that began alike, send the same, frame for frame and local id for
/// local id, and lead to a register that no event tells from the first. So a register can be had again from the log of its events.
pub fn runs_are_replayed()
    ensures { AreReplayed }
{}
