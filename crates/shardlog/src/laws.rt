//! Laws about journals.

ghost use Rattle.shardlog.specs.Chains.{JoinedKeep};

/// Law: the journals of successive epochs and the shard's own are together one journal, with the invariant of every journal.
pub fn joined_journals_keep()
    ensures { JoinedKeep }
{}
