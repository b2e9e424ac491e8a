//! The laws of journals of octets.

ghost use Rattle.frames_laws.specs.JournalLaws.{OneJournal, HoldersAreServing, OwnEntriesAreLegal, JournalsGrow, ChainsAreJournals, MergesAreRuns, RunsStayInBounds};
ghost use Rattle.frames_laws.specs.AccountLaws.{EntriesAreOneJob};
ghost use Rattle.frames_laws.specs.MergedJobs.{MergedAreJobs, MergedAreRunsOfJobs};

/// A journal of octets spells one journal of messages, and from one base it leads to one state.
pub fn one_journal()
    ensures { OneJournal }
{}

/// Exactly the serving register, or none, holds each subscriber, as determined from the octets of the journal.
pub fn holders_are_serving()
    ensures { HoldersAreServing }
{}

/// The entries of one subscriber are a legal journal from the state with this subscriber alone.
pub fn own_entries_are_legal()
    ensures { OwnEntriesAreLegal }
{}

/// A step of its shard appends its entry to a legal journal.
pub fn journals_grow()
    ensures { JournalsGrow }
{}

/// Consecutive epochs are one legal journal.
pub fn chains_are_journals()
    ensures { ChainsAreJournals }
{}

/// Every merge of the journals of sixteen shards is a run of the whole register.
pub fn merges_are_runs()
    ensures { MergesAreRuns }
{}

/// Runs of octets stay within bounds, whatever the octets of the frames are, and send only short frames, to which the laws of
/// what is sent apply.
pub fn runs_stay_in_bounds()
    ensures { RunsStayInBounds }
{}

/// If jobs and receipts account for the journals, each entry is that of one job, and of no other.
pub fn entries_are_one_job()
    ensures { EntriesAreOneJob }
{}

/// If jobs and receipts account for the journals of sixteen shards, every merge of these has the entries of the jobs, each once,
/// with their receipts' frames. If the journals are legal, it is a run of the whole register.
pub fn merges_are_jobs()
    ensures entries { MergedAreJobs }
    ensures runs { MergedAreRunsOfJobs }
{}
