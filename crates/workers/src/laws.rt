//! A law about journals that are accounted for.

ghost use Rattle.workers.specs.Merged.{MergesAreRunsOfJobs};

/// Law: if jobs and receipts account for the journals of sixteen shards, every merge of the journals is a run of the whole
/// register, whose events are the jobs', each once, with their receipts' frames.
pub fn merges_are_runs_of_jobs()
    ensures { MergesAreRunsOfJobs }
{}
