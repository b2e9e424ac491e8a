//! Jobs that are handed over together.

ghost use Rattle.std.specs.Prelude.{◌≡◌, ◌+◌, ◌*◌, ◌/◌, ◌<◌, ◌≤◌, max, min};
ghost use Rattle.workers.specs.declared.lot.TheConstants.{JOBS_OF_A_START};
ghost use Rattle.workers.specs.Lots.{lot_size};

use receipts::Job;

/// The most jobs of a lot: with so many, the way through the channel and the locks of the shards cost little beside the jobs.
pub(crate) const MAX_LOT: usize = 64;

/// How many lots each worker has at least, if there are jobs enough: so none waits long for another that has the last one.
const LOTS_EACH: usize = 16;

/// How many jobs each worker has at least, if there is more than one: they take as long as to start a thread, and to wait for it at the end.
pub const JOBS_OF_A_START: usize = 128;

/// Which jobs of a batch one worker handles, one after another: `count` jobs, the first of them at the place `from`. The jobs stay
/// in the batch, and nothing of them is copied.
#[derive(Clone, Copy, Drop)]
pub struct Lot {
    pub from: usize,
    pub count: usize,
}

impl Lot {
    ghost use Rattle.workers.specs.Lots.{jobs_at};

    /// The jobs of the lot, among those of the batch.
    pub fn of<'a>(self, jobs: &'a [Job]) -> &'a [Job]
        ensures { result.now ≡ jobs_at jobs.now self }
    {
        let (_, rest) = jobs.split_at(self.from.min(jobs.len()));
        let (lot, _) = rest.split_at(self.count.min(rest.len()));
        lot
    }
}

/// How many of these workers a batch has jobs for, but at least one.
pub(crate) fn crew_size(jobs: usize, workers: usize) -> usize
    requires { 1 ≤ workers }
    ensures size { result ≡ max (min workers jobs) 1 }
    ensures few { (1 ≤ result) × (result ≤ workers) }
{
    workers.min(jobs).max(1)
}

/// How many of these workers are worth their threads, but at least one.
pub(crate) fn paying_crew(jobs: usize, workers: usize) -> usize
    requires { 1 ≤ workers }
    ensures size { result ≡ max (min workers (jobs / JOBS_OF_A_START)) 1 }
    ensures few { (1 ≤ result) × (result ≤ workers) }
{
    crew_size(jobs / JOBS_OF_A_START, workers)
}

/// How many jobs a lot of a batch has, if so many workers share the batch.
pub(crate) fn lot_size(jobs: usize, workers: usize) -> usize
    requires { 1 ≤ workers }
    ensures size { result ≡ lot_size jobs workers }
    ensures some { 1 ≤ result }
{
    (jobs / workers / LOTS_EACH).clamp(1, MAX_LOT)
}

/// How many messages a batch has at most: its lots, and a `Stop` for each worker. The channel holds them all, since the thread that sends
/// them takes none before it has sent the last, and may be the only worker.
pub(crate) fn messages(jobs: usize, workers: usize) -> usize
    requires workers { (1 ≤ workers) × (workers ≤ 16) }
    requires few { jobs < 9223372036854775808 }
    ensures { jobs + workers * lot_size jobs workers ≤ result * lot_size jobs workers }
{
    jobs / lot_size(jobs, workers) + 1 + workers
}
