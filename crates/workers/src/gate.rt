//! Observers of a job's progress.

/// Called for each job that a worker handles, with its number: when the job's shard is locked, and when its receipt is made. For
/// a job whose event could not be read `inside` is not called.
///
/// Limitation: a gate that waits in `inside` holds the shard's lock meanwhile. In a batch of 32 jobs for each worker or more, a
/// worker takes several jobs at once, and handles those that are for one shard under one lock: a gate that holds one of them until a
/// later one is done may wait forever. No contract says when or whether it is called.
pub trait Gate {
    /// The shard that the job is for is locked.
    fn inside(&self, job: u64);

    /// The job has its receipt, and its shard is no longer locked.
    fn done(&self, job: u64);
}

/// A gate that does nothing.
#[derive(Clone, Copy, Drop)]
pub struct OpenGate;

impl Gate for OpenGate {
    fn inside(&self, _job: u64) {}

    fn done(&self, _job: u64) {}
}
