//! Jobs and their numbers.

ghost use Rattle.std.specs.Prelude.{◌≡◌, ◌≤◌, IfSome, IfNone};

use hlrcore::RawEvent;
use std::marker::Model;

/// The number of a job, at least 1.
#[derive(Clone, Copy, PartialEq, Eq, PartialOrd, Ord)]
pub struct JobNumber {
    value: u64,
}

impl Model for JobNumber {
    ghost use Rattle.std.specs.Prelude.{ℕ, ◌≤◌};

    ghost Value = { ℕ };

    ghost view = { λ n. n.value };

    ghost invariant = { λ n. 1 ≤ n.value };

    ghost inverse = { λ n. record { value = n } };
}

impl JobNumber {
    /// The job number with this value. There is no job 0.
    pub fn new(value: u64) -> Option<JobNumber>
        ensures found { IfSome result (λ number. number ≡ value) }
        ensures none { IfNone result (value ≡ 0) }
    {
        if value == 0 {
            None
        } else {
            Some(JobNumber { value })
        }
    }

    /// The value.
    pub fn get(self) -> u64
        ensures value { result ≡ self }
        ensures from_one { 1 ≤ result }
    {
        self.value
    }
}

/// An event to be handled, as received, with a number by which its receipt is found.
#[derive(Drop)]
pub struct Job {
    pub number: JobNumber,
    pub event: RawEvent,
}

impl Model for Job {
    ghost use Rattle.frames.specs.Account as account;
    ghost use Rattle.hlrcore.specs.Events.{raw_event};
    ghost use Rattle.receipts.specs.Jobs.{job_code, job_of};

    ghost Value = { account.Job };

    ghost coded = { job_code };

    ghost view = { λ j. job_of j.number (raw_event j.event) };
}
