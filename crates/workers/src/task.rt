//! A job that a worker has taken, as far as it is handled.

use crate::apply::unread;
use crate::gate::Gate;
use crate::locked::{Locked, Naming};
use bumpalo::Bump;
use hlrcore::{Addressee, Event, addressee_of};
use receipts::{Job, JobNumber, Placed, Receipt, Refusal};
use records::Directory;
use std::alloc::Global;
use std::marker::{Model, PhantomData};
use std::mem;

/// How far a job is handled.
#[derive(Drop)]
pub(crate) enum Stage {
    /// Its event is read, and is for this shard, and of a Begin for this subscriber.
    Read(Addressee, Event),
    /// It has its answer.
    Answered(Result<Placed, Refusal>),
}

/// A job that a worker has taken, of a batch for the register that `J` names. Contracts see the job.
#[derive(Drop)]
pub(crate) struct Task<'a, J: Naming> {
    job: &'a Job,
    stage: Stage,
    of: PhantomData<J>,
}

impl<'a, J: Naming> Model for Task<'a, J> {
    ghost use Rattle.frames.specs.Account as account;
    ghost use Rattle.receipts.specs.Jobs.{job_code};
    ghost use Rattle.workers.specs.Tasks.{IsOf};

    ghost Value = { account.Job };

    ghost coded = { job_code };

    ghost view = { λ t. t.job.now };

    ghost invariant = { λ t. IsOf J.began.directory t.job.now.event t.stage };
}

impl<'a, J: Naming> Task<'a, J> {
    ghost use Rattle.std.specs.Prelude.{◌≡◌, ◌<◌, IfSome};
    ghost use Rattle.workers.specs.Answered.{IsAnswered};
    ghost use Rattle.receipts.specs.Receipts.{place_of};
    ghost use Rattle.workers.specs.Tasks.{IsOf};

    /// Reads the event of a job in a worker's arena, and finds whom it is for. If it cannot be read, that is the answer.
    pub(crate) fn new(
        alloc: Global,
        bump: &mut Bump,
        directory: &Directory,
        job: &'a Job,
    ) -> Task<'a, J>
        requires { directory.now ≡ J.began.directory }
        ensures { result ≡ job.now }
    {
        let stage = match Event::of(alloc, bump, &job.event) {
            Ok(event) => {
                let found = addressee_of(directory, &event);
                Stage::Read(found, event)
            }
            Err(fault) => Stage::Answered(Err(unread(alloc, bump, &fault))),
        };
        Task {
            job,
            stage,
            of: PhantomData,
        }
    }

    /// Handles the event in a locked shard, if it is read and is for this shard.
    pub(crate) fn handle_in<G: Gate>(&mut self, shard: &mut Locked<J>, number: u8, gate: &G)
        ensures { self.new ≡ self.old }
    {
        let job = self.number();
        if let Stage::Read(whom, event) = &mut self.stage {
            if whom.shard == number {
                gate.inside(job.get());
                let found = Addressee {
                    shard: number,
                    subject: whom.subject,
                };
                let answer = shard.apply(event, found);
                self.stage = Stage::Answered(answer);
            }
        }
    }

    /// The shard that the event is for, if it is read and not handled yet.
    pub(crate) fn waits_for(&self) -> Option<u8>
        ensures { IfSome result (λ number. number < 16) }
    {
        match &self.stage {
            Stage::Read(found, _) => Some(found.shard),
            Stage::Answered(_) => None,
        }
    }

    /// The number of the job.
    pub(crate) fn number(&self) -> JobNumber
        ensures { result ≡ self.now.number }
    {
        let job = self.job;
        job.number
    }

    /// The receipt of the job, with its answer, which is taken out: `NotMine` if it has none.
    pub(crate) fn take_receipt(&mut self) -> Receipt
        ensures same { self.new ≡ self.old }
        ensures job { result.job ≡ self.old.number }
        // A receipt with a place is for an event that some shard handled.
        ensures place { IfSome result.place (IsAnswered self.old.event) }
    {
        let answer = match &mut self.stage {
            Stage::Answered(answer) => mem::replace(answer, Err(Refusal::NotMine)),
            Stage::Read(..) => Err(Refusal::NotMine),
        };
        Receipt {
            job: self.number(),
            answer,
        }
    }
}
