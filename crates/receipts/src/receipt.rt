//! What a worker returns for a job.

use crate::job::JobNumber;
use crate::placed::Placed;
use crate::refusal::Refusal;
use std::marker::Model;

/// The result of a job: where its entry stands and what to send, or why it has none. A refused job has changed nothing.
///
/// Limitation: that the entry stands there is known only from `reconcile`.
#[derive(Drop)]
pub struct Receipt {
    pub job: JobNumber,
    pub answer: Result<Placed, Refusal>,
}

impl Model for Receipt {
    ghost use Rattle.frames.specs.Account as account;
    ghost use Rattle.receipts.specs.Jobs.{receipt_code, receipt_of};
    ghost use Rattle.receipts.specs.Receipts.{place_of};

    ghost Value = { account.Receipt };

    ghost coded = { receipt_code };

    ghost view = { λ r. receipt_of r.job (place_of r.answer) };
}
