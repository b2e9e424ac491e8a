//! An operator's change of a subscriber.

ghost use Rattle.std.specs.Prelude.{◌≡◌, IfOk};
ghost use Rattle.hlrcore.specs.Events.{change as said};

use records::Codes;
use std::alloc::{AllocError, Global};

/// An operator's change of a subscriber.
#[derive(Debug, Drop)]
pub enum Change {
    /// New teleservice codes. They stand elsewhere, since each event has room for what is here, and few events are changes.
    Codes(Box<Codes>),
    /// Withdrawal: the end of the subscription.
    Withdraw,
}

impl Change {
    /// An equal copy.
    pub(crate) fn try_copy(&self, alloc: Global) -> Result<Change, AllocError>
        ensures { IfOk result (λ copy. said copy ≡ said self.now) }
    {
        match self {
            Change::Codes(codes) => Ok(Change::Codes(Box::new(alloc, **codes)?)),
            Change::Withdraw => Ok(Change::Withdraw),
        }
    }
}
