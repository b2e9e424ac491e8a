//! The MAP operation that a dialogue is for (TS 29.002).

use crate::invoke_id::InvokeId;
use hlr_types::{Peer, Register};
use mapargs_loc::CancellationType;

/// The MAP operation that a dialogue is for (TS 29.002).
#[derive(Clone, Copy, PartialEq, Eq)]
pub enum Kind {
    /// updateLocation (8.1.2), opened by the peer: the register in its argument, and the invoke id to answer.
    Update {
        register: Register,
        invoke: InvokeId,
    },
    /// cancelLocation (8.1.3) to these VLR digits: the attempt, 1 to 3, and the cancellationType.
    Cancel {
        vlr: Peer,
        attempt: u8,
        why: CancellationType,
    },
    /// insertSubscriberData (8.8.1), after an operator's change.
    Data,
}
