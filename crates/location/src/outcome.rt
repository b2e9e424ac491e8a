//! The outcome of a procedure on one subscriber.

ghost use Rattle.std.specs.Prelude.{◌<◌, ◌≤◌};

use csl::Remaining;
use dialogues::{Dialogue, InvokeId};
use hlr_types::{Imsi, Peer, Register, Tid};
use mapargs_loc::CancellationType;
use mapctx::Context;
use outgoing::{Addressed, Components, SentComponent, SentMessage};

/// How the subscriber's record changes (TS 23.012): only what is written, so that the rest of the record is not copied.
#[derive(Clone, Copy, PartialEq, Eq)]
pub enum After {
    /// It stays the same, or there is none.
    Same,
    /// The serving register has purged the subscriber (Purge MS).
    Purged,
    /// It has this register, this purged flag and this current update.
    Location {
        register: Option<Register>,
        purged: bool,
        current: Option<Tid>,
    },
    /// It has the operator's new codes, and no current update.
    NewCodes,
    /// The subscriber is withdrawn: no register and no current update.
    Withdrawn,
}

/// A dialogue that opens with the new id.
#[derive(Clone, Copy)]
pub struct Opening {
    pub dialogue: Dialogue,
    /// How many operations are invoked in it at once, with the invoke ids 1, 2, ..
    pub invoked: u8,
    ghost some: { 0 < invoked },
    ghost most: { invoked ≤ 4 },
}

/// What happens to the dialogue that an event names, if it names one.
#[derive(Drop)]
pub enum DialogueChange {
    /// It closes.
    Closes,
    /// This one opens: in the place of the named one, which closes, or beside all others if none is named.
    Opens(Opening),
    /// It goes on with what the received components leave of its invocations.
    GoesOn(Remaining),
    /// It goes on without the invocation of this id.
    Forgets(InvokeId),
}

/// The Begin of a cancel, which invokes cancelLocation with the id 1 (TS 29.002, 8.1.3).
#[derive(Clone, Copy)]
pub struct CancelBegin {
    pub to: Peer,
    /// The local id of the dialogue that it opens.
    pub origin: Tid,
    pub imsi: Imsi,
    pub why: CancellationType,
}

impl CancelBegin {
    ghost use Rattle.std.specs.Prelude.{◌≡◌};
    ghost use Rattle.outgoing.specs.Seen.{out};
    ghost use Rattle.location.specs.Seen.{cancel_out};

    /// The message.
    pub fn message(&self) -> Addressed
        ensures { out result ≡ cancel_out self.now }
    {
        let cancel = SentComponent::Cancel {
            id: 1,
            imsi: self.imsi,
            why: self.why,
        };
        Addressed {
            to: self.to,
            message: SentMessage::Begin {
                origin: self.origin,
                context: Context::LocationCancellation,
                components: Components::One(cancel),
            },
        }
    }
}

/// The outcome of a procedure: the change of the record, what happens to the dialogues, a message, and the Begin of a cancel
/// that follows it. Building it does not allocate.
#[derive(Drop)]
pub struct Outcome {
    pub after: After,
    pub dialogue: DialogueChange,
    pub message: Option<Addressed>,
    pub cancel: Option<CancelBegin>,
}
