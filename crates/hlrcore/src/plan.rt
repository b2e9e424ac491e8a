//! What an event results in, before anything is done.

ghost use Rattle.std.specs.Prelude.{◌≡◌, ◌↔◌, IsTrue, None};

use hlr_types::{Imsi, Peer, RemoteId, ShortList, Tid};
use location::{DialogueChange, Outcome};

/// The open dialogue that an event names.
#[derive(Clone, Copy)]
pub enum Named {
    /// None.
    Nothing,
    /// This one; it stays as it was until the plan is carried out.
    Open(Tid),
    /// This one, which a Continue was received for: it is Active then, with this peer and this remote id (Q.774).
    Continued {
        id: Tid,
        peer: Peer,
        remote: RemoteId,
    },
}

/// What an event results in: the IMSI that it concerns, and the subject of its step; the open dialogue that it names; the id for
/// a dialogue that opens; the codes of an operator's change; and the procedure's outcome.
#[derive(Drop)]
pub struct Plan {
    pub imsi: Option<Imsi>,
    pub subject: Option<Imsi>,
    pub named: Named,
    pub new: Tid,
    pub codes: ShortList<32>,
    pub outcome: Outcome,
}

impl Named {
    ghost use Rattle.hlrcore.specs.Plans.{id_of};

    /// Its id, if one is named.
    pub(crate) fn id(self) -> Option<Tid>
        ensures { result ≡ id_of self }
    {
        match self {
            Named::Nothing => None,
            Named::Open(id) | Named::Continued { id, .. } => Some(id),
        }
    }
}

impl Plan {
    ghost use Rattle.hlrcore.specs.Plans.{IsOpening, id_of};

    /// Whether a dialogue opens beside the open ones.
    pub(crate) fn opens_beside(&self) -> bool
        ensures { IsTrue result ↔ (IsOpening self.now.outcome.dialogue
            × (id_of self.now.named ≡ None)) }
    {
        match &self.outcome.dialogue {
            DialogueChange::Opens(_) => self.named.id().is_none(),
            _ => false,
        }
    }
}
