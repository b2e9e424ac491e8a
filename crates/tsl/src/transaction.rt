//! A transaction.

ghost use Rattle.std.specs.Prelude.{◌≡◌};
ghost use Rattle.tsl.specs.Received.{takes};

use hlr_types::{Peer, RemoteId};

/// An open transaction (Q.774): in Initiation Sent while the peer's id is not known, otherwise Active. Frames go to the peer.
#[derive(Clone, Copy, PartialEq, Eq)]
pub struct Transaction {
    pub peer: Peer,
    pub remote: Option<RemoteId>,
}

impl Transaction {
    /// Whether a Continue with this originating id is for it: in Initiation Sent always, in Active if it is the peer's id.
    pub(crate) fn takes(&self, origin: RemoteId) -> bool
        ensures { result ≡ takes self.now.remote origin }
    {
        match self.remote {
            None => true,
            Some(known) => known == origin,
        }
    }
}
