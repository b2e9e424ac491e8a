//! Received messages of open transactions (Q.774), and the transaction that each is for.

ghost use Rattle.tsl.specs.Received.{AreReceivedRows};

use hlr_types::{RemoteId, Tid};

/// The transaction ids of a received Continue, End or Abort (Q.773). The destination id is as received, 1 to 4 octets.
#[derive(Clone, Copy, PartialEq, Eq)]
pub enum Head {
    Continue {
        origin: RemoteId,
        destination: RemoteId,
    },
    End {
        destination: RemoteId,
    },
    Abort {
        destination: RemoteId,
    },
}

/// The transaction that a message is for (Q.774).
#[derive(Clone, Copy, PartialEq, Eq)]
pub enum Received {
    /// The open transaction with this id.
    For(Tid),
    /// A Continue for no open transaction. It is answered with an Abort to this id, P-Abort cause unrecognizedTransactionID.
    NotAssigned(RemoteId),
    /// An End or an Abort for no open transaction. It is discarded.
    Nothing,
}

/// Law: which transaction a message is for, and what is open afterwards, row by row of the transaction table.
#[tactic(auto, using(crate::proofs::RowLemmas::received_rows))]
pub fn law_received_rows()
    ensures { AreReceivedRows }
{}
