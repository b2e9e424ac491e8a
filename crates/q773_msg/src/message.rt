//! Received messages (Q.773, transaction portion).

use bertree::{Node, Nodes};
use hlr_types::RemoteId;
use thiserror::Error;

/// The dialogue portion, whatever it holds, and the elements of the component portion, none if there is no such portion.
#[derive(Clone, Copy)]
pub struct Portions<'a> {
    pub dialogue: Option<Node<'a>>,
    pub components: Nodes<'a>,
}

/// A received message, its portions unread. Transaction ids are as they were received.
///
/// Limitation: what an Abort holds besides its destination id is not kept.
#[derive(Clone, Copy)]
pub enum Message<'a> {
    /// `62`: the originating id `48`, then the portions, each optional: dialogue `6B`, components `6C`.
    Begin {
        origin: RemoteId,
        portions: Portions<'a>,
    },
    /// `65`: the originating id `48`, the destination id `49`, the portions.
    Continue {
        origin: RemoteId,
        destination: RemoteId,
        portions: Portions<'a>,
    },
    /// `64`: the destination id `49`, the portions.
    End {
        destination: RemoteId,
        portions: Portions<'a>,
    },
    /// `67`: the destination id `49`, and at most one of a P-Abort cause `4A` and a dialogue portion `6B`.
    Abort {
        destination: RemoteId,
    },
}

/// What becomes of a frame that is no message (profile).
#[derive(Clone, Copy, Debug, PartialEq, Eq, Drop, Error)]
pub enum Unread {
    /// It is discarded.
    #[error("no message, and discarded")]
    Discard,
    /// It is answered with an Abort to this transaction id with this P-Abort cause.
    #[error("no message, and answered with an Abort of cause {1}")]
    Abort(RemoteId, u8),
}
