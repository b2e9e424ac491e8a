//! The messages that are sent (Q.773).

use crate::component::Components;
use hlr_types::{Peer, RemoteId, Tid};
use mapctx::Context;
use mapdlg::Why;
use q773_comp::Rejection;

/// A message that is sent. The Rejects come first, then the procedure's own components. A context in a Begin is that of its
/// AARQ, in a Continue or an End that of the accepting AARE.
#[derive(Drop)]
pub enum SentMessage {
    Begin {
        origin: Tid,
        context: Context,
        components: Components,
    },
    Continue {
        origin: Tid,
        destination: RemoteId,
        context: Option<Context>,
        rejects: Vec<Rejection>,
        components: Components,
    },
    End {
        destination: RemoteId,
        context: Option<Context>,
        rejects: Vec<Rejection>,
        components: Components,
    },
    Abort {
        destination: RemoteId,
        why: Why,
    },
}

/// A message with its destination address.
#[derive(Drop)]
pub struct Addressed {
    pub to: Peer,
    pub message: SentMessage,
}
