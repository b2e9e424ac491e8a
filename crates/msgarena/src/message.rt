//! What a frame reads to, owned.

ghost use Rattle.std.specs.Prelude.{◌≡◌, IfOk};
ghost use Rattle.msgarena.specs.Seen.{message, seen};

use crate::heard::Heard;
use hlr_types::RemoteId;
use mapctx::ContextName;
use q773_dlg::Diagnostic;
use std::alloc::{AllocError, Global};

/// An AARE: the application context's name, the result, and why.
#[derive(Clone, Copy, Debug, PartialEq, Eq)]
pub struct Response {
    pub context: ContextName,
    pub result: u8,
    pub diagnostic: Diagnostic,
}

/// A message (ITU-T Q.773, 3.1) with at most 16 components, in order. Transaction ids are as they were received.
#[derive(Debug, PartialEq, Eq, Drop)]
pub enum ReadMessage {
    /// The context is the one that the AARQ of the dialogue portion requests; none if there is no dialogue portion.
    Begin {
        origin: RemoteId,
        context: Option<ContextName>,
        components: Heard,
    },
    /// The response is the AARE of the dialogue portion; none if there is no dialogue portion.
    Continue {
        origin: RemoteId,
        destination: RemoteId,
        response: Option<Response>,
        components: Heard,
    },
    /// The response is as in a Continue.
    End {
        destination: RemoteId,
        response: Option<Response>,
        components: Heard,
    },
    /// Limitation: what it holds besides the destination id is not read.
    Abort {
        destination: RemoteId,
    },
}

/// What becomes of a frame (profile).
#[derive(Debug, PartialEq, Eq, Drop)]
pub enum Verdict {
    /// It is discarded.
    Discard,
    /// It is answered with an Abort to this transaction id with this P-Abort cause.
    Refuse(RemoteId, u8),
    /// It is this message.
    Read(ReadMessage),
}

impl ReadMessage {
    /// A copy.
    fn try_copy(&self, alloc: Global) -> Result<ReadMessage, AllocError>
        ensures { IfOk result (λ copy. message copy ≡ message self.now) }
    {
        match self {
            ReadMessage::Begin {
                origin,
                context,
                components,
            } => Ok(ReadMessage::Begin {
                origin: *origin,
                context: *context,
                components: components.try_copy(alloc)?,
            }),
            ReadMessage::Continue {
                origin,
                destination,
                response,
                components,
            } => Ok(ReadMessage::Continue {
                origin: *origin,
                destination: *destination,
                response: *response,
                components: components.try_copy(alloc)?,
            }),
            ReadMessage::End {
                destination,
                response,
                components,
            } => Ok(ReadMessage::End {
                destination: *destination,
                response: *response,
                components: components.try_copy(alloc)?,
            }),
            ReadMessage::Abort { destination } => Ok(ReadMessage::Abort {
                destination: *destination,
            }),
        }
    }
}

impl Verdict {
    /// A copy.
    pub(crate) fn try_copy(&self, alloc: Global) -> Result<Verdict, AllocError>
        ensures { IfOk result (λ copy. seen copy ≡ seen self.now) }
    {
        match self {
            Verdict::Discard => Ok(Verdict::Discard),
            Verdict::Refuse(origin, cause) => Ok(Verdict::Refuse(*origin, *cause)),
            Verdict::Read(message) => Ok(Verdict::Read(message.try_copy(alloc)?)),
        }
    }
}
