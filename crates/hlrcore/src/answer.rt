//! The answer of a step.

use crate::sent_frames::Frames;
use hlr_types::{Imsi, Peer, Tid};

/// A frame to send, with its destination address.
#[derive(PartialEq, Eq, Drop)]
pub struct Out {
    pub to: Peer,
    pub octets: Vec<u8>,
}

/// The answer of a step: the frames to send, in order; the local id that it took; its subject.
#[derive(Drop)]
pub struct StepAnswer {
    pub outs: Frames,
    pub id: Option<Tid>,
    pub subject: Option<Imsi>,
}
