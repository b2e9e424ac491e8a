//! Subscriber and kind of a dialogue.

use crate::kind::Kind;
use hlr_types::Imsi;

/// The subscriber of a dialogue and its kind.
#[derive(Clone, Copy)]
pub(crate) struct Talk {
    pub(crate) subscriber: Imsi,
    pub(crate) kind: Kind,
}
