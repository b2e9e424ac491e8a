//! An open dialogue (TS 29.002).

ghost use Rattle.std.specs.Prelude.{◌≡◌};

use crate::kind::Kind;
use crate::talk::Talk;
use hlr_types::Imsi;
use tsl::Transaction;

/// An open dialogue, without its invocations.
#[derive(Clone, Copy, PartialEq, Eq)]
pub struct Dialogue {
    pub subscriber: Imsi,
    pub transaction: Transaction,
    pub kind: Kind,
}

impl Dialogue {
    ghost use Rattle.dialogues.specs.Joined.{talk_in};

    /// Its subscriber and kind.
    pub(crate) fn talk(&self) -> Talk
        ensures { result ≡ talk_in self.now }
    {
        Talk {
            subscriber: self.subscriber,
            kind: self.kind,
        }
    }
}
