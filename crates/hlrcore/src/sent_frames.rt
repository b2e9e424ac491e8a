//! The frames that a step sends.

ghost use Rattle.std.specs.Prelude.{◌≡◌, [], IfOk, map};
ghost use Rattle.hlrcore.specs.Frames.{raw_out};

use crate::answer::Out;
use crate::out_list::OutList;
use std::alloc::AllocError;
use std::marker::Model;

/// The frames that a step sends, in order, once to send and once for the journal. Both lists are made before
/// anything changes, since a step cannot fail once it has begun to change the state.
#[derive(Drop)]
pub struct Frames {
    sent: OutList,
    kept: OutList,
}

impl Model for Frames {
    ghost use Rattle.std.specs.Prelude.{◌≡◌, List};
    ghost use Rattle.std.specs.Coded.{coded_list};
    ghost use Rattle.frames.specs.Octets.{RawOut};
    ghost use Rattle.hlrcore.specs.Frames.{raw_out_code};

    ghost Value = { List RawOut };

    ghost coded = { coded_list raw_out_code };

    ghost view = { λ f. f.sent };

    ghost invariant = { λ f. f.kept ≡ f.sent };
}

impl Frames {
    /// No frame.
    pub fn none() -> Frames
        ensures { result ≡ [] }
    {
        Frames {
            sent: OutList::none(),
            kept: OutList::none(),
        }
    }

    /// These frames.
    pub fn of(sent: OutList) -> Result<Frames, AllocError>
        ensures { IfOk result (λ frames. frames ≡ sent) }
    {
        let kept = sent.try_share()?;
        Ok(Frames { sent, kept })
    }

    /// The frames, in order.
    pub fn as_slice(&self) -> &[Out]
        ensures { map raw_out result.now ≡ self.now }
    {
        self.sent.as_slice()
    }

    /// Both lists of the frames.
    pub fn into_both(self) -> (OutList, OutList)
        ensures sent { result.0 ≡ self }
        ensures kept { result.1 ≡ self }
    {
        (self.sent, self.kept)
    }
}
