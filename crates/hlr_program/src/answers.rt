//! What a batch answers, as it is handled.

ghost use Rattle.std.specs.Prelude.{◌≡◌, ◌∷◌, [], OnOk, map};
ghost use Rattle.hlrcore.specs.Frames.{raw_out};
ghost use Rattle.hlr_program.specs.Printed.{Prints};
ghost use Rattle.workers.specs.Shared.{sent_at};
ghost use Rattle.hlr_program.specs.Answered.{frames_for, so_far};

use crate::printed::push_sent;
use hlr_input::Letters;
use hlrcore::Out;
use std::alloc::{AllocError, Global};
use workers::Receipt;

/// The lines of the frames that a batch has sent so far, and the local ids that letters stand for after it. Nothing is printed
/// yet, so that a batch with a fault prints nothing.
#[derive(Drop)]
pub struct Answers {
    pub text: Vec<u8>,
    pub letters: Letters,
}

impl Answers {
    /// No line, and no id.
    pub fn new(alloc: Global) -> Answers
        ensures text { result.text.items ≡ [] }
        ensures letters { result.letters ≡ [] }
    {
        Answers {
            text: Vec::new(alloc),
            letters: Letters::new(alloc),
        }
    }

    /// Appends the lines of these frames, in order, and records the local ids in them. Most events send none.
    #[inline(always)]
    pub fn push_all(&mut self, sent: &[Out]) -> Result<(), AllocError>
        ensures { OnOk result (Prints (so_far self.old) (map raw_out sent.now) (so_far self.new)) }
    {
        for frame in sent {
            self.push(frame)?;
        }
        Ok(())
    }

    /// The same for the frames that receipts have, one receipt after the other.
    pub fn push_receipts(&mut self, receipts: &[Receipt]) -> Result<(), AllocError>
        ensures { OnOk result (Prints (so_far self.old) (frames_for receipts.now) (so_far self.new)) }
    {
        for receipt in receipts {
            self.push_receipt(receipt)?;
        }
        Ok(())
    }

    /// The same for the frames of a receipt, none if its job was refused.
    fn push_receipt(&mut self, receipt: &Receipt) -> Result<(), AllocError>
        ensures { OnOk result (Prints (so_far self.old) (sent_at receipt.now.place) (so_far self.new)) }
    {
        match &receipt.answer {
            Ok(placed) => self.push_all(placed.outs.as_slice()),
            Err(_) => Ok(()),
        }
    }

    /// Appends the line of a frame, and records the local id in it.
    fn push(&mut self, frame: &Out) -> Result<(), AllocError>
        ensures { OnOk result (Prints (so_far self.old) (raw_out frame.now ∷ []) (so_far self.new)) }
    {
        push_sent(&mut self.text, frame)?;
        self.letters.note(&frame.octets)?;
        Ok(())
    }
}
