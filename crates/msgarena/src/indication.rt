//! A frame with the verdict on it.

ghost use Rattle.std.specs.Prelude.{◌≡◌, [], IfOk};
ghost use Rattle.machine.specs.Received.{Discard};
ghost use Rattle.frames.specs.Frames.{IsVerdict};
ghost use Rattle.msgarena.specs.Seen.{seen};

use crate::message::Verdict;
use hlr_types::Peer;
use std::alloc::{AllocError, Global};
use std::marker::Model;
use std::mem;

/// A frame: its source, its octets, and the verdict on them, which is owned. The type guarantees that it is the one verdict of
/// the definitions.
#[derive(Debug, Drop)]
pub struct Indication {
    from: Peer,
    octets: Vec<u8>,
    verdict: Verdict,
}

impl Model for Indication {
    ghost use Rattle.msgarena.specs.JudgedFrame.{JudgedFrame};

    ghost Value = { JudgedFrame };

    ghost use Rattle.frames.specs.Frames.{IsVerdict};
    ghost use Rattle.msgarena.specs.Seen.{seen};

    ghost view = { λ i.
        record { from = i.from; octets = i.octets.items; verdict = seen i.verdict } };

    ghost invariant = { λ i. IsVerdict i.octets.items (seen i.verdict) };
}

impl Indication {
    /// A frame that was judged.
    pub(crate) fn new(from: Peer, octets: Vec<u8>, judged: Verdict) -> Indication
        requires { IsVerdict octets.items (seen judged) }
        ensures { result ≡ record { from = from; octets = octets.items; verdict = seen judged } }
    {
        Indication {
            from,
            octets,
            verdict: judged,
        }
    }

    /// The source of the frame.
    pub fn from(&self) -> Peer
        ensures { result ≡ self.now.from }
    {
        self.from
    }

    /// The octets of the frame.
    pub fn octets(&self) -> &[u8]
        ensures { result.now ≡ self.now.octets }
    {
        self.octets.as_slice()
    }

    /// The octets of the frame, which are taken out of it. What is left has the source and no octets, and is discarded.
    pub fn take_octets(&mut self) -> Vec<u8>
        ensures taken { result.items ≡ self.old.octets }
        ensures left { self.new
            ≡ record { from = self.old.from; octets = []; verdict = Discard } }
    {
        let empty = Vec::new(*self.octets.allocator());
        self.verdict = Verdict::Discard;
        mem::replace(&mut self.octets, empty)
    }

    /// The verdict on the frame.
    pub fn verdict(&self) -> &Verdict
        ensures value { seen result.now ≡ self.now.verdict }
        ensures judged { IsVerdict self.now.octets self.now.verdict }
    {
        &self.verdict
    }

    /// A copy, with the same source, octets and verdict.
    pub fn try_copy(&self, alloc: Global) -> Result<Indication, AllocError>
        ensures { IfOk result (λ copy. copy ≡ self.now) }
    {
        Ok(Indication {
            from: self.from,
            octets: self.octets.to_vec(alloc)?,
            verdict: self.verdict.try_copy(alloc)?,
        })
    }
}
