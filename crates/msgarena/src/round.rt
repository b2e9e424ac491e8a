//! A frame decoded in an arena that is reset at once.

ghost use Rattle.std.specs.Prelude.{◌≡◌, IfOk};
ghost use Rattle.machine.specs.Received.{Verdict};
ghost use Rattle.frames.specs.Frames.{IsVerdict};
ghost use Rattle.msgarena.specs.Seen.{seen};
ghost use Rattle.msgarena.specs.Taken.{IfTaken};

use crate::fault::RoundFault;
use crate::indication::Indication;
use crate::message;
use crate::verdict::verdict_of;
use bertree::{TreeFault, read_tree};
use bumpalo::Bump;
use hlr_types::Peer;
use std::alloc::{AllocError, Global};

/// One frame decoded in an arena.
pub struct Round;

impl Round {
    /// The indication of these octets from this address. They are decoded in the arena, what they read to is copied out, and the
    /// arena is reset. A frame that is no message is an indication too: the verdict says what becomes of it.
    ///
    /// On error the arena's contents are unspecified.
    pub fn take(
        alloc: Global,
        bump: &mut Bump,
        from: Peer,
        octets: &[u8],
    ) -> Result<Indication, RoundFault>
        // The result is that frame, and the verdict on it.
        ensures frame { IfTaken result (λ taken. (taken.from ≡ from)
            × (taken.octets ≡ octets.now)) }
        ensures judged { IfTaken result (λ taken. IsVerdict octets.now taken.verdict) }
        // There is one verdict on the octets, so it is the same for every arena.
        ensures only { (v : Verdict) → IsVerdict octets.now v
            → IfTaken result (λ taken. taken.verdict ≡ v) }
    {
        Round::take_owned(alloc, bump, from, octets.to_vec(alloc)?)
    }

    /// The same for octets that are handed over, so that they are not copied. On error they are dropped.
    pub fn take_owned(
        alloc: Global,
        bump: &mut Bump,
        from: Peer,
        octets: Vec<u8>,
    ) -> Result<Indication, RoundFault>
        ensures frame { IfTaken result (λ taken. (taken.from ≡ from)
            × (taken.octets ≡ octets.items)) }
        ensures judged { IfTaken result (λ taken. IsVerdict octets.items taken.verdict) }
        ensures only { (v : Verdict) → IsVerdict octets.items v
            → IfTaken result (λ taken. taken.verdict ≡ v) }
    {
        let verdict = verdict_on(alloc, bump, &octets)?;
        match bump.reset() {
            Ok(()) => Ok(Indication::new(from, octets, verdict)),
            Err(_) => Err(RoundFault::ResetRefused(Indication::new(from, octets, verdict))),
        }
    }
}

/// The verdict on octets: discarded if they spell no tree within the limits.
fn verdict_on(alloc: Global, bump: &Bump, octets: &[u8]) -> Result<message::Verdict, AllocError>
    ensures { IfOk result (λ found. IsVerdict octets.now (seen found)) }
{
    match read_tree(bump, octets) {
        Ok(node) => verdict_of(alloc, &node),
        Err(TreeFault::Memory) => Err(AllocError),
        Err(TreeFault::TooLong | TreeFault::NotBer | TreeFault::TooDeep) => {
            Ok(message::Verdict::Discard)
        }
    }
}
