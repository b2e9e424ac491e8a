//! The frame that is to be sent next.

ghost use Rattle.std.specs.Prelude.{◌≡◌, ◌≢◌, length, take, drop, slice_get, Some, None, ◌⊎◌};
ghost use Rattle.frames.specs.Octets.{RawOut};
ghost use Rattle.hlr_types.specs.DigitTexts.{text_of};
ghost use Rattle.kunchrol.specs.Refusals.{TooSmall};

use crate::code::{NONE, OK, SMALL};
use embed::Register;

pub(crate) fn next_frame(
    register: &mut Register,
    to: &mut [u8],
    to_len: &mut usize,
    octets: &mut [u8],
    octets_len: &mut usize,
) -> u32
    ensures sent { result ≡ 0 → (out : RawOut) × (slice_get register.old.waiting 0 ≡ Some out)
        × (to_len.new ≡ length (text_of out.to)) × (take to_len.new to.new ≡ text_of out.to)
        × (octets_len.new ≡ length out.octets) × (take octets_len.new octets.new ≡ out.octets) }
    ensures rest { result ≡ 0 → register.new.waiting ≡ drop 1 register.old.waiting }
    ensures node { register.new.node ≡ register.old.node }
    ensures why { result ≢ 0 → (result ≡ 1) × (slice_get register.old.waiting 0 ≡ None)
        ⊎ (result ≡ 2) × TooSmall register.old (length to.old)
        (length octets.old) to_len.new octets_len.new }
    ensures refused { result ≢ 0 → register.new ≡ register.old }
    ensures rooms { result ≢ 0 → (to.new ≡ to.old) × (octets.new ≡ octets.old) }
    ensures lens { result ≢ 0 → result ≢ 2
        → (to_len.new ≡ to_len.old) × (octets_len.new ≡ octets_len.old) }
{
    let Some(out) = register.front() else {
        return NONE;
    };
    let text = out.to.digits().text();
    let digits = text.as_slice();
    *to_len = digits.len();
    *octets_len = out.octets.len();
    if to.len() < digits.len() || octets.len() < out.octets.len() {
        return SMALL;
    }
    to[..digits.len()].copy_from_slice(digits);
    octets[..out.octets.len()].copy_from_slice(&out.octets);
    register.drop_front();
    OK
}
