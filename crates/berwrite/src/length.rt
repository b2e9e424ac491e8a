//! Length octets of the definite form, in the fewest octets (X.690, 8.1.3.4 and 8.1.3.5).
ghost use Rattle.std.specs.Prelude.{◌≡◌, ◌+◌, ◌-◌, ◌/◌, ◌%◌, ◌<◌, ◌++◌, length as list_length, take, drop, OnOk};
ghost use Rattle.x690.specs.Length.{length_octets};

use std::alloc::{AllocError, Allocator};

/// Appends a length.
#[tactic(auto, using(std::proofs::lemmas::Bool::Decides::nat_tests), unfolding(x690::specs::Length::length_octets))]
pub(crate) fn put_length<A: Allocator>(
    out: &mut Vec<u8, A>,
    length: usize,
) -> Result<(), AllocError>
    ensures { OnOk result (out.new.items ≡ out.old.items ++ length_octets length) }
{
    if length < 1 << 7 {
        out.push(length as u8)?;
        return Ok(());
    }
    if length < 1 << 8 {
        out.push(0x81)?;
    } else if length < 1 << 16 {
        out.push(0x82)?;
    } else if length < 1 << 24 {
        out.push(0x83)?;
    } else {
        out.push(0x84)?;
    }
    if length >= 1 << 24 {
        out.push((length / (1 << 24) % 0x100) as u8)?;
    }
    if length >= 1 << 16 {
        out.push((length / (1 << 16) % 0x100) as u8)?;
    }
    if length >= 1 << 8 {
        out.push((length / (1 << 8) % 0x100) as u8)?;
    }
    out.push((length % 0x100) as u8)?;
    Ok(())
}

/// Replaces the octet at a place by these.
fn widen<A: Allocator>(out: &mut Vec<u8, A>, place: usize, octets: &[u8]) -> Result<(), AllocError>
    requires { place < list_length out.old.items }
    ensures { OnOk result (out.new.items
        ≡ take place out.old.items ++ (octets.now ++ drop (place + 1) out.old.items)) }
{
    out.extend_from_slice(octets)?;
    out[place + 1..].rotate_right(octets.len());
    out.remove(place);
    Ok(())
}

/// Replaces the octet at a place by the length of all that follows it.
#[tactic(auto, using(std::proofs::lemmas::Bool::Decides::nat_tests), unfolding(x690::specs::Length::length_octets))]
pub(crate) fn set_length<A: Allocator>(out: &mut Vec<u8, A>, place: usize) -> Result<(), AllocError>
    requires { place < list_length out.old.items }
    ensures { OnOk result (out.new.items ≡ take place out.old.items
        ++ (length_octets (list_length out.old.items - place - 1)
        ++ drop (place + 1) out.old.items)) }
{
    let length = out.len() - place - 1;
    let [.., a, b, c, d] = (length as u64).to_be_bytes();
    match length {
        0..0x80 => {
            out[place] = d;
            Ok(())
        }
        0x80..0x100 => widen(out, place, &[0x81, d]),
        0x100..0x1_0000 => widen(out, place, &[0x82, c, d]),
        0x1_0000..0x100_0000 => widen(out, place, &[0x83, b, c, d]),
        0x100_0000.. => widen(out, place, &[0x84, a, b, c, d]),
    }
}
