//! Identifier octets (X.690, 8.1.2).
ghost use Rattle.std.specs.Prelude.{◌≡◌, ◌*◌, ◌<◌, ◌++◌, OnOk};
ghost use Rattle.x690.specs.Identifier.{class_bits, leading, number_octets, identifier};

use std::alloc::{AllocError, Allocator};
use x690::{Class, Tag};

/// The class in bits 8 and 7 (8.1.2.2).
fn class_of(class: Class) -> u8
    ensures { result ≡ 64 * class_bits class }
{
    match class {
        Class::Universal => 0x00,
        Class::Application => 0x40,
        Class::ContextSpecific => 0x80,
        Class::Private => 0xc0,
    }
}

/// The leading octet of an identifier, with these low bits.
fn leading_octet(tag: Tag, low: u8) -> u8
    requires { low < 32 }
    ensures { result ≡ leading tag low }
{
    class_of(tag.class) + (if tag.constructed { 0x20 } else { 0x00 }) + low
}

/// Appends a tag number, seven bits an octet (8.1.2.4.2).
#[tactic(auto, using(std::proofs::lemmas::Bool::Decides::nat_tests), unfolding(x690::specs::Identifier::number_octets))]
fn put_number<A: Allocator>(out: &mut Vec<u8, A>, number: u32) -> Result<(), AllocError>
    ensures { OnOk result (out.new.items ≡ out.old.items ++ number_octets number) }
{
    if number >= 1 << 28 {
        out.push((0x80 + number / (1 << 28)) as u8)?;
    }
    if number >= 1 << 21 {
        out.push((0x80 + number / (1 << 21) % 0x80) as u8)?;
    }
    if number >= 1 << 14 {
        out.push((0x80 + number / (1 << 14) % 0x80) as u8)?;
    }
    if number >= 1 << 7 {
        out.push((0x80 + number / (1 << 7) % 0x80) as u8)?;
    }
    out.push((number % 0x80) as u8)?;
    Ok(())
}

/// Appends the identifier octets of a tag.
#[tactic(auto, using(std::proofs::lemmas::Bool::Decides::nat_tests), unfolding(x690::specs::Identifier::identifier))]
pub(crate) fn put_identifier<A: Allocator>(out: &mut Vec<u8, A>, tag: Tag) -> Result<(), AllocError>
    ensures { OnOk result (out.new.items ≡ out.old.items ++ identifier tag) }
{
    if tag.number < 31 {
        out.push(leading_octet(tag, tag.number as u8))?;
        return Ok(());
    }
    out.push(leading_octet(tag, 31))?;
    put_number(out, tag.number)
}
