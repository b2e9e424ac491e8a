//! That trees are written at all, and as the octets of the standard and of the project's frames (ITU-T
//! X.690, 8.1).

use crate::outlines::tree;
use crate::tables::is_written;
use berwrite::{Class, Memory, OwnTree, Tag, write_tree};
use bumpalo::Bump;
use std::alloc::Global;
use std::process::Abort;
use std::test::Fail;

/// The End that answers the first routing request.
const FIRST_ANSWER: (&str, &str) = (
    "A4[ A9=00000001
        A11[ U8[ U6=00118605010101 C0[ A1[
            C0=0780 C1[ U6=04000001001403 ] C2[ U2=00 ] C3[ C1[ U2=00 ] ] ] ] ] ]
        A12[ C2[ U2=01 U16[ U2=2D U16[ U4=32140500000000F1 C0[ C1=91447700090010 ] ] ] ] ] ]",
    "64 55 49 04 00 00 00 01 6B 2A 28 28 06 07 00 11 86 05 01 01 01 A0 1D 61 1B 80 02 07 80 A1 09
     06 07 04 00 00 01 00 14 03 A2 03 02 01 00 A3 05 A1 03 02 01 00 6C 21 A2 1F 02 01 01 30 1A 02
     01 2D 30 15 04 08 32 14 05 00 00 00 00 F1 A0 09 81 07 91 44 77 00 09 00 10",
);

/// Lengths in the fewest octets, of contents and round an element.
const LENGTHS: [(&str, &str); 13] = [
    ("U4=", "04 00"),
    ("U4=07*127", "04 7F 07*127"),
    ("U4=07*128", "04 81 80 07*128"),
    ("U4=07*255", "04 81 FF 07*255"),
    ("U4=07*256", "04 82 01 00 07*256"),
    ("U4=07*65535", "04 82 FF FF 07*65535"),
    ("U4=07*65536", "04 83 01 00 00 07*65536"),
    ("U16[ U4=07*125 ]", "30 7F 04 7D 07*125"),
    ("U16[ U4=07*126 ]", "30 81 80 04 7E 07*126"),
    ("U16[ U4=07*252 ]", "30 81 FF 04 81 FC 07*252"),
    ("U16[ U4=07*253 ]", "30 82 01 00 04 81 FD 07*253"),
    ("U16[ U4=07*65531 ]", "30 82 FF FF 04 82 FF FB 07*65531"),
    ("U16[ U4=07*65532 ]", "30 83 01 00 00 04 82 FF FC 07*65532"),
];

/// Numbers in the fewest octets.
const NUMBERS: [(&str, &str); 6] = [
    ("P30=", "DE 00"),
    ("P31=", "DF 1F 00"),
    ("P127=", "DF 7F 00"),
    ("P128=", "DF 81 00 00"),
    ("P16384=", "DF 81 80 00 00"),
    ("P268435455=", "DF FF FF FF 7F 00"),
];

/// Each tree is written as these octets.
fn check(rt: &(impl Abort + AllocGlobal), rows: &[(&str, &str)]) -> Result<(), Fail> {
    let alloc = rt.alloc();
    for (outline, text) in rows {
        let bump = Bump::new(alloc);
        let tree = tree(alloc, &bump, outline)?;
        let octets = write_tree(alloc, &tree)?;
        is_written(rt, &octets, text)?;
    }
    Ok(())
}

#[test]
fn first_answer_is_written(rt: HostRuntime) -> Result<(), Fail> {
    check(&rt, &[FIRST_ANSWER])?;
    let alloc = rt.alloc();
    let bump = Bump::new(alloc);
    let octets = write_tree(alloc, &tree(alloc, &bump, FIRST_ANSWER.0)?)?;
    assert_eq!(rt; octets.capacity(), 87, "in one allocation of their size");
    Ok(())
}

#[test]
fn lengths_in_the_fewest_octets(rt: HostRuntime) -> Result<(), Fail> {
    check(&rt, &LENGTHS)
}

#[test]
fn numbers_in_the_fewest_octets(rt: HostRuntime) -> Result<(), Fail> {
    check(&rt, &NUMBERS)
}

fn tag(class: Class, constructed: bool, number: u32) -> Tag {
    Tag {
        class,
        constructed,
        number,
    }
}

/// The octets of an End with an id and a component portion.
const END: [u8; 13] = [
    0x64, 0x0B, 0x49, 0x04, 0x00, 0x00, 0x00, 0x01, 0x6C, 0x03, 0x82, 0x01, 0x01,
];

/// The octets of an End with an id and a component portion.
fn ended(alloc: Global) -> Result<Vec<u8>, Memory> {
    let bump = Bump::new(alloc);
    let id = OwnTree::primitive(&bump, tag(Class::Application, false, 9), &[0, 0, 0, 1])?;
    let component = OwnTree::primitive(&bump, tag(Class::ContextSpecific, false, 2), &[1])?;
    let portion = OwnTree::around(&bump, tag(Class::Application, true, 12), component)?;
    let end = tag(Class::Application, true, 4);
    let end = OwnTree::constructed(&bump, end, &[id, portion])?;
    write_tree(alloc, &end)
}

/// With enough memory the octets are written. If an allocation fails, the answer is `Memory`: run `rt try
/// --test --fail-alloc N` for N = 1, 2, .. until all tests pass, and look at this one only, since the
/// others need enough memory.
#[test]
fn refused_growth_is_memory(rt: HostRuntime) -> Result<(), Fail> {
    match ended(rt.alloc()) {
        Ok(octets) => assert_eq!(rt; octets.as_slice(), END.as_slice()),
        Err(fault) => assert_eq!(rt; fault, Memory),
    }
    Ok(())
}
