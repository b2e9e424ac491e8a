//! The frames of the project's examples, octet for octet, with an arena that is used again or cannot be
//! reset.

use crate::tables::{check, fields, octets};
use crate::told::{peer, taken, verdict_on};
use bumpalo::Bump;
use msgarena::{Indication, ReadMessage, Round, RoundFault, Verdict};
use std::alloc::{AllocError, Global};
use std::mem;
use std::process::Abort;
use std::test::Fail;

/// A Begin from 00000001 that asks for the route to 447700900000.
const ROUTE: [u8; 73] = [
    0x62, 0x47, 0x48, 0x04, 0x00, 0x00, 0x00, 0x01, 0x6B, 0x1E, 0x28, 0x1C, 0x06, 0x07, 0x00, 0x11,
    0x86, 0x05, 0x01, 0x01, 0x01, 0xA0, 0x11, 0x60, 0x0F, 0x80, 0x02, 0x07, 0x80, 0xA1, 0x09, 0x06,
    0x07, 0x04, 0x00, 0x00, 0x01, 0x00, 0x14, 0x03, 0x6C, 0x1F, 0xA1, 0x1D, 0x02, 0x01, 0x01, 0x02,
    0x01, 0x2D, 0x30, 0x15, 0x80, 0x07, 0x91, 0x44, 0x77, 0x00, 0x09, 0x00, 0x00, 0x81, 0x01, 0xFF,
    0x82, 0x07, 0x91, 0x44, 0x77, 0x00, 0x09, 0x99, 0x99,
];

/// The examples: the verdict on each frame.
const EXAMPLES: &str = "
- the first route
  | 62 47 48 04 00 00 00 01 6B 1E 28 1C 06 07 00 11 86 05 01 01 01 A0 11 60 0F 80 02 07 80 A1 09 06 07 04 00
    00 01 00 14 03 6C 1F A1 1D 02 01 01 02 01 2D 30 15 80 07 91 44 77 00 09 00 00 81 01 FF 82 07 91 44 77 00
    09 99 99
  | begin 00000001 04000001001403, invoke 1 - 45 route 447700900000
- the same with indefinite lengths
  | 62 80 48 04 00 00 00 01 6B 80 28 80 06 07 00 11 86 05 01 01 01 A0 80 60 80 80 02 07 80 A1 80 06 07 04 00
    00 01 00 14 03 00 00 00 00 00 00 00 00 00 00 6C 80 A1 80 02 01 01 02 01 2D 30 80 80 07 91 44 77 00 09 00
    00 81 01 FF 82 07 91 44 77 00 09 99 99 00 00 00 00 00 00 00 00
  | begin 00000001 04000001001403, invoke 1 - 45 route 447700900000
- badly formed: another message | 63 06 48 04 00 00 00 01 | abort 00000001 0
- badly formed: without an originating id | 63 06 49 04 00 00 00 01 | discarded
- badly formed: another child | 62 08 48 04 00 00 00 01 05 00 | abort 00000001 3
- an unknown dialogue: a destination id of five octets
  | 65 0D 48 04 00 00 00 07 49 05 01 00 00 00 01
  | abort 00000007 2
- a whole update
  | 62 4E 48 04 00 00 00 0B 6B 1E 28 1C 06 07 00 11 86 05 01 01 01 A0 11 60 0F 80 02 07 80 A1 09 06 07 04 00
    00 01 00 01 03 6C 26 A1 24 02 01 01 02 01 02 30 1C 04 08 32 14 05 00 00 00 00 F1 81 07 91 44 77 00 09 00
    20 04 07 91 44 77 00 09 00 21
  | begin 0000000B 04000001000103, invoke 1 - 2 update 234150000000001 447700900012 447700900002 -
- a refused context: version 2
  | 62 4E 48 04 00 00 00 0B 6B 1E 28 1C 06 07 00 11 86 05 01 01 01 A0 11 60 0F 80 02 07 80 A1 09 06 07 04 00
    00 01 00 01 02 6C 26 A1 24 02 01 01 02 01 02 30 1C 04 08 32 14 05 00 00 00 00 F1 81 07 91 44 77 00 09 00
    20 04 07 91 44 77 00 09 00 21
  | begin 0000000B 04000001000102, invoke 1 - 2 update 234150000000001 447700900012 447700900002 -
- a refused context: another context
  | 62 4E 48 04 00 00 00 0B 6B 1E 28 1C 06 07 00 11 86 05 01 01 01 A0 11 60 0F 80 02 07 80 A1 09 06 07 04 00
    00 01 00 05 03 6C 26 A1 24 02 01 01 02 01 02 30 1C 04 08 32 14 05 00 00 00 00 F1 81 07 91 44 77 00 09 00
    20 04 07 91 44 77 00 09 00 21
  | begin 0000000B 04000001000503, invoke 1 - 2 update 234150000000001 447700900012 447700900002 -
- a refused context: no dialogue portion
  | 62 2E 48 04 00 00 00 0B 6C 26 A1 24 02 01 01 02 01 02 30 1C 04 08 32 14 05 00 00 00 00 F1 81 07 91 44 77
    00 09 00 20 04 07 91 44 77 00 09 00 21
  | begin 0000000B -, invoke 1 - 2 update 234150000000001 447700900012 447700900002 -
- a refused context: no component portion
  | 62 26 48 04 00 00 00 0B 6B 1E 28 1C 06 07 00 11 86 05 01 01 01 A0 11 60 0F 80 02 07 80 A1 09 06 07 04 00
    00 01 00 01 03
  | begin 0000000B 04000001000103
- components: seventeen | 62 7F 48 04 00 00 00 01 6C 77 REJECT*17 | abort 00000001 4
- components: sixteen
  | 62 78 48 04 00 00 00 01 6C 70 REJECT*16
  | begin 00000001 -, reject - general 0, reject - general 0, reject - general 0, reject - general 0, reject
    - general 0, reject - general 0, reject - general 0, reject - general 0, reject - general 0, reject -
    general 0, reject - general 0, reject - general 0, reject - general 0, reject - general 0, reject -
    general 0, reject - general 0
";

#[test]
fn examples(rt: HostRuntime) -> Result<(), Fail> {
    check(&rt, EXAMPLES, verdict_on)
}

#[test]
fn cut_route(rt: HostRuntime) -> Result<(), Fail> {
    for count in 0..ROUTE.len() {
        let cut = taken(rt.alloc(), &ROUTE[..count])?;
        assert_eq!(rt; cut.verdict(), &Verdict::Discard, "after {count} octets");
    }
    Ok(())
}

/// Both are the same reading of the same frame from the same peer.
fn are_same(rt: &impl Abort, one: &Indication, other: &Indication) {
    let ones = (one.from(), one.octets(), one.verdict());
    assert_eq!(rt; ones, (other.from(), other.octets(), other.verdict()));
}

#[test]
fn indications(rt: HostRuntime) -> Result<(), Fail> {
    let taken = taken(rt.alloc(), &ROUTE)?;
    are_same(&rt, &taken.try_copy(rt.alloc())?, &taken);
    assert_eq!(rt; (taken.from(), taken.octets()), (peer()?, ROUTE.as_slice()));
    Ok(())
}

/// A thousand rounds in one arena have the same results as a thousand arenas.
#[test]
fn one_arena(rt: HostRuntime) -> Result<(), Fail> {
    let alloc = rt.alloc();
    let mut bump = Bump::new(alloc);
    for _ in 0..77 {
        for row in EXAMPLES.split("\n- ").skip(1) {
            let (_, text, _) = fields(row).ok_or("a row")?;
            let frame = octets(alloc, text)?;
            let here = Round::take(alloc, &mut bump, peer()?, &frame)?;
            are_same(&rt, &here, &taken(alloc, &frame)?);
        }
    }
    Ok(())
}

/// Leaves octets in the arena that are never freed.
fn forget_octets(bump: &Bump) -> Result<(), Fail> {
    let mut octets = Vec::new(bump);
    octets.push(7u8)?;
    mem::forget(octets);
    Ok(())
}

#[test]
fn reset_refused(rt: HostRuntime) -> Result<(), Fail> {
    let mut bump = Bump::new(rt.alloc());
    forget_octets(&bump)?;
    match Round::take(rt.alloc(), &mut bump, peer()?, &ROUTE) {
        Err(RoundFault::ResetRefused(refused)) => {
            are_same(&rt, &refused, &taken(rt.alloc(), &ROUTE)?);
        }
        _ => panic!(rt; "the arena gave back what is still out"),
    }
    Ok(())
}

/// The indication of the first route, or `Memory`, and then that of a second round through a new arena.
fn taken_or_again(alloc: Global) -> Result<Indication, Fail> {
    let mut bump = Bump::new(alloc);
    match Round::take(alloc, &mut bump, peer()?, &ROUTE) {
        Ok(taken) => Ok(taken),
        Err(RoundFault::Memory) => taken(alloc, &ROUTE),
        Err(fault) => Err(fault)?,
    }
}

/// How many components a Begin has.
fn count(verdict: &Verdict) -> Option<usize> {
    match verdict {
        Verdict::Read(ReadMessage::Begin { components, .. }) => Some(components.as_slice().len()),
        _ => None,
    }
}

/// With enough memory the frame is read and copied. If an allocation fails, the answer is `Memory`, and the
/// next is right: run `rt try --test --fail-alloc N` for N = 1, 2, .. until all tests pass, and look at
/// this one only, since the others need enough memory.
#[test]
fn refused_growth_is_memory(rt: HostRuntime) -> Result<(), Fail> {
    let taken = taken_or_again(rt.alloc())?;
    let copy = match taken.try_copy(rt.alloc()) {
        Ok(copy) => copy,
        Err(AllocError) => taken.try_copy(rt.alloc())?,
    };
    assert_eq!(rt;
        (copy.octets(), count(copy.verdict())),
        (ROUTE.as_slice(), Some(1))
    );
    Ok(())
}
