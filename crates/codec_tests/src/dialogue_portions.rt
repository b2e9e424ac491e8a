//! Dialogue portions octet for octet (ITU-T Q.773, 3.2).

use crate::outlines::tree;
use crate::tables::{check, is_written, octets};
use crate::told::{diagnostic, spelled};
use bertree::read_tree;
use berwrite::{Memory, OwnTree, write_tree};
use bumpalo::Bump;
use q773_dlg::{Apdu, Diagnostic, Response, Unreadable, aare, aarq, abrt, portion, read_dialogue};
use std::alloc::{AllocError, Global};
use std::test::Fail;

/// The context shortMsgGateway, version 3.
const NAME: [u8; 7] = [0x04, 0x00, 0x00, 0x01, 0x00, 0x14, 0x03];

/// An AARE for this context.
fn response(outcome: u8, diagnostic: Diagnostic) -> Apdu<'static> {
    Apdu::Aare(Response {
        context: &NAME,
        result: outcome,
        diagnostic,
    })
}

/// A dialogue portion: the name, the result and the diagnostic, or the source of an abort.
fn told_apdu(alloc: Global, found: &Result<Apdu, Unreadable>) -> Result<String, AllocError> {
    match found {
        Ok(Apdu::Aarq(name)) => format!(in alloc; "asks {}", spelled(alloc, name)?),
        Ok(Apdu::Aare(response)) => {
            let (name, why) = (
                spelled(alloc, response.context)?,
                diagnostic(alloc, response.diagnostic)?,
            );
            format!(in alloc; "answers {name} {} {why}", response.result)
        }
        Ok(Apdu::Abrt(source)) => format!(in alloc; "aborts {source}"),
        Err(fault) => format!(in alloc; "{fault}"),
    }
}

/// These octets as a dialogue portion.
fn told(alloc: Global, octets: &[u8]) -> Result<String, Fail> {
    let bump = Bump::new(alloc);
    Ok(told_apdu(alloc, &read_dialogue(&read_tree(&bump, octets)?))?)
}

/// Portions that are read, and some with one octet that makes them unreadable.
const PORTIONS: &str = "
- asking
  | 6B 1E 28 1C 06 07 00 11 86 05 01 01 01 A0 11 60 0F 80 02 07 80 A1 09 06 07 04 00 00 01 00 14 03
  | asks 04000001001403
- accepting
  | 6B 2A 28 28 06 07 00 11 86 05 01 01 01 A0 1D 61 1B 80 02 07 80 A1 09 06 07 04 00 00 01 00 14 03
    A2 03 02 01 00 A3 05 A1 03 02 01 00
  | answers 04000001001403 0 user 0
- refusing
  | 6B 2A 28 28 06 07 00 11 86 05 01 01 01 A0 1D 61 1B 80 02 07 80 A1 09 06 07 04 00 00 01 00 14 03
    A2 03 02 01 01 A3 05 A1 03 02 01 02
  | answers 04000001001403 1 user 2
- no common dialogue portion
  | 6B 2A 28 28 06 07 00 11 86 05 01 01 01 A0 1D 61 1B 80 02 07 80 A1 09 06 07 04 00 00 01 00 14 03
    A2 03 02 01 01 A3 05 A2 03 02 01 02
  | answers 04000001001403 1 provider 2
- another syntax
  | 6B 1E 28 1C 06 07 00 11 86 05 01 01 02 A0 11 60 0F 80 02 07 80 A1 09 06 07 04 00 00 01 00 14 03
  | unreadable dialogue portion
- another encoding
  | 6B 1E 28 1C 06 07 00 11 86 05 01 01 01 A1 11 60 0F 80 02 07 80 A1 09 06 07 04 00 00 01 00 14 03
  | unreadable dialogue portion
- another APDU
  | 6B 1E 28 1C 06 07 00 11 86 05 01 01 01 A0 11 62 0F 80 02 07 80 A1 09 06 07 04 00 00 01 00 14 03
  | unreadable dialogue portion
- no dialogue portion
  | 6C 1E 28 1C 06 07 00 11 86 05 01 01 01 A0 11 60 0F 80 02 07 80 A1 09 06 07 04 00 00 01 00 14 03
  | unreadable dialogue portion
- no result
  | 6B 2A 28 28 06 07 00 11 86 05 01 01 01 A0 1D 61 1B 80 02 07 80 A1 09 06 07 04 00 00 01 00 14 03
    A3 03 02 01 00 A3 05 A1 03 02 01 00
  | unreadable dialogue portion
- a diagnostic of neither
  | 6B 2A 28 28 06 07 00 11 86 05 01 01 01 A0 1D 61 1B 80 02 07 80 A1 09 06 07 04 00 00 01 00 14 03
    A2 03 02 01 00 A3 05 A0 03 02 01 00
  | unreadable dialogue portion
";

#[test]
fn portions_are_read(rt: HostRuntime) -> Result<(), Fail> {
    check(
        &rt,
        PORTIONS,
        |alloc, text| told(alloc, &octets(alloc, text)?),
    )
}

/// APDUs in a portion: versions, names, and sources of aborts.
const APDUS: &str = "
- a version of no octet | A0[ C0= C1[ U6=04000001001403 ] ] | unreadable dialogue portion
- a version of one octet | A0[ C0=07 C1[ U6=04000001001403 ] ] | unreadable dialogue portion
- version 1 | A0[ C0=0780 C1[ U6=04000001001403 ] ] | asks 04000001001403
- later versions too | A0[ C0=00FF C1[ U6=04000001001403 ] ] | asks 04000001001403
- three octets | A0[ C0=038008 C1[ U6=04000001001403 ] ] | asks 04000001001403
- eight bits unused | A0[ C0=0880 C1[ U6=04000001001403 ] ] | unreadable dialogue portion
- no version 1 | A0[ C0=0740 C1[ U6=04000001001403 ] ] | unreadable dialogue portion
- a name of no octet | A0[ C0=0780 C1[ U6= ] ] | unreadable dialogue portion
- a name of one octet | A0[ C0=0780 C1[ U6=2A ] ] | asks 2A
- a name of the most octets
  | A0[ C0=0780 C1[ U6=2A*32 ] ] | asks 2A2A2A2A2A2A2A2A2A2A2A2A2A2A2A2A2A2A2A2A2A2A2A2A2A2A2A2A2A2A2A2A
- a name of one octet too many | A0[ C0=0780 C1[ U6=2A*33 ] ] | unreadable dialogue portion
- an abort by the user | A4[ C0=00 ] | aborts 0
- an abort by the provider with information of the user | A4[ C0=01 C30[ ] ] | aborts 1
- an abort by neither | A4[ C0=02 ] | unreadable dialogue portion
- an abort with another element | A4[ C0=01 A4[ ] ] | unreadable dialogue portion
";

#[test]
fn apdus_are_read(rt: HostRuntime) -> Result<(), Fail> {
    check(&rt, APDUS, |alloc, outline| {
        let bump = Bump::new(alloc);
        let apdu = tree(alloc, &bump, outline)?;
        told(alloc, &write_tree(alloc, &portion(&bump, apdu)?)?)
    })
}

/// The portion that refuses the context: there is no such application context.
const REFUSING: &str = "6B 2A 28 28 06 07 00 11 86 05 01 01 01 A0 1D 61 1B 80 02 07 80 A1 09
    06 07 04 00 00 01 00 14 03 A2 03 02 01 01 A3 05 A1 03 02 01 02";

/// The portion that refuses it: there is no common dialogue portion.
const REFUSING_BY_THE_PROVIDER: &str =
    "6B 2A 28 28 06 07 00 11 86 05 01 01 01 A0 1D 61 1B 80 02 07 80
    A1 09 06 07 04 00 00 01 00 14 03 A2 03 02 01 01 A3 05 A2 03 02 01 02";

/// The portion with an ABRT by the user.
const ABORTING: &str = "6B 12 28 10 06 07 00 11 86 05 01 01 01 A0 05 64 03 80 01 00";

/// The tree of an APDU.
fn apdu_tree<'a>(bump: &'a Bump, apdu: Apdu<'a>) -> Result<OwnTree<'a>, Memory> {
    match apdu {
        Apdu::Aarq(name) => aarq(bump, name),
        Apdu::Aare(response) => {
            aare(bump, response.context, response.result, response.diagnostic)
        }
        Apdu::Abrt(source) => abrt(bump, source),
    }
}

#[test]
fn portions_are_sent(rt: HostRuntime) -> Result<(), Fail> {
    let alloc = rt.alloc();
    let rows = [
        (Apdu::Aarq(&NAME), "DQ"),
        (response(0, Diagnostic::OfUser(0)), "DA"),
        (response(1, Diagnostic::OfUser(2)), REFUSING),
        (
            response(1, Diagnostic::OfProvider(2)),
            REFUSING_BY_THE_PROVIDER,
        ),
        (Apdu::Abrt(0), ABORTING),
    ];
    for (apdu, text) in rows {
        let bump = Bump::new(alloc);
        let octets = write_tree(alloc, &portion(&bump, apdu_tree(&bump, apdu)?)?)?;
        is_written(&rt, &octets, text)?;
    }
    Ok(())
}
