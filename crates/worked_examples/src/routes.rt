//! sendRoutingInfoForSM (TS 29.002, 12.1): the route, and its errors.

use crate::portions::{AARE, AARQ, ACCEPTED, SHORT_MESSAGE};
use crate::run::{Frame, RECORDS, answers};
use std::alloc::{AllocError, Global};
use std::process::Abort;
use std::sync::Wait;
use std::test::Fail;
use std::thread::Threads;

/// The SMS gateway.
const GATEWAY: &str = "447700909999";

/// A Begin of 73 octets with its AARQ, up to the digits of the subscriber's MSISDN after 447700.
const BEGIN: [&str; 4] = [
    "62 47 48 04 00 00 00 01",
    AARQ,
    SHORT_MESSAGE,
    "6C 1F A1 1D 02 01 01 02 01 2D 30 15 80 07 91 44 77 00",
];

/// What follows the MSISDN.
const PRIORITY_AND_CENTRE: &str = "81 01 FF 82 07 91 44 77 00 09 99 99";

/// The route to the first subscriber.
pub const ROUTE: [&str; 5] = [
    "64 55 49 04 00 00 00 01",
    AARE,
    SHORT_MESSAGE,
    ACCEPTED,
    "6C 21 A2 1F 02 01 01 30 1A 02 01 2D 30 15 04 08 32 14 05 00 00 00 00 F1 A0 09 81 07 91 44 77 00 09 00 10",
];

/// The parts of a request for the subscriber whose MSISDN has these digits after 447700.
pub fn request<'a>(digits: &'a str) -> [&'a str; 6] {
    let [begin, portion, context, invoke] = BEGIN;
    [begin, portion, context, invoke, digits, PRIORITY_AND_CENTRE]
}

/// An End with an error and no parameter, up to the error's code.
const NO_ROUTE: [&str; 5] = [
    "64 3C 49 04 00 00 00 01",
    AARE,
    SHORT_MESSAGE,
    ACCEPTED,
    "6C 08 A3 06 02 01 01 02 01",
];

/// The parts of the End with this error.
pub fn error<'a>(code: &'a str) -> [&'a str; 6] {
    let [end, portion, context, accepted, error] = NO_ROUTE;
    [end, portion, context, accepted, error, code]
}

pub fn to_gateway<'a>(parts: &'a [&'a str]) -> Frame<'a> {
    Frame {
        address: GATEWAY,
        parts,
    }
}

#[test]
fn first_route(rt: HostRuntime) -> Result<(), Fail> {
    let request = request("09 00 00");
    answers(&rt, RECORDS, &[to_gateway(&request)], &[to_gateway(&ROUTE)])
}

/// The same request with lengths of the indefinite form (X.690, 8.1.3.6).
#[test]
fn indefinite_route(rt: HostRuntime) -> Result<(), Fail> {
    let request = [
        "62 80 48 04 00 00 00 01 6B 80 28 80 06 07 00 11 86 05 01 01 01 A0 80 60 80 80 02 07 80",
        "A1 80 06 07 04 00 00 01 00 14 03 00 00 00 00 00 00 00 00 00 00",
        "6C 80 A1 80 02 01 01 02 01 2D 30 80 80 07 91 44 77 00 09 00 00 81 01 FF",
        "82 07 91 44 77 00 09 99 99 00 00 00 00 00 00 00 00",
    ];
    answers(&rt, RECORDS, &[to_gateway(&request)], &[to_gateway(&ROUTE)])
}

/// The request truncated to 0 to 72 octets.
#[test]
fn cut_route(rt: HostRuntime) -> Result<(), Fail> {
    let mut octets = Vec::new(rt.alloc());
    for part in request("09 00 00") {
        octets.extend(part.split(' '))?;
    }
    assert_eq!(rt; octets.len(), 73);
    for count in 0..octets.len() {
        answers(&rt, RECORDS, &[to_gateway(&octets[..count])], &[])?;
    }
    Ok(())
}

/// A subscriber without a register, one without an SM service, and an unknown one.
#[test]
fn route_errors(rt: HostRuntime) -> Result<(), Fail> {
    for (digits, code) in [("09 20 20", "06"), ("09 20 40", "0B"), ("09 20 99", "01")] {
        let request = request(digits);
        let error = error(code);
        answers(&rt, RECORDS, &[to_gateway(&request)], &[to_gateway(&error)])?;
    }
    Ok(())
}

/// The octets of a request up to a parameter of unknown type.
fn longer_request(
    alloc: Global,
    begin: &str,
    invoke: &str,
    behind: &str,
) -> Result<String, AllocError> {
    let mut octets = String::from_str(alloc, begin)?;
    octets.push_str(AARQ)?;
    octets.push_str(SHORT_MESSAGE)?;
    octets.push_str(invoke)?;
    octets.push_str(PRIORITY_AND_CENTRE)?;
    octets.push_str(behind)?;
    Ok(octets)
}

/// These octets and `zeros` zeros.
fn padded(octets: String, zeros: usize) -> Result<String, AllocError> {
    let mut padded = octets;
    for _ in 0..zeros {
        padded.push_str("00")?;
    }
    Ok(padded)
}

/// `levels` nested values of the indefinite form around a NULL.
fn nested(octets: String, levels: u8) -> Result<String, AllocError> {
    let mut nested = octets;
    for _ in 0..levels {
        nested.push_str("3080")?;
    }
    nested.push_str("0500")?;
    padded(nested, 2 * usize::from(levels))
}

/// One frame from the gateway, and what is sent.
fn answered(
    rt: &(impl Abort + Threads + Wait + Sync + AllocGlobal),
    octets: &str,
    sent: &[Frame],
) -> Result<(), Fail> {
    let received = [Frame {
        address: GATEWAY,
        parts: &[octets],
    }];
    answers(rt, RECORDS, &received, sent)
}

/// A frame has at most 4,096 octets; an unknown parameter is not read.
#[test]
fn largest_frame(rt: HostRuntime) -> Result<(), Fail> {
    let largest = longer_request(
        rt.alloc(),
        "62 82 0F FC 48 04 00 00 00 01",
        "6C 82 0F D2 A1 82 0F CE 02 01 01 02 01 2D 30 82 0F C4 80 07 91 44 77 00 09 00 00",
        "04 82 0F AB",
    )?;
    let larger = longer_request(
        rt.alloc(),
        "62 82 0F FD 48 04 00 00 00 01",
        "6C 82 0F D3 A1 82 0F CF 02 01 01 02 01 2D 30 82 0F C5 80 07 91 44 77 00 09 00 00",
        "04 82 0F AC",
    )?;
    let route = [to_gateway(&ROUTE)];
    answered(&rt, padded(largest, 4_011)?.as_str(), &route)?;
    answered(&rt, "", &[])?;
    answered(&rt, padded(larger, 4_012)?.as_str(), &[])
}

/// A Begin starts one operation: the second Invoke is rejected, resourceLimitation (Q.773).
#[test]
fn second_invoke_refused(rt: HostRuntime) -> Result<(), Fail> {
    let request = [
        "62 66 48 04 00 00 00 01",
        AARQ,
        SHORT_MESSAGE,
        "6C 3E A1 1D 02 01 01 02 01 2D 30 15 80 07 91 44 77 00 09 00 00",
        PRIORITY_AND_CENTRE,
        "A1 1D 02 01 02 02 01 2D 30 15 80 07 91 44 77 00 09 00 00",
        PRIORITY_AND_CENTRE,
    ];
    let answer = [
        "64 5D 49 04 00 00 00 01",
        AARE,
        SHORT_MESSAGE,
        ACCEPTED,
        "6C 29 A4 06 02 01 02 81 01 03",
        "A2 1F 02 01 01 30 1A 02 01 2D 30 15 04 08 32 14 05 00 00 00 00 F1 A0 09 81 07 91 44 77 00 09 00 10",
    ];
    answers(
        &rt,
        RECORDS,
        &[to_gateway(&request)],
        &[to_gateway(&answer)],
    )
}

/// A tree of 32 levels is read, one of 33 is too deep.
#[test]
fn deepest_tree(rt: HostRuntime) -> Result<(), Fail> {
    let deepest = longer_request(
        rt.alloc(),
        "62 81 B8 48 04 00 00 00 01",
        "6C 81 8F A1 81 8C 02 01 01 02 01 2D 30 81 83 80 07 91 44 77 00 09 00 00",
        "",
    )?;
    let deeper = longer_request(
        rt.alloc(),
        "62 81 BC 48 04 00 00 00 01",
        "6C 81 93 A1 81 90 02 01 01 02 01 2D 30 81 87 80 07 91 44 77 00 09 00 00",
        "",
    )?;
    let route = [to_gateway(&ROUTE)];
    answered(&rt, nested(deepest, 27)?.as_str(), &route)?;
    answered(&rt, nested(deeper, 28)?.as_str(), &[])
}
