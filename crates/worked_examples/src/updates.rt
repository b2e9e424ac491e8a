//! updateLocation and purgeMS (TS 29.002, 8.1.2 and 8.1.6; TS 23.012) that are answered at once.

use crate::portions::{AARE, AARQ, ACCEPTED, LOCATION, NOT_SUPPORTED, PURGING};
use crate::routes::{ROUTE, error, request, to_gateway};
use crate::run::{Frame, RECORDS, WITH_WORKERS, answers, answers_with};
use std::process::Abort;
use std::sync::Wait;
use std::test::Fail;
use std::thread::Threads;

pub const BEGIN: &str = "62 4E 48 04 00 00 00 0B";

/// An Invoke of updateLocation up to the last octet of the IMSI.
pub const UPDATE: &str = "6C 26 A1 24 02 01 01 02 01 02 30 1C 04 08 32 14 05 00 00 00 00";

/// The numbers of the MSC and of the VLR.
pub const NUMBERS: &str = "81 07 91 44 77 00 09 00 20 04 07 91 44 77 00 09 00 21";

/// A frame between the register and a VLR.
pub fn at<'a>(address: &'a str, parts: &'a [&'a str]) -> Frame<'a> {
    Frame { address, parts }
}

/// One frame from a VLR, and the answer to it.
fn answered<'a>(
    rt: &(impl Abort + Threads + Wait + Sync + AllocGlobal),
    received: &'a [&'a str],
    sent: &'a [&'a str],
) -> Result<(), Fail> {
    let vlr = "447700900012";
    answers(rt, RECORDS, &[at(vlr, received)], &[at(vlr, sent)])
}

/// A context of version 2, an unknown one, no dialogue portion, and a Begin without components.
#[test]
fn refused_contexts(rt: HostRuntime) -> Result<(), Fail> {
    for context in ["01 02", "05 03"] {
        let answered_in = if context == "01 02" {
            LOCATION
        } else {
            context
        };
        answered(
            &rt,
            &[BEGIN, AARQ, context, UPDATE, "F1", NUMBERS],
            &["67 32 49 04 00 00 00 0B", AARE, answered_in, NOT_SUPPORTED],
        )?;
    }
    let refused = "67 06 49 04 00 00 00 0B";
    answered(
        &rt,
        &["62 2E 48 04 00 00 00 0B", UPDATE, "F1", NUMBERS],
        &[refused],
    )?;
    answered(
        &rt,
        &["62 26 48 04 00 00 00 0B", AARQ, LOCATION],
        &[refused],
    )
}

/// No parameter, an IMSI of two octets, roaming not allowed, and another operation.
#[test]
fn refused_updates(rt: HostRuntime) -> Result<(), Fail> {
    let end = "64 3C 49 04 00 00 00 0B";
    answered(
        &rt,
        &[
            "62 30 48 04 00 00 00 0B",
            AARQ,
            LOCATION,
            "6C 08 A1 06 02 01 01 02 01 02",
        ],
        &[
            end,
            AARE,
            LOCATION,
            ACCEPTED,
            "6C 08 A4 06 02 01 01 81 01 02",
        ],
    )?;
    answered(
        &rt,
        &[
            "62 48 48 04 00 00 00 0B",
            AARQ,
            LOCATION,
            "6C 20 A1 1E 02 01 01 02 01 02 30 16 04 02 32 14",
            NUMBERS,
        ],
        &[
            end,
            AARE,
            LOCATION,
            ACCEPTED,
            "6C 08 A3 06 02 01 01 02 01 24",
        ],
    )?;
    answered(
        &rt,
        &[BEGIN, AARQ, LOCATION, UPDATE, "F3", NUMBERS],
        &[
            "64 41 49 04 00 00 00 0B",
            AARE,
            LOCATION,
            ACCEPTED,
            "6C 0D A3 0B 02 01 01 02 01 08 30 03 0A 01 00",
        ],
    )?;
    let operation_3 = "6C 26 A1 24 02 01 01 02 01 03 30 1C 04 08 32 14 05 00 00 00 00 F1";
    answered(
        &rt,
        &[BEGIN, AARQ, LOCATION, operation_3, NUMBERS],
        &[
            end,
            AARE,
            LOCATION,
            ACCEPTED,
            "6C 08 A4 06 02 01 01 81 01 01",
        ],
    )
}

/// The Invoke of a purge up to the octets of the VLR's number that differ between VLRs.
const PURGE: [&str; 4] = [
    "62 45 48 04 00 00 00 0C",
    AARQ,
    PURGING,
    "6C 1D A1 1B 02 01 01 02 01 43 A3 13 04 08 32 14 05 00 00 00 00 F1 80 07 91 44 77 00 09",
];

/// The serving VLR purges, and there is no route; another purges, and the route stays; a purge names no VLR.
#[test]
fn purge(rt: HostRuntime) -> Result<(), Fail> {
    let [begin, portion, context, invoke] = PURGE;
    let route_asked = request("09 00 00");
    let serving = "447700900011";
    for words in WITH_WORKERS {
        answers_with(
            &rt,
            words,
            RECORDS,
            &[
                at(serving, &[begin, portion, context, invoke, "00 11"]),
                to_gateway(&route_asked),
            ],
            &[
                at(
                    serving,
                    &[
                        "64 42 49 04 00 00 00 0C",
                        AARE,
                        PURGING,
                        ACCEPTED,
                        "6C 0E A2 0C 02 01 01 30 07 02 01 43 30 02 80 00",
                    ],
                ),
                to_gateway(&error("06")),
            ],
        )?;
    }
    let other = "447700900021";
    answers(
        &rt,
        RECORDS,
        &[
            at(other, &[begin, portion, context, invoke, "00 21"]),
            to_gateway(&route_asked),
        ],
        &[
            at(
                other,
                &[
                    "64 39 49 04 00 00 00 0C",
                    AARE,
                    PURGING,
                    ACCEPTED,
                    "6C 05 A2 03 02 01 01",
                ],
            ),
            to_gateway(&ROUTE),
        ],
    )?;
    answered(
        &rt,
        &[
            "62 3C 48 04 00 00 00 0C",
            AARQ,
            PURGING,
            "6C 14 A1 12 02 01 01 02 01 43 A3 0A 04 08 32 14 05 00 00 00 00 F1",
        ],
        &[
            "64 3C 49 04 00 00 00 0C",
            AARE,
            PURGING,
            ACCEPTED,
            "6C 08 A3 06 02 01 01 02 01 23",
        ],
    )
}
