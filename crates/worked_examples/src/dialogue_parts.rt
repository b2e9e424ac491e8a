//! The frames of updates, cancels and new subscriber data (TS 29.002, 8.1.2, 8.1.3 and 8.8.1), in parts.

use crate::portions::{AARE, AARQ, ACCEPTED, LOCATION};
use crate::run::{Frame, Line};
use crate::updates::{BEGIN, NUMBERS, UPDATE};

/// The VLR that serves the first subscriber at first, and two others.
pub const A: &str = "447700900011";

pub const B: &str = "447700900012";

pub const C: &str = "447700900013";

/// The numbers of the third VLR and of its MSC.
const NUMBERS_OF_C: &str = "81 07 91 44 77 00 09 00 30 04 07 91 44 77 00 09 00 31";

/// The Begin of an update of the first subscriber at B, and at C, and of the second at B.
pub const UPDATE_AT_B: [&str; 6] = [BEGIN, AARQ, LOCATION, UPDATE, "F1", NUMBERS];

pub const UPDATE_AT_C: [&str; 6] = [BEGIN, AARQ, LOCATION, UPDATE, "F1", NUMBERS_OF_C];

pub const SECOND_UPDATE: [&str; 6] = [BEGIN, AARQ, LOCATION, UPDATE, "F2", NUMBERS];

/// The Continue with the data of the first subscriber, around the local id.
const DATA: [&str; 6] = [
    "65 58 48 04",
    "49 04 00 00 00 0B",
    AARE,
    LOCATION,
    ACCEPTED,
    "6C 1E A1 1C 02 01 01 02 01 07 30 14 81 07 91 44 77 00 09 00 00 83 01 00 A6 06 04 01 11 04 01 21",
];

/// The same of the second, whose nine codes take two inserts.
const SECOND_DATA: [&str; 6] = [
    "65 79 48 04",
    "49 04 00 00 00 0B",
    AARE,
    LOCATION,
    ACCEPTED,
    "6C 3F A1 2E 02 01 01 02 01 07 30 26 81 07 91 44 77 00 09 20 20 83 01 00 A6 18 04 01 11 04 01 12 04 01 20 04 01 21 04 01 22 04 01 61 04 01 62 04 01 91 A1 0D 02 01 02 02 01 07 30 05 A6 03 04 01 92",
];

/// The End of an update that completed, and of one that failed: systemFailure.
pub const UPDATED: [&str; 1] = [
    "64 1D 49 04 00 00 00 0B 6C 15 A2 13 02 01 01 30 0E 02 01 02 30 09 04 07 91 44 77 00 09 10 00",
];

pub const FAILED: [&str; 1] = ["64 10 49 04 00 00 00 0B 6C 08 A3 06 02 01 01 02 01 22"];

fn around<'a>(id: &'a str, parts: [&'a str; 6]) -> [&'a str; 7] {
    let [begin, own, portion, context, accepted, data] = parts;
    [begin, id, own, portion, context, accepted, data]
}

/// The data of the first subscriber, in the dialogue with this id.
pub fn data<'a>(id: &'a str) -> [&'a str; 7] {
    around(id, DATA)
}

pub fn second_data<'a>(id: &'a str) -> [&'a str; 7] {
    around(id, SECOND_DATA)
}

/// A Continue from a VLR for the dialogue with this id: its length, and its components.
pub fn continued<'a>(length: &'a str, id: &'a str, components: &'a str) -> [&'a str; 6] {
    [
        "65",
        length,
        "48 04 00 00 00 0B 49 04",
        id,
        "6C",
        components,
    ]
}

/// The same with the last result of this insert.
pub fn result_of<'a>(insert: &'a str, id: &'a str) -> [&'a str; 5] {
    [
        "65 13 48 04 00 00 00 0B 49 04",
        id,
        "6C 05 A2 03 02 01",
        insert,
        "",
    ]
}

/// The Continue that rejects a component: its components.
pub fn rejected<'a>(id: &'a str, components: &'a str) -> [&'a str; 4] {
    [
        "65 16 48 04",
        id,
        "49 04 00 00 00 0B 6C 08 A4 06",
        components,
    ]
}

/// The Begin of a cancel of the first subscriber, for an update or a withdrawal.
pub fn cancel<'a>(id: &'a str, why: &'a str) -> [&'a str; 6] {
    [
        "62 3F 48 04",
        id,
        AARQ,
        "02 03",
        "6C 17 A1 15 02 01 01 02 01 03 A3 0D 04 08 32 14 05 00 00 00 00 F1 0A 01",
        why,
    ]
}

/// Its End, with its last result.
pub fn cancelled<'a>(id: &'a str) -> [&'a str; 3] {
    ["64 0D 49 04", id, "6C 05 A2 03 02 01 01"]
}

/// A frame from a VLR.
pub fn from<'a>(address: &'a str, parts: &'a [&'a str]) -> Line<'a> {
    Line::Received(Frame { address, parts })
}
