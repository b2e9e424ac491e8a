//! The faults of records files, the codes of a field, and changes of a record.

use hex::decode;
use hlr_types::{Digits, Imsi, IsdnAddress, Register, Tid};
use records::{Records, RecordsFault, read_codes, read_records};
use std::alloc::Global;
use std::process::Abort;
use std::test::Fail;

/// A file, and its fault.
const FILES: [(&str, Option<RecordsFault>); 21] = [
    ("", Some(RecordsFault::BadLine(1))),
    (
        "HLR1 447700900100\n2341 447700900000 11,21 * -\n",
        Some(RecordsFault::BadLine(2)),
    ),
    (
        "HLR1 1\n12345 2 11 * -\n12345 2 11 * -\n",
        Some(RecordsFault::Twice(3)),
    ),
    (
        "HLR1 1\n12345 2 11 * -\n12346 2 11 * -\n",
        Some(RecordsFault::Twice(3)),
    ),
    (
        "HLR1 1\n12345 2 11 * -\n12345 2 11 * - \n",
        Some(RecordsFault::BadLine(3)),
    ),
    // Version 2: a withdrawn subscriber has no register. Six fields, and five in version 1.
    (
        "HLR2 447700900100\n234150000000002 447700900202 - * - w\n",
        None,
    ),
    (
        "HLR2 447700900100\n234150000000002 447700900202 - * 447700900011,447700900001,-,s w\n",
        Some(RecordsFault::BadLine(2)),
    ),
    (
        "HLR2 447700900100\n234150000000002 447700900202 - * -\n",
        Some(RecordsFault::BadLine(2)),
    ),
    (
        "HLR1 447700900100\n234150000000002 447700900202 - * - a\n",
        Some(RecordsFault::BadLine(2)),
    ),
    // Line ends, and the first line.
    ("HLR1 1", None),
    ("HLR1 1\n12345 2 - * -", None),
    ("HLR1 1\n\n", Some(RecordsFault::BadLine(2))),
    ("HLR1 1\r\n", Some(RecordsFault::BadLine(1))),
    ("HLR1 1\n12345 2 - * -\r\n", Some(RecordsFault::BadLine(2))),
    ("hlr1 1\n", Some(RecordsFault::BadLine(1))),
    ("HLR3 1\n", Some(RecordsFault::BadLine(1))),
    // Equal codes.
    (
        "HLR1 1\n12345 2 aa,AA * -\n",
        Some(RecordsFault::BadLine(2)),
    ),
    // 8 and 9 prefixes, 32 and 33 codes.
    ("HLR1 1\n12345 2 - 1,2,3,4,5,6,7,8 -\n", None),
    (
        "HLR1 1\n12345 2 - 1,2,3,4,5,6,7,8,9 -\n",
        Some(RecordsFault::BadLine(2)),
    ),
    (
        "HLR1 1\n12345 2 00,01,02,03,04,05,06,07,08,09,0a,0b,0c,0d,0e,0f,\
10,11,12,13,14,15,16,17,18,19,1a,1b,1c,1d,1e,1f * -\n",
        None,
    ),
    (
        "HLR1 1\n12345 2 00,01,02,03,04,05,06,07,08,09,0a,0b,0c,0d,0e,0f,\
10,11,12,13,14,15,16,17,18,19,1a,1b,1c,1d,1e,1f,20 * -\n",
        Some(RecordsFault::BadLine(2)),
    ),
];

/// The fault of a file. A file without one is none.
fn fault_of(alloc: Global, text: &str) -> Option<RecordsFault> {
    match read_records(alloc, text.as_bytes()) {
        Ok(_) => None,
        Err(fault) => Some(fault),
    }
}

fn check_files(rt: &impl Abort, alloc: Global, rows: &[(&str, Option<RecordsFault>)]) {
    for (text, fault) in rows {
        assert!(rt; fault_of(alloc, text) == *fault, "{text}");
    }
}

#[test]
fn faults_of_files(rt: HostRuntime) {
    check_files(&rt, rt.alloc(), &FILES);
}

/// A field, and the codes that it stands for, in hexadecimal digits.
const CODES: [(&str, Option<&str>); 6] = [
    ("aa,0B", Some("AA0B")),
    ("-", Some("")),
    ("aa,AA", None),
    ("", None),
    ("-,11", None),
    ("1,11", None),
];

/// Whether the field has these codes, or none.
fn has_codes(alloc: Global, field: &str, wanted: Option<&str>) -> Result<bool, Fail> {
    let codes = read_codes(field.as_bytes());
    match (codes, wanted) {
        (Some(codes), Some(wanted)) => Ok(codes.as_slice() == decode(alloc, wanted)?.as_slice()),
        (None, None) => Ok(true),
        _ => Ok(false),
    }
}

fn check_codes(rt: &impl Abort, alloc: Global, rows: &[(&str, Option<&str>)]) -> Result<(), Fail> {
    for (field, wanted) in rows {
        assert!(rt; has_codes(alloc, field, *wanted)?, "{field}");
    }
    Ok(())
}

#[test]
fn codes_of_fields(rt: HostRuntime) -> Result<(), Fail> {
    check_codes(&rt, rt.alloc(), &CODES)
}

const FOURTH: &str = "HLR1 447700900100\n234150000000004 447700900204 11 * -\n";

fn address(text: &str) -> Option<IsdnAddress> {
    Some(IsdnAddress::new(Digits::from_text(text.as_bytes())?))
}

/// Whether a record that is there has this register and is purged once it is placed so.
fn is_placed(part: &mut Records, key: &Imsi, serving: Register) -> bool {
    let is_active = part.get(key).map_or(false, |found| !found.withdrawn);
    if !is_active {
        return false;
    }
    part.set(key, Some(serving), true, Some(Tid([4, 0, 0, 1])));
    part.get(key).map_or(false, |found| {
        found.register == Some(serving) && found.purged && found.current == Some(Tid([4, 0, 0, 1]))
    })
}

/// Places a record in a copy, and says whether that alone is changed.
fn is_placed_in_copy(part: &Records) -> Option<bool> {
    let key = Imsi::from_digits(Digits::from_text(b"234150000000004")?).ok()?;
    let serving = Register {
        vlr: address("447700900012")?,
        msc: address("447700900002")?,
        lmsi: None,
    };
    let mut copy = part.try_copy().ok()?;
    let is_placed = is_placed(&mut copy, &key, serving);
    Some(is_placed && part.get(&key)?.register == None)
}

#[test]
fn changes(rt: HostRuntime) -> Result<(), Fail> {
    let part = read_records(rt.alloc(), FOURTH.as_bytes())?.part(4)?;
    assert!(rt; is_placed_in_copy(&part) == Some(true));
    Ok(())
}
