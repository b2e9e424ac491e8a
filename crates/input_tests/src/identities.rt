//! Digits, identities, addresses and ids: known octets, texts and orders. Octets are given in hexadecimal digits.

use hex::decode;
use hlr_types::{
    Digits, Imsi, IsdnAddress, Lmsi, Peer, RemoteId, TbcdFault, Tid, tbcd_read, tbcd_write,
};
use std::alloc::Global;
use std::collections::BTreeMap;
use std::fmt::Display;
use std::process::Abort;
use std::test::Fail;

/// What digits or octets are read as.
#[derive(Clone, Copy, Debug)]
enum Kind {
    Digits,
    Imsi,
    Address,
    Peer,
    Lmsi,
    LocalId,
    RemoteId,
}

fn digits(text: &str) -> Option<Digits> {
    Digits::from_text(text.as_bytes())
}

fn imsi(text: &str) -> Option<Imsi> {
    Imsi::from_digits(digits(text)?).ok()
}

fn address(text: &str) -> Option<IsdnAddress> {
    Some(IsdnAddress::new(digits(text)?))
}

fn peer(text: &str) -> Option<Peer> {
    Some(Peer::new(digits(text)?))
}

/// Octets, the digits that they are read as (none if they are not read), and the octets that the digits are written as.
const READINGS: [(Kind, &str, &str, &str); 11] = [
    (Kind::Digits, "F1", "1", "F1"),
    (Kind::Digits, "2143F5", "12345", "2143F5"),
    (
        Kind::Digits,
        "1032547698103254",
        "0123456789012345",
        "1032547698103254",
    ),
    (
        Kind::Imsi,
        "32140500000000F1",
        "234150000000001",
        "32140500000000F1",
    ),
    // Four digits, and sixteen.
    (Kind::Imsi, "2143", "", ""),
    (Kind::Imsi, "1111111111111111", "", ""),
    (
        Kind::Address,
        "91447700090000",
        "447700900000",
        "91447700090000",
    ),
    // The first octet is not kept.
    (
        Kind::Address,
        "A1447700090000",
        "447700900000",
        "91447700090000",
    ),
    // An extension, no digits, nothing.
    (Kind::Address, "1144", "", ""),
    (Kind::Address, "91", "", ""),
    (Kind::Address, "", "", ""),
];

/// Whether the octets are read as digits of this text, and these are written so.
fn are_digits(octets: &[u8], text: &str, written: &[u8]) -> bool {
    match digits(text) {
        Some(digits) => {
            tbcd_read(octets) == Ok(digits)
                && tbcd_write(&digits).as_slice() == written
                && digits.text().as_slice() == text.as_bytes()
        }
        None => tbcd_read(octets).is_err(),
    }
}

/// Whether the octets are read as the IMSI of this text, and it is written so.
fn is_imsi(octets: &[u8], text: &str, written: &[u8]) -> bool {
    match imsi(text) {
        Some(imsi) => Imsi::read(octets) == Some(imsi) && imsi.octets().as_slice() == written,
        None => Imsi::read(octets) == None,
    }
}

/// Whether the octets are read as the address of this text, and it is written so.
fn is_address(octets: &[u8], text: &str, written: &[u8]) -> bool {
    match address(text) {
        Some(address) => {
            IsdnAddress::read(octets) == Some(address)
                && address.octets().as_slice() == written
                && Peer::new(*address.digits()).digits() == address.digits()
        }
        None => IsdnAddress::read(octets) == None,
    }
}

fn check_readings(
    rt: &impl Abort,
    alloc: Global,
    rows: &[(Kind, &str, &str, &str)],
) -> Result<(), Fail> {
    for (kind, given, text, written) in rows {
        let (octets, written) = (decode(alloc, given)?, decode(alloc, written)?);
        let is_so = match kind {
            Kind::Digits => are_digits(&octets, text, &written),
            Kind::Imsi => is_imsi(&octets, text, &written),
            Kind::Address => is_address(&octets, text, &written),
            _ => false,
        };
        assert!(rt; is_so, "{kind:?} {given}");
    }
    Ok(())
}

#[test]
fn octets_of_digits(rt: HostRuntime) -> Result<(), Fail> {
    check_readings(&rt, rt.alloc(), &READINGS)
}

/// Octets that are not digits: the fault, and how it is printed.
const FAULTS: [(&str, TbcdFault, &str); 6] = [
    // The count comes first.
    ("", TbcdFault::BadCount, "too few or too many digits"),
    (
        "111111111111111111",
        TbcdFault::BadCount,
        "too few or too many digits",
    ),
    (
        "FFFFFFFFFFFFFFFFFF",
        TbcdFault::BadCount,
        "too few or too many digits",
    ),
    // A filler before the end, one in the low half, a star.
    (
        "32F401",
        TbcdFault::BadDigit,
        "a half octet is no digit from 0 to 9",
    ),
    (
        "1F",
        TbcdFault::BadDigit,
        "a half octet is no digit from 0 to 9",
    ),
    (
        "A1",
        TbcdFault::BadDigit,
        "a half octet is no digit from 0 to 9",
    ),
];

fn printed<D: Display>(alloc: Global, value: &D) -> Result<String, Fail> {
    Ok(format!(in alloc; "{value}")?)
}

fn check_faults(
    rt: &impl Abort,
    alloc: Global,
    rows: &[(&str, TbcdFault, &str)],
) -> Result<(), Fail> {
    for (given, fault, text) in rows {
        let read = tbcd_read(&decode(alloc, given)?);
        let is_so = read == Err(*fault) && printed(alloc, fault)?.as_str() == *text;
        assert!(rt; is_so, "{given}");
    }
    Ok(())
}

#[test]
fn octets_that_are_no_digits(rt: HostRuntime) -> Result<(), Fail> {
    check_faults(&rt, rt.alloc(), &FAULTS)
}

/// Octets, and whether they are an id of this kind.
const IDS: [(Kind, &str, bool); 9] = [
    (Kind::Lmsi, "01020304", true),
    (Kind::Lmsi, "010203", false),
    (Kind::Lmsi, "0102030405", false),
    (Kind::LocalId, "0B010203", true),
    (Kind::LocalId, "010203", false),
    (Kind::RemoteId, "0001", true),
    (Kind::RemoteId, "01020304", true),
    (Kind::RemoteId, "", false),
    (Kind::RemoteId, "0101010101", false),
];

/// Whether octets are read as an LMSI, which is those octets.
fn is_lmsi(octets: &[u8]) -> bool {
    match (Lmsi::read(octets), octets) {
        (Some(lmsi), [a, b, c, d]) => lmsi == Lmsi([*a, *b, *c, *d]) && lmsi.as_slice() == octets,
        (found, _) => found.is_some(),
    }
}

/// Whether octets are read as a local id, which is those octets and has their number.
fn is_local_id(octets: &[u8]) -> bool {
    match (Tid::read(octets), octets) {
        (Some(id), [a, b, c, d]) => id == Tid([*a, *b, *c, *d]) && id.as_slice() == octets,
        (found, _) => found.is_some(),
    }
}

/// Whether octets are read as a remote id, which is those octets.
fn is_remote_id(octets: &[u8]) -> bool {
    match RemoteId::read(octets) {
        Some(id) => id.as_slice() == octets,
        None => false,
    }
}

fn check_ids(rt: &impl Abort, alloc: Global, rows: &[(Kind, &str, bool)]) -> Result<(), Fail> {
    for (kind, given, wanted) in rows {
        let octets = decode(alloc, given)?;
        let is_id = match kind {
            Kind::Lmsi => is_lmsi(&octets),
            Kind::LocalId => is_local_id(&octets),
            _ => is_remote_id(&octets),
        };
        assert!(rt; is_id == *wanted, "{kind:?} {given}");
    }
    Ok(())
}

#[test]
fn octets_of_ids(rt: HostRuntime) -> Result<(), Fail> {
    check_ids(&rt, rt.alloc(), &IDS)
}

/// A shard, a number in it, and the local id of both.
const NUMBERS: [(u8, u32, Tid); 2] = [
    (11, 0x01_02_03, Tid([11, 1, 2, 3])),
    (15, 0xFF_FF_FF, Tid([15, 0xFF, 0xFF, 0xFF])),
];

fn is_numbered(shard: u8, number: u32, id: Tid) -> bool {
    number < 0x01_00_00_00
        && Tid::new(shard, number) == id
        && id.shard() == shard
        && id.number() == number
}

#[test]
fn numbers_of_ids(rt: HostRuntime) {
    for (shard, number, id) in &NUMBERS {
        assert!(rt; is_numbered(*shard, *number, *id), "{id:?}");
    }
}

/// Two values, the first of which is the greater.
const ORDERS: [(Kind, &str, &str); 7] = [
    (Kind::Digits, "2", "12"),
    (Kind::Imsi, "22222", "123456"),
    (Kind::Address, "2", "12"),
    (Kind::Peer, "120", "12"),
    (Kind::LocalId, "02000000", "01000009"),
    (Kind::RemoteId, "0100", "01"),
    // The octets count, not their number.
    (Kind::RemoteId, "01", "0001"),
];

/// Whether two keys are different, and a map has the second before the first.
fn is_behind<K: Ord + Drop>(alloc: Global, first: K, second: K) -> Option<bool> {
    if first == second {
        return Some(false);
    }
    let mut map = BTreeMap::new(alloc);
    map.insert(first, 1u8).ok()?;
    map.insert(second, 2u8).ok()?;
    Some(map.values().next() == Some(&2u8))
}

fn are_behind(alloc: Global, kind: Kind, first: &str, second: &str) -> Option<bool> {
    match kind {
        Kind::Digits => is_behind(alloc, digits(first)?, digits(second)?),
        Kind::Imsi => is_behind(alloc, imsi(first)?, imsi(second)?),
        Kind::Address => is_behind(alloc, address(first)?, address(second)?),
        Kind::Peer => is_behind(alloc, peer(first)?, peer(second)?),
        _ => are_ids_behind(alloc, kind, first, second),
    }
}

fn are_ids_behind(alloc: Global, kind: Kind, first: &str, second: &str) -> Option<bool> {
    let first = decode(alloc, first).ok()?;
    let second = decode(alloc, second).ok()?;
    match kind {
        Kind::LocalId => is_behind(alloc, Tid::read(&first)?, Tid::read(&second)?),
        _ => is_behind(alloc, RemoteId::read(&first)?, RemoteId::read(&second)?),
    }
}

#[test]
fn orders(rt: HostRuntime) {
    for (kind, first, second) in &ORDERS {
        let is_so = are_behind(rt.alloc(), *kind, first, second);
        assert!(rt; is_so == Some(true), "{kind:?} {first} {second}");
    }
}

/// How a text of digits is printed, none if it is not read.
const TEXTS: [(Kind, &str, &str); 8] = [
    (Kind::Digits, "0123456789", "0123456789"),
    (Kind::Imsi, "0123456789", "0123456789"),
    (Kind::Address, "0123456789", "0123456789"),
    (Kind::Peer, "0123456789", "0123456789"),
    (Kind::Digits, "12a", "none"),
    (Kind::Digits, "", "none"),
    // Seventeen digits.
    (Kind::Digits, "01234567890123456", "none"),
    // An IMSI has at least five.
    (Kind::Imsi, "1234", "none"),
];

fn printed_or_none<D: Display + Drop>(alloc: Global, value: Option<D>) -> Result<String, Fail> {
    match value {
        Some(value) => printed(alloc, &value),
        None => Ok(String::from_str(alloc, "none")?),
    }
}

fn text_of(alloc: Global, kind: Kind, text: &str) -> Result<String, Fail> {
    match kind {
        Kind::Digits => printed_or_none(alloc, digits(text)),
        Kind::Imsi => printed_or_none(alloc, imsi(text)),
        Kind::Address => printed_or_none(alloc, address(text)),
        _ => printed_or_none(alloc, peer(text)),
    }
}

fn check_texts(rt: &impl Abort, alloc: Global, rows: &[(Kind, &str, &str)]) -> Result<(), Fail> {
    for (kind, given, wanted) in rows {
        let text = text_of(alloc, *kind, given)?;
        assert!(rt; text.as_str() == *wanted, "{kind:?} {given}");
    }
    Ok(())
}

#[test]
fn texts(rt: HostRuntime) -> Result<(), Fail> {
    check_texts(&rt, rt.alloc(), &TEXTS)
}

/// Texts, the digits in front of a space (none if there are no such), and what comes after it.
const FRONTS: [(&str, &str, &str); 7] = [
    ("0123456789 00 1", "0123456789", "00 1"),
    // Sixteen digits, seventeen, none.
    ("0123456789012345 ", "0123456789012345", ""),
    ("01234567890123456 00", "", ""),
    (" 00", "", ""),
    // Another character, and no character, after the digits.
    ("12-00", "", ""),
    ("12a 00", "", ""),
    ("12", "", ""),
];

/// Whether the text begins with these digits and a space, and this comes after it.
fn has_front(text: &str, front: &str, behind: &str) -> bool {
    match Digits::from_front(text.as_bytes(), b' ') {
        Some((found, rest)) => digits(front) == Some(found) && rest == behind.as_bytes(),
        None => front.is_empty(),
    }
}

#[test]
fn fronts(rt: HostRuntime) {
    for (text, front, behind) in &FRONTS {
        assert!(rt; has_front(text, front, behind), "{text}");
    }
}
