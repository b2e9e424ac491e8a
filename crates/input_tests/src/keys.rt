//! Identities and ids as keys, registers that are the same, and short lists.

ghost use Rattle.std.specs.Prelude.{◌≡◌, true, bytes_eq};
ghost use Rattle.std.specs.BTreeMap as tree;
ghost use Rattle.hlr_types.specs.Orders.{octets_cmp};

use hlr_types::{Digits, Imsi, IsdnAddress, Lmsi, Register, ShortList, TbcdFault, Tid};
use std::alloc::Global;
use std::collections::BTreeMap;

/// Identities are compared, and looked up, by their octets.
fn same_imsi(left: &Imsi, right: &Imsi) -> bool
    ensures { result ≡ bytes_eq left.now right.now }
{
    left == right
}

fn same_register(left: &Register, right: &Register) -> bool
    ensures { result ≡ true → bytes_eq left.now.vlr right.now.vlr ≡ true }
{
    left == right
}

fn value_of(map: &BTreeMap<Imsi, u8>, imsi: &Imsi) -> Option<u8>
    ensures { result ≡ tree.get octets_cmp map.now imsi.now }
{
    map.get(imsi).copied()
}

fn value_at(map: &BTreeMap<Tid, u8>, id: &Tid) -> Option<u8>
    ensures { result ≡ tree.get octets_cmp map.now id.now }
{
    map.get(id).copied()
}

fn imsi(text: &str) -> Option<Imsi> {
    Imsi::from_digits(Digits::from_text(text.as_bytes())?).ok()
}

/// An IMSI that is a key with the value 7, one that is looked up, and its value. Leading zeros count.
const SUBSCRIBERS: [(&str, &str, Option<u8>); 2] = [
    ("12345", "12345", Some(7)),
    ("12345", "012345", None),
];

/// Whether the value is found, and both keys are the same if there is one.
fn is_found(alloc: Global, key: &str, sought: &str, value: Option<u8>) -> Option<bool> {
    let mut subscribers = BTreeMap::new(alloc);
    subscribers.insert(imsi(key)?, 7).ok()?;
    let sought = imsi(sought)?;
    let is_same = same_imsi(&imsi(key)?, &sought);
    Some(value_of(&subscribers, &sought) == value && is_same == value.is_some())
}

#[test]
fn subscribers_as_keys(rt: HostRuntime) {
    for (key, sought, value) in &SUBSCRIBERS {
        let is_so = is_found(rt.alloc(), key, sought, *value);
        assert!(rt; is_so == Some(true), "{key} {sought}");
    }
}

/// An id that is a key with the value 8, one that is looked up, and its value.
const LOCAL_IDS: [(Tid, Tid, Option<u8>); 2] = [
    (Tid([0, 0, 0, 1]), Tid([0, 0, 0, 1]), Some(8)),
    (Tid([0, 0, 0, 1]), Tid([0, 0, 1, 0]), None),
];

fn is_id_found(alloc: Global, key: Tid, sought: Tid, value: Option<u8>) -> Option<bool> {
    let mut ids = BTreeMap::new(alloc);
    ids.insert(key, 8).ok()?;
    Some(value_at(&ids, &sought) == value)
}

#[test]
fn local_ids_as_keys(rt: HostRuntime) {
    for (key, sought, value) in &LOCAL_IDS {
        let is_so = is_id_found(rt.alloc(), *key, *sought, *value);
        assert!(rt; is_so == Some(true), "{sought:?}");
    }
}

/// The VLR number, the MSC number and the LMSI of a register.
type Numbers<'a> = (&'a str, &'a str, Option<Lmsi>);

const REGISTER: Numbers<'static> = ("447700900001", "447700900002", Some(Lmsi([1, 2, 3, 4])));

/// A register, and whether the one above is the same.
const OTHERS: [(Numbers<'static>, bool); 4] = [
    (REGISTER, true),
    (("447700900001", "447700900002", None), false),
    (
        ("447700900003", "447700900002", Some(Lmsi([1, 2, 3, 4]))),
        false,
    ),
    (
        ("447700900001", "447700900003", Some(Lmsi([1, 2, 3, 4]))),
        false,
    ),
];

fn address(text: &str) -> Option<IsdnAddress> {
    Some(IsdnAddress::new(Digits::from_text(text.as_bytes())?))
}

fn register(numbers: &Numbers) -> Option<Register> {
    let (vlr, msc, lmsi) = *numbers;
    Some(Register {
        vlr: address(vlr)?,
        msc: address(msc)?,
        lmsi,
    })
}

fn is_same_as(other: &Numbers) -> Option<bool> {
    Some(same_register(&register(&REGISTER)?, &register(other)?))
}

#[test]
fn registers(rt: HostRuntime) {
    for (other, wanted) in &OTHERS {
        assert!(rt; is_same_as(other) == Some(*wanted), "{other:?}");
    }
}

/// Whether a short list has what was appended.
fn has_both() -> bool {
    let mut list: ShortList<3> = ShortList::new();
    let was_empty = list.is_empty();
    list.push(7);
    list.push(8);
    was_empty && list.len() == 2 && list == ShortList::from_slice(&[7, 8])
}

/// Whether a digit's list is its number, and four digits are no IMSI.
fn are_numbers() -> Option<bool> {
    let one = Digits::from_text(b"1")?;
    let four = Digits::from_text(b"1234")?;
    let is_no_imsi = Imsi::from_digits(four) == Err(TbcdFault::BadCount);
    Some(is_no_imsi && one.list().as_slice() == [1].as_slice())
}

#[test]
fn short_lists(rt: HostRuntime) {
    assert!(rt; has_both() && are_numbers() == Some(true));
}
