//! The arguments and results of the location procedures (3GPP TS 29.002, 17.7): octets from outside
//! sources, and each place of an argument broken in turn.

use crate::given::{imsi, number};
use crate::tables::{check, is_written, octets};
use crate::told::{purge, update};
use bertree::read_tree;
use berwrite::{OwnTree, write_tree};
use bumpalo::Bump;
use mapargs_loc::{
    CancellationType, cancel_arg, insert_arg, purge_result, read_purge, read_update,
    roaming_not_allowed, update_result,
};
use std::process::Abort;
use std::test::Fail;

/// Arguments of updateLocation.
const UPDATES: &str = "
- an update
  | 30 1C 04 08 32 14 05 00 00 00 00 F1 81 07 91 44 77 00 09 00 20 04 07 91 44 77 00 09 00 21
  | update 234150000000001 447700900012 447700900002 -
- the nature of a number is not kept
  | 30 1C 04 08 32 14 05 00 00 00 00 F1 81 07 91 44 77 00 09 00 10 04 07 A1 44 77 00 09 00 11
  | update 234150000000001 447700900011 447700900001 -
- no lmsi | 3080 04032143F5 810291F1 040291F2 0000 | update 12345 2 1 -
- an lmsi | 3080 04032143F5 810291F1 040291F2 8A0401020304 0000 | update 12345 2 1 01020304
- a second lmsi is further
  | 3080 04032143F5 810291F1 040291F2 8A0401020304 8A00 0000 | update 12345 2 1 01020304
- a constructed lmsi | 3080 04032143F5 810291F1 040291F2 AA0404020304 0000 | update 12345 2 1 -
- an lmsi behind a further element
  | 3080 04032143F5 810291F1 040291F2 0500 8A0401020304 0000 | update 12345 2 1 -
- an imsi of two octets
  | 30 0C 04 02 32 14 81 02 91 F1 04 02 91 F2 | an identity or a number that is none
- an msc-Number of no octet
  | 30 0B 04 03 21 43 F5 81 00 04 02 91 F2 | an identity or a number that is none
- an msc-Number with a digit that is none
  | 30 0D 04 03 21 43 F5 81 02 91 FA 04 02 91 F2 | an identity or a number that is none
- a vlr-Number whose first octet says that another follows
  | 30 0D 04 03 21 43 F5 81 02 91 F1 04 02 11 F2 | an identity or a number that is none
- an lmsi of three octets
  | 30 12 04 03 21 43 F5 81 02 91 F1 04 02 91 F2 8A 03 01 02 03 | an identity or a number that is none
- an lmsi of five octets
  | 30 14 04 03 21 43 F5 81 02 91 F1 04 02 91 F2 8A 05 01 02 03 04 05
  | an identity or a number that is none
- another tag | A3 0D 04 03 21 43 F5 81 02 91 F1 04 02 91 F2 | not of the operation's type
- a primitive one | 10 0D 04 03 21 43 F5 81 02 91 F1 04 02 91 F2 | not of the operation's type
- an empty one | 30 00 | not of the operation's type
- no imsi | 30 08 81 02 91 F1 04 02 91 F2 | not of the operation's type
- no msc-Number | 30 09 04 03 21 43 F5 04 02 91 F2 | not of the operation's type
- no vlr-Number | 30 09 04 03 21 43 F5 81 02 91 F1 | not of the operation's type
- two imsis
  | 30 12 04 03 21 43 F5 04 03 21 43 F5 81 02 91 F1 04 02 91 F2 | not of the operation's type
- two msc-Numbers
  | 30 11 04 03 21 43 F5 81 02 91 F1 81 02 91 F1 04 02 91 F2 | not of the operation's type
- a constructed imsi | 30 0A 24 00 81 02 91 F1 04 02 91 F2 | not of the operation's type
- a constructed msc-Number | 30 0B 04 03 21 43 F5 A1 00 04 02 91 F2 | not of the operation's type
- an imsi of two octets and a constructed vlr-Number: the type is looked at before the values
  | 30 0A 04 02 32 14 81 02 91 F1 24 00 | not of the operation's type
";

#[test]
fn updates_are_read(rt: HostRuntime) -> Result<(), Fail> {
    check(&rt, UPDATES, |alloc, text| {
        let bump = Bump::new(alloc);
        let octets = octets(alloc, text)?;
        Ok(match read_update(&read_tree(&bump, &octets)?) {
            Ok(argument) => update(alloc, &argument),
            Err(fault) => format!(in alloc; "{fault}"),
        }?)
    })
}

/// Arguments of purgeMS.
const PURGES: &str = "
- a purge
  | A3 13 04 08 32 14 05 00 00 00 00 F1 80 07 91 44 77 00 09 00 11 | purge 234150000000001 447700900011
- no vlr-Number | A3 05 04 03 21 43 F5 | purge 12345 -
- a constructed vlr-Number is a further element | A3 07 04 03 21 43 F5 A0 00 | purge 12345 -
- a vlr-Number behind the sgsn-Number is one
  | A3 0D 04 03 21 43 F5 81 02 91 F3 80 02 91 F2 | purge 12345 -
- an sgsn-Number alone | A3 07 04 03 21 43 F5 81 00 | purge 12345 -
- another tag | 30 05 04 03 21 43 F5 | not of the operation's type
- a primitive one | 83 05 04 03 21 43 F5 | not of the operation's type
- an empty one | A3 00 | not of the operation's type
- a constructed imsi | A3 02 24 00 | not of the operation's type
- the vlr-Number first | A3 06 80 02 91 F2 04 00 | not of the operation's type
- an imsi of two octets | A3 04 04 02 32 14 | an identity or a number that is none
- a vlr-Number without a digit
  | A3 08 04 03 21 43 F5 80 01 91 | an identity or a number that is none
- two vlr-Numbers: the first is the one that is read
  | A3 0B 04 03 21 43 F5 80 00 80 02 91 F2 | an identity or a number that is none
";

#[test]
fn purges_are_read(rt: HostRuntime) -> Result<(), Fail> {
    check(&rt, PURGES, |alloc, text| {
        let bump = Bump::new(alloc);
        let octets = octets(alloc, text)?;
        Ok(match read_purge(&read_tree(&bump, &octets)?) {
            Ok(argument) => purge(alloc, &argument),
            Err(fault) => format!(in alloc; "{fault}"),
        }?)
    })
}

/// Arguments of insertSubscriberData: the imsi and the msisdn, if present, the codes, and the octets.
const INSERTS: [(Option<&str>, Option<&str>, &[u8], &str); 5] = [
    (
        None,
        Some("447700900202"),
        &[0x11, 0x12, 0x20, 0x21, 0x22, 0x61, 0x62, 0x91],
        "30 26 81 07 91 44 77 00 09 20 20 83 01 00 A6 18 04 01 11 04 01 12 04 01 20 04 01 21 04 01 22
         04 01 61 04 01 62 04 01 91",
    ),
    (None, None, &[0x92], "30 05 A6 03 04 01 92"),
    (
        None,
        Some("447700900000"),
        &[0x11, 0x21],
        "30 14 81 07 91 44 77 00 09 00 00 83 01 00 A6 06 04 01 11 04 01 21",
    ),
    (None, None, &[], "30 00"),
    // changed codes are written with the imsi
    (
        Some("234150000000001"),
        Some("447700900000"),
        &[0x11, 0x22],
        "30 1E 80 08 32 14 05 00 00 00 00 F1 81 07 91 44 77 00 09 00 00 83 01 00 A6 06 04 01 11 04 01 22",
    ),
];

/// The tree is sent with these octets.
fn is_sent(rt: &(impl Abort + AllocGlobal), tree: &OwnTree, text: &str) -> Result<(), Fail> {
    is_written(rt, &write_tree(rt.alloc(), tree)?, text)
}

#[test]
fn inserts_are_written(rt: HostRuntime) -> Result<(), Fail> {
    for (subscriber, msisdn, codes, text) in INSERTS {
        let subscriber = subscriber.and_then(imsi);
        let msisdn = msisdn.and_then(number);
        let bump = Bump::new(rt.alloc());
        let insert = insert_arg(&bump, subscriber.as_ref(), msisdn.as_ref(), codes)?;
        is_sent(&rt, &insert, text)?;
    }
    Ok(())
}

/// Arguments of cancelLocation for 234150000000001.
const CANCELS: [(CancellationType, &str); 2] = [
    (
        CancellationType::UpdateProcedure,
        "A3 0D 04 08 32 14 05 00 00 00 00 F1 0A 01 00",
    ),
    (
        CancellationType::SubscriptionWithdraw,
        "A3 0D 04 08 32 14 05 00 00 00 00 F1 0A 01 01",
    ),
];

#[test]
fn cancels_are_written(rt: HostRuntime) -> Result<(), Fail> {
    let subscriber = imsi("234150000000001").ok_or("an imsi")?;
    for (why, text) in CANCELS {
        let bump = Bump::new(rt.alloc());
        is_sent(&rt, &cancel_arg(&bump, &subscriber, why)?, text)?;
    }
    Ok(())
}

#[test]
fn answers_are_written(rt: HostRuntime) -> Result<(), Fail> {
    let bump = Bump::new(rt.alloc());
    let hlr = number("447700900100").ok_or("a number")?;
    is_sent(
        &rt,
        &update_result(&bump, &hlr)?,
        "30 09 04 07 91 44 77 00 09 10 00",
    )?;
    is_sent(&rt, &purge_result(&bump)?, "30 02 80 00")?;
    is_sent(&rt, &roaming_not_allowed(&bump)?, "30 03 0A 01 00")
}
