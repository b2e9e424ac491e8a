//! The argument and the result of sendRoutingInfoForSM (3GPP TS 29.002, 17.7): octets from outside sources,
//! and each place of the argument broken in turn.

use crate::given::{imsi, number};
use crate::tables::{check, is_written, octets};
use bertree::read_tree;
use berwrite::write_tree;
use bumpalo::Bump;
use hlr_types::Lmsi;
use mapargs_sm::{read_route, route_result};
use std::test::Fail;

/// Arguments of sendRoutingInfoForSM.
const ROUTES: &str = "
- a route
  | 30 15 80 07 91 44 77 00 09 00 00 81 01 FF 82 07 91 44 77 00 09 99 99 | 447700900000
- the second form of the BOOLEAN, and an empty serviceCentreAddress
  | 30 09 80 02 91 F1 81 01 00 82 00 | 1
- another nature of the number, and a further element
  | 30 0B 80 02 A1 F1 81 01 00 82 00 05 00 | 1
- a second serviceCentreAddress is further | 30 0B 80 02 91 F1 81 01 00 82 00 82 00 | 1
- another tag | A3 09 80 02 91 F1 81 01 00 82 00 | not of the operation's type
- a primitive one | 10 09 80 02 91 F1 81 01 00 82 00 | not of the operation's type
- an empty one | 30 00 | not of the operation's type
- no msisdn | 30 05 81 01 00 82 00 | not of the operation's type
- no sm-RP-PRI | 30 06 80 02 91 F1 82 00 | not of the operation's type
- no serviceCentreAddress | 30 07 80 02 91 F1 81 01 00 | not of the operation's type
- two msisdns | 30 0D 80 02 91 F1 80 02 91 F1 81 01 00 82 00 | not of the operation's type
- a BOOLEAN of no octet | 30 08 80 02 91 F1 81 00 82 00 | not of the operation's type
- a BOOLEAN of two octets | 30 0A 80 02 91 F1 81 02 00 00 82 00 | not of the operation's type
- a constructed msisdn | 30 07 A0 00 81 01 00 82 00 | not of the operation's type
- a constructed serviceCentreAddress | 30 09 80 02 91 F1 81 01 00 A2 00 | not of the operation's type
- a constructed BOOLEAN and an msisdn of no octet: the type is looked at before the msisdn
  | 30 06 80 00 A1 00 82 00 | not of the operation's type
- an msisdn of no octet | 30 07 80 00 81 01 00 82 00 | an identity or a number that is none
- an msisdn whose first octet says that another follows
  | 30 09 80 02 11 F1 81 01 00 82 00 | an identity or a number that is none
- an msisdn with a digit that is none
  | 30 09 80 02 91 1F 81 01 00 82 00 | an identity or a number that is none
";

#[test]
fn routes_are_read(rt: HostRuntime) -> Result<(), Fail> {
    check(&rt, ROUTES, |alloc, text| {
        let bump = Bump::new(alloc);
        let octets = octets(alloc, text)?;
        Ok(match read_route(&read_tree(&bump, &octets)?) {
            Ok(route) => format!(in alloc; "{}", route.msisdn),
            Err(fault) => format!(in alloc; "{fault}"),
        }?)
    })
}

/// Results of sendRoutingInfoForSM for 234150000000001 at 447700900001: the lmsi, and the octets.
const RESULTS: [(Option<Lmsi>, &str); 2] = [
    (
        None,
        "30 15 04 08 32 14 05 00 00 00 00 F1 A0 09 81 07 91 44 77 00 09 00 10",
    ),
    (
        Some(Lmsi([1, 2, 3, 4])),
        "30 1B 04 08 32 14 05 00 00 00 00 F1 A0 0F 81 07 91 44 77 00 09 00 10 04 04 01 02 03 04",
    ),
];

#[test]
fn results_are_written(rt: HostRuntime) -> Result<(), Fail> {
    let subscriber = imsi("234150000000001").ok_or("an imsi")?;
    let msc = number("447700900001").ok_or("a number")?;
    for (lmsi, text) in RESULTS {
        let bump = Bump::new(rt.alloc());
        let tree = route_result(&bump, &subscriber, &msc, lmsi.as_ref())?;
        is_written(&rt, &write_tree(rt.alloc(), &tree)?, text)?;
    }
    Ok(())
}
