//! The worked records, and their routes.

use hlr_types::{Digits, Imsi, IsdnAddress, Lmsi};
use records::{Loaded, read_records, shard_of};
use smroute::{RouteAnswer, route_sm};
use std::process::Abort;
use std::test::Fail;

const WORKED: &[u8] = b"HLR2 447700900100
234150000000001 447700900000 11,21 * 447700900011,447700900001,-,s a
234150000000002 447700900202 11,12,20,21,22,61,62,91,92 * - a
234150000000003 447700900203 21 4478 - a
234150000000004 447700900204 11 * - a
234150000000005 447700900205 20 * 447700900012,447700900002,0aBc09Ff,s a
234150000000006 447700900206 20 * 447700900012,447700900002,-,p a
234150000000007 447700900207 22 * 447700900012,447700900002,-,p a
234150000000008 447700900208 21 * - w
";

/// The number of the MSC and the LMSI, or the code of the error.
type Route = Result<(&'static str, Option<[u8; 4]>), u8>;

/// A subscriber, and the route to it.
const ROUTES: [(&str, Route); 9] = [
    ("234150000000001", Ok(("447700900001", None))),
    ("234150000000002", Err(6)),
    ("234150000000003", Err(6)),
    ("234150000000004", Err(11)),
    (
        "234150000000005",
        Ok(("447700900002", Some([0x0A, 0xBC, 0x09, 0xFF]))),
    ),
    ("234150000000006", Err(6)),
    ("234150000000007", Err(11)),
    ("234150000000008", Err(1)),
    ("234150000000009", Err(1)),
];

fn digits(text: &str) -> Option<Digits> {
    Digits::from_text(text.as_bytes())
}

fn answer_of(imsi: Imsi, route: &Route) -> Option<RouteAnswer> {
    let (msc, octets) = match route {
        Ok((msc, octets)) => (msc, octets),
        Err(code) => return Some(RouteAnswer::NoRoute(*code)),
    };
    let lmsi = match octets {
        Some(octets) => Some(Lmsi(*octets)),
        None => None,
    };
    Some(RouteAnswer::RouteTo {
        imsi,
        msc: IsdnAddress::new(digits(msc)?),
        lmsi,
    })
}

/// Whether the answer for this IMSI, in the shard of its last digits, is this route.
fn is_answered(loaded: &Loaded, text: &str, route: &Route) -> Option<bool> {
    let imsi = Imsi::from_digits(digits(text)?).ok()?;
    let part = loaded.part(shard_of(&imsi)).ok()?;
    let answer = route_sm(part.get(&imsi));
    Some(Some(answer) == answer_of(imsi, route))
}

fn check(rt: &impl Abort, loaded: &Loaded, rows: &[(&str, Route)]) {
    for (text, route) in rows {
        assert!(rt; is_answered(loaded, text, route) == Some(true), "{text}");
    }
}

#[test]
fn worked_answers(rt: HostRuntime) -> Result<(), Fail> {
    let loaded = read_records(rt.alloc(), WORKED)?;
    check(&rt, &loaded, &ROUTES);
    Ok(())
}
