//! Frames whose octets are from outside sources, each written from its message (ITU-T Q.773; 3GPP TS 29.002).

use crate::given::{imsi, number};
use crate::tables::is_written;
use hlr_types::{Imsi, IsdnAddress, RemoteId, ShortList, Tid};
use mapargs_loc::CancellationType;
use mapctx::Context;
use mapdlg::Why;
use outgoing::{Components, SentComponent, SentMessage, SubscriberData, octets_of};
use q773_comp::{Rejection, Side};
use std::process::Abort;
use std::test::Fail;

fn remote(last: u8) -> Result<RemoteId, Fail> {
    Ok(RemoteId::read(&[0, 0, 0, last]).ok_or("id")?)
}

fn local(last: u8) -> Tid {
    Tid([1, 0, 0, last])
}

/// 234150000000001.
fn subscriber() -> Result<Imsi, Fail> {
    Ok(imsi("234150000000001").ok_or("an imsi")?)
}

/// The number with these digits.
fn address(text: &str) -> Result<IsdnAddress, Fail> {
    Ok(number(text).ok_or("a number")?)
}

/// The message is sent as these octets.
fn is_sent(rt: &(impl Abort + AllocGlobal), message: &SentMessage, text: &str) -> Result<(), Fail> {
    is_written(rt, &octets_of(rt.alloc(), message)?, text)
}

/// An End that answers a Begin in a context: the last octet of its destination, the context, the Rejects,
/// the component, the octets.
type Ending<'a> = (u8, Option<Context>, &'a [Rejection], Components, &'a str);

/// Each End is sent as its octets.
fn ends_are_sent(rt: &(impl Abort + AllocGlobal), rows: &[Ending]) -> Result<(), Fail> {
    for (last, context, rejects, components, text) in rows {
        let end = SentMessage::End {
            destination: remote(*last)?,
            context: *context,
            rejects: Vec::from_slice(rt.alloc(), rejects)?,
            components: *components,
        };
        is_sent(rt, &end, text)?;
    }
    Ok(())
}

/// A Reject of an Invoke, and one of a component without an id.
const REJECTS: [Rejection; 2] = [
    Rejection {
        id: Some(2),
        side: Side::OfInvoke,
        problem: 3,
    },
    Rejection {
        id: None,
        side: Side::General,
        problem: 0,
    },
];

#[test]
fn routes_are_answered(rt: HostRuntime) -> Result<(), Fail> {
    let context = Some(Context::ShortMsgGateway);
    let route = Components::One(SentComponent::RouteResult {
        id: 1,
        imsi: subscriber()?,
        msc: address("447700900001")?,
        lmsi: None,
    });
    ends_are_sent(
        &rt,
        &[
            (1, context, &[], route, ROUTED),
            (1, context, &REJECTS[..1], route, REJECTED_AND_ROUTED),
            (1, context, &REJECTS[1..], Components::Nothing, REJECTED),
        ],
    )
}

/// The answer to a route.
const ROUTED: &str = "64 55 49 04 00 00 00 01
    6B 2A 28 28 06 07 00 11 86 05 01 01 01 A0 1D 61 1B 80 02 07 80 A1 09 06 07 04 00 00 01 00 14 03
    A2 03 02 01 00 A3 05 A1 03 02 01 00
    6C 21 A2 1F 02 01 01 30 1A 02 01 2D 30 15 04 08 32 14 05 00 00 00 00 F1 A0 09
    81 07 91 44 77 00 09 00 10";

/// The same with a Reject in front.
const REJECTED_AND_ROUTED: &str = "64 5D 49 04 00 00 00 01
    6B 2A 28 28 06 07 00 11 86 05 01 01 01 A0 1D 61 1B 80 02 07 80 A1 09 06 07 04 00 00 01 00 14 03
    A2 03 02 01 00 A3 05 A1 03 02 01 00
    6C 29 A4 06 02 01 02 81 01 03 A2 1F 02 01 01 30 1A 02 01 2D 30 15 04 08 32 14 05 00 00 00 00 F1
    A0 09 81 07 91 44 77 00 09 00 10";

/// A Reject only.
const REJECTED: &str = "64 3B 49 04 00 00 00 01
    6B 2A 28 28 06 07 00 11 86 05 01 01 01 A0 1D 61 1B 80 02 07 80 A1 09 06 07 04 00 00 01 00 14 03
    A2 03 02 01 00 A3 05 A1 03 02 01 00
    6C 07 A4 05 05 00 80 01 00";

#[test]
fn updates_and_purges_are_answered(rt: HostRuntime) -> Result<(), Fail> {
    let hlr = address("447700900100")?;
    let completed = Components::One(SentComponent::UpdateResult { id: 1, hlr });
    let refused = Components::One(SentComponent::Error { id: 1, code: 8 });
    let purged = |freeze| Components::One(SentComponent::PurgeResult { id: 1, freeze });
    ends_are_sent(
        &rt,
        &[
            (0x0B, None, &[], completed, UPDATED),
            (
                0x0B,
                Some(Context::NetworkLocUp),
                &[],
                refused,
                ROAMING_REFUSED,
            ),
            (0x0C, Some(Context::MsPurging), &[], purged(true), FROZEN),
            (0x0C, Some(Context::MsPurging), &[], purged(false), PURGED),
        ],
    )
}

/// An update completes, in a confirmed dialogue.
const UPDATED: &str = "64 1D 49 04 00 00 00 0B 6C 15 A2 13 02 01 01 30 0E 02 01 02 30 09
    04 07 91 44 77 00 09 10 00";

/// roamingNotAllowed.
const ROAMING_REFUSED: &str = "64 41 49 04 00 00 00 0B
    6B 2A 28 28 06 07 00 11 86 05 01 01 01 A0 1D 61 1B 80 02 07 80 A1 09 06 07 04 00 00 01 00 01 03
    A2 03 02 01 00 A3 05 A1 03 02 01 00
    6C 0D A3 0B 02 01 01 02 01 08 30 03 0A 01 00";

/// A purge with freezeTMSI.
const FROZEN: &str = "64 42 49 04 00 00 00 0C
    6B 2A 28 28 06 07 00 11 86 05 01 01 01 A0 1D 61 1B 80 02 07 80 A1 09 06 07 04 00 00 01 00 1B 03
    A2 03 02 01 00 A3 05 A1 03 02 01 00
    6C 0E A2 0C 02 01 01 30 07 02 01 43 30 02 80 00";

/// A purge without it.
const PURGED: &str = "64 39 49 04 00 00 00 0C
    6B 2A 28 28 06 07 00 11 86 05 01 01 01 A0 1D 61 1B 80 02 07 80 A1 09 06 07 04 00 00 01 00 1B 03
    A2 03 02 01 00 A3 05 A1 03 02 01 00
    6C 05 A2 03 02 01 01";

#[test]
fn codes_go_eight_to_an_insert(rt: HostRuntime) -> Result<(), Fail> {
    let message = SentMessage::Continue {
        origin: local(1),
        destination: remote(0x0B)?,
        context: Some(Context::NetworkLocUp),
        rejects: Vec::new(rt.alloc()),
        components: Components::Data(SubscriberData {
            imsi: None,
            msisdn: address("447700900202")?,
            codes: ShortList::from_slice(&[0x11, 0x12, 0x20, 0x21, 0x22, 0x61, 0x62, 0x91, 0x92]),
        }),
    };
    let octets = "65 79 48 04 01 00 00 01 49 04 00 00 00 0B
        6B 2A 28 28 06 07 00 11 86 05 01 01 01 A0 1D 61 1B 80 02 07 80 A1 09 06 07 04 00 00 01 00 01 03
        A2 03 02 01 00 A3 05 A1 03 02 01 00
        6C 3F A1 2E 02 01 01 02 01 07 30 26 81 07 91 44 77 00 09 20 20 83 01 00 A6 18 04 01 11 04 01 12
        04 01 20 04 01 21 04 01 22 04 01 61 04 01 62 04 01 91 A1 0D 02 01 02 02 01 07 30 05 A6 03
        04 01 92";
    is_sent(&rt, &message, octets)
}

#[test]
fn dialogues_begin(rt: HostRuntime) -> Result<(), Fail> {
    let data = Components::Data(SubscriberData {
        imsi: Some(subscriber()?),
        msisdn: address("447700900000")?,
        codes: ShortList::from_slice(&[0x11, 0x22]),
    });
    let cancel = Components::One(SentComponent::Cancel {
        id: 1,
        imsi: subscriber()?,
        why: CancellationType::UpdateProcedure,
    });
    let rows = [
        (local(3), Context::SubscriberDataMngt, data, NEW_CODES),
        (local(2), Context::LocationCancellation, cancel, CANCELLED),
    ];
    for (origin, context, components, text) in rows {
        let begin = SentMessage::Begin {
            origin,
            context,
            components,
        };
        is_sent(&rt, &begin, text)?;
    }
    Ok(())
}

/// New codes, which name the subscriber.
const NEW_CODES: &str = "62 50 48 04 01 00 00 03
    6B 1E 28 1C 06 07 00 11 86 05 01 01 01 A0 11 60 0F 80 02 07 80 A1 09 06 07 04 00 00 01 00 10 03
    6C 28 A1 26 02 01 01 02 01 07 30 1E 80 08 32 14 05 00 00 00 00 F1 81 07 91 44 77 00 09 00 00
    83 01 00 A6 06 04 01 11 04 01 22";

/// A cancelLocation.
const CANCELLED: &str = "62 3F 48 04 01 00 00 02
    6B 1E 28 1C 06 07 00 11 86 05 01 01 01 A0 11 60 0F 80 02 07 80 A1 09 06 07 04 00 00 01 00 02 03
    6C 17 A1 15 02 01 01 02 01 03 A3 0D 04 08 32 14 05 00 00 00 00 F1 0A 01 00";

#[test]
fn aborts_say_why(rt: HostRuntime) -> Result<(), Fail> {
    let name = ShortList::from_slice(&[4, 0, 0, 1, 0, 1, 3]);
    let rows = [
        (0x0B, Why::Refusing(name), REFUSING),
        (1, Why::Cause(4), "67 09 49 04 00 00 00 01 4A 01 04"),
        (1, Why::NoCause, "67 06 49 04 00 00 00 01"),
    ];
    for (last, why, text) in rows {
        let destination = remote(last)?;
        is_sent(&rt, &SentMessage::Abort { destination, why }, text)?;
    }
    Ok(())
}

/// The Abort that refuses a context.
const REFUSING: &str = "67 32 49 04 00 00 00 0B
    6B 2A 28 28 06 07 00 11 86 05 01 01 01 A0 1D 61 1B 80 02 07 80 A1 09 06 07 04 00 00 01 00 01 03
    A2 03 02 01 01 A3 05 A1 03 02 01 02";
