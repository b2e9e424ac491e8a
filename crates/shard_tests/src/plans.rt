//! Plans of single events, in a shard with no open dialogue.

use crate::given::{FIRST, imsi, peer, shard};
use crate::samples::{ROUTE, UNKNOWN, UPDATE};
use bumpalo::Bump;
use hlr_types::Imsi;
use hlrcore::{Plan, ShardParts, plan_begin, plan_codes, plan_withdrawal, subject_of_begin};
use location::{After, DialogueChange};
use msgarena::{ReadMessage, Round, Verdict};
use records::read_codes;
use std::alloc::Global;

/// Two subscribers of shard 1: one with a register, one without.
const RECORDS_OF_TWO: &[u8] = b"HLR1 447700900100
234150000000001 447700900000 11,21 * 447700900011,447700900001,-,s
234150000000017 447700900202 21 * -
";

/// An event; a change is of the row's subscriber.
enum Given {
    Begin(&'static [u8]),
    NewCodes,
    Withdrawal,
}

/// What happens to the record.
enum Left {
    Same,
    Placed,
    NewCodes,
    Withdrawn,
}

/// An event, the IMSI that it concerns, whether that has a record, whether a dialogue opens, and what happens to the record.
struct Row {
    given: Given,
    imsi: &'static [u8],
    is_known: bool,
    opens: bool,
    left: Left,
}

const ROWS: [Row; 7] = [
    Row {
        given: Given::Begin(&UPDATE),
        imsi: b"234150000000001",
        is_known: true,
        opens: true,
        left: Left::Placed,
    },
    Row {
        given: Given::Begin(&ROUTE),
        imsi: b"234150000000001",
        is_known: true,
        opens: false,
        left: Left::Same,
    },
    Row {
        given: Given::Begin(&UNKNOWN),
        imsi: b"234150000000033",
        is_known: false,
        opens: false,
        left: Left::Same,
    },
    // New codes go to the register, if there is one.
    Row {
        given: Given::NewCodes,
        imsi: b"234150000000001",
        is_known: true,
        opens: true,
        left: Left::NewCodes,
    },
    Row {
        given: Given::NewCodes,
        imsi: b"234150000000017",
        is_known: true,
        opens: false,
        left: Left::NewCodes,
    },
    Row {
        given: Given::Withdrawal,
        imsi: b"234150000000001",
        is_known: true,
        opens: true,
        left: Left::Withdrawn,
    },
    Row {
        given: Given::Withdrawal,
        imsi: b"234150000000033",
        is_known: false,
        opens: false,
        left: Left::Same,
    },
];

/// The plan of a Begin of these octets.
fn begun(alloc: Global, shard: &ShardParts, octets: &[u8]) -> Option<Plan> {
    let mut bump = Bump::new(alloc);
    let from = peer(b"447700900012").ok()?;
    let indication = Round::take(alloc, &mut bump, from, octets).ok()?;
    let Verdict::Read(message) = indication.verdict() else {
        return None;
    };
    let ReadMessage::Begin {
        origin,
        components,
        ..
    } = message
    else {
        return None;
    };
    let heard = components.as_slice();
    let subject = subject_of_begin(shard.directory(), heard);
    plan_begin(alloc, shard, &indication, *origin, heard, subject).ok()
}

/// The plan of new codes.
fn changed(shard: &ShardParts, imsi: Imsi) -> Option<Plan> {
    let codes = read_codes(b"22")?;
    Some(plan_codes(shard, imsi, codes))
}

/// Whether a Begin is answered, and new codes are the given ones.
fn has_answer(plan: &Plan, given: &Given) -> bool {
    match given {
        Given::Begin(_) => plan.outcome.message.is_some(),
        Given::NewCodes => plan.codes.as_slice() == [0x22].as_slice(),
        Given::Withdrawal => true,
    }
}

fn is_left(after: &After, left: &Left) -> bool {
    match left {
        Left::Same => matches!(after, After::Same),
        Left::Placed => matches!(after, After::Location { .. }),
        Left::NewCodes => matches!(after, After::NewCodes),
        Left::Withdrawn => matches!(after, After::Withdrawn),
    }
}

fn opens(plan: &Plan) -> bool {
    matches!(plan.outcome.dialogue, DialogueChange::Opens(_))
}

/// Whether a plan is as the row has it. A dialogue that opens has the first id.
fn is_plan(plan: &Plan, row: &Row, concerned: Imsi) -> bool {
    let subject = if row.is_known { Some(concerned) } else { None };
    plan.imsi == Some(concerned)
        && plan.subject == subject
        && opens(plan) == row.opens
        && (plan.new == FIRST || !row.opens)
        && is_left(&plan.outcome.after, &row.left)
        && has_answer(plan, &row.given)
}

fn is_so(alloc: Global, row: &Row) -> Option<bool> {
    let shard = shard(alloc, RECORDS_OF_TWO).ok()?;
    let concerned = imsi(row.imsi).ok()?;
    let plan = match row.given {
        Given::Begin(octets) => begun(alloc, &shard, octets)?,
        Given::NewCodes => changed(&shard, concerned)?,
        Given::Withdrawal => plan_withdrawal(&shard, concerned),
    };
    Some(is_plan(&plan, row, concerned))
}

#[test]
fn plans(rt: HostRuntime) {
    for (place, row) in ROWS.iter().enumerate() {
        assert!(rt; is_so(rt.alloc(), row) == Some(true), "row {place}");
    }
}
