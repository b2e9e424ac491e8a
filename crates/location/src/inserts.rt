//! Subscriber data (TS 29.002, 8.8.1 MAP-INSERT-SUBSCRIBER-DATA), eight codes in an insert (profile).

ghost use Rattle.std.specs.Prelude.{◌≡◌, ◌+◌, ◌<◌, ◌≤◌, ℕ, length};
ghost use Rattle.machine.specs.Outcome.{further, inserts, inserts_invoked};
ghost use Rattle.dialogues.specs.Seen.{dialogue_with};
ghost use Rattle.outgoing.specs.Seen.{components};
ghost use Rattle.location.specs.Seen.{opening_of};

use crate::outcome::Opening;
use dialogues::Dialogue;
use hlr_types::{Imsi, IsdnAddress, ShortList};
use machine::numbers::MAX_CODES_IN_INSERT;
use outgoing::{Components, SubscriberData};

/// How many inserts carry these codes: at least one, since the first has the MSISDN.
fn insert_count(codes: &[u8]) -> u8
    requires { length codes.now ≤ 32 }
    ensures value { result ≡ further codes.now + 1 }
    ensures some { 0 < result }
    ensures most { result ≤ 4 }
{
    (codes.len().saturating_sub(1) / MAX_CODES_IN_INSERT) as u8 + 1
}

/// A dialogue that opens with inserts of these codes.
pub(crate) fn inserting(dialogue: Dialogue, codes: ShortList<32>) -> Opening
    ensures { (clock : ℕ) → opening_of clock result
        ≡ dialogue_with (inserts_invoked clock codes) dialogue }
{
    Opening {
        dialogue,
        invoked: insert_count(codes.as_slice()),
    }
}

/// The inserts. They carry the IMSI if no update names the subscriber.
pub(crate) fn subscriber_data(
    imsi: Option<Imsi>,
    msisdn: IsdnAddress,
    codes: ShortList<32>,
) -> Components
    ensures { components result ≡ inserts imsi msisdn codes }
{
    Components::Data(SubscriberData {
        imsi,
        msisdn,
        codes,
    })
}
