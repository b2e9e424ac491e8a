//! A subscriber's data in the buffer of a message (TS 29.002, 8.8.1), each part before what is written already.

ghost use Rattle.std.specs.Prelude.{◌≡◌, ◌+◌, ◌*◌, ◌<◌, ◌∷◌, ◌++◌, List, map, option_map, option_to_list, Some, None, take, drop, pos, OnOk};
ghost use Rattle.x690.specs.Tree.{Tree, Primitive};
ghost use Rattle.hlr_types.specs.Tbcd.{tbcd};
ghost use Rattle.machine.specs.Sent as machine;
ghost use Rattle.machine.specs.Outcome.{below, inserts};
ghost use Rattle.frames.specs.SentTrees.{component_tree, invoke_tree, insert_tree, subscriber_trees, teleservice_tree, teleservice_trees};
ghost use Rattle.frames.specs.declared.numbers.TheConstants.{INSERT_SUBSCRIBER_DATA};
ghost use Rattle.frames.specs.declared.tags.TheConstants.{INSERT_IMSI};
ghost use Rattle.outgoing.specs.Spelled.{spelled};

use crate::buffer::{Buffer, NoRoom};
use crate::component::SubscriberData;
use crate::written_components::put_invoke;
use frames::numbers::{INSERT_SUBSCRIBER_DATA, SERVICE_GRANTED};
use frames::tags::{
    INSERT_IMSI, INSERT_MSISDN, OCTET_STRING, SEQUENCE, SUBSCRIBER_STATUS, TELESERVICE_LIST,
};
use hlr_types::{Imsi, IsdnAddress};

/// The teleserviceList's elements, one for each code, the last first.
fn put_codes(buffer: &mut Buffer, codes: &[u8]) -> Result<(), NoRoom>
    ensures { (behind : List Tree) → buffer.old ≡ spelled behind
        → OnOk result (buffer.new ≡ spelled (map teleservice_tree codes.now ++ behind)) }
{
    for place in (0..codes.len()).rev() {
        buffer.put_primitive(OCTET_STRING, &[codes[place]])?;
    }
    Ok(())
}

/// The teleserviceList `A6`, if there are codes.
fn put_teleservices(buffer: &mut Buffer, codes: &[u8]) -> Result<(), NoRoom>
    ensures { (behind : List Tree) → buffer.old ≡ spelled behind
        → OnOk result (buffer.new ≡ spelled (teleservice_trees codes.now ++ behind)) }
{
    if codes.is_empty() {
        return Ok(());
    }
    let kept = buffer.len();
    put_codes(buffer, codes)?;
    buffer.wrap(TELESERVICE_LIST, kept)
}

/// The msisdn `81` and the subscriberStatus `83`, if there is an MSISDN.
fn put_subscriber(buffer: &mut Buffer, msisdn: Option<&IsdnAddress>) -> Result<(), NoRoom>
    ensures { (behind : List Tree) → buffer.old ≡ spelled behind
        → OnOk result (buffer.new ≡ spelled (subscriber_trees
        (option_map (λ m. m.now) msisdn.entry) ++ behind)) }
{
    let Some(msisdn) = msisdn else {
        return Ok(());
    };
    buffer.put_primitive(SUBSCRIBER_STATUS, &[SERVICE_GRANTED])?;
    buffer.put_primitive(INSERT_MSISDN, msisdn.octets().as_slice())
}

/// The imsi `80`, if there is one.
fn put_identity(buffer: &mut Buffer, imsi: Option<&Imsi>) -> Result<(), NoRoom>
    ensures { (behind : List Tree) → buffer.old ≡ spelled behind
        → OnOk result (buffer.new ≡ spelled (option_to_list
        (option_map (λ digits. Primitive INSERT_IMSI (tbcd digits))
        (option_map (λ i. i.now) imsi.entry)) ++ behind)) }
{
    match imsi {
        Some(imsi) => buffer.put_primitive(INSERT_IMSI, imsi.octets().as_slice()),
        None => Ok(()),
    }
}

/// An Invoke of insertSubscriberData (8.8.1): `30`, and in it the imsi, the msisdn and the codes, each if it is given.
fn put_insert(
    buffer: &mut Buffer,
    id: i8,
    imsi: Option<&Imsi>,
    msisdn: Option<&IsdnAddress>,
    codes: &[u8],
) -> Result<(), NoRoom>
    ensures { (behind : List Tree) → buffer.old ≡ spelled behind
        → OnOk result (buffer.new ≡ spelled (invoke_tree id INSERT_SUBSCRIBER_DATA
        (insert_tree (option_map (λ i. i.now) imsi.entry)
        (option_map (λ m. m.now) msisdn.entry) codes.now) ∷ behind)) }
{
    let kept = buffer.len();
    put_teleservices(buffer, codes)?;
    put_subscriber(buffer, msisdn)?;
    put_identity(buffer, imsi)?;
    buffer.wrap(SEQUENCE, kept)?;
    put_invoke(buffer, id, INSERT_SUBSCRIBER_DATA, kept)
}

/// The invoke id of an insert after the first: the inserts have 1, 2, 3, 4.
fn further_id(place: usize) -> i8
    requires { place < 4 }
    ensures { result ≡ pos (place + 2) }
{
    place as i8 + 2
}

/// The codes of an insert: eight, or those that are left.
fn codes_at(codes: &[u8], place: usize) -> &[u8]
    requires { place < 5 }
    ensures { result.now ≡ take 8 (drop (8 * place) codes.now) }
{
    let rest = &codes[(8 * place).min(codes.len())..];
    &rest[..rest.len().min(8)]
}

/// An insert after the first, at this place among them.
fn put_insert_at(buffer: &mut Buffer, sent: &SubscriberData, place: usize) -> Result<(), NoRoom>
    requires { place < 4 }
    ensures { (behind : List Tree) → buffer.old ≡ spelled behind
        → OnOk result (buffer.new ≡ spelled (component_tree (machine.Insert (pos (place + 2))
        sent.now.imsi None (take 8 (drop (8 * (place + 1)) sent.now.codes))) ∷ behind)) }
{
    let codes = codes_at(sent.codes.as_slice(), place + 1);
    put_insert(buffer, further_id(place), sent.imsi.as_ref(), None, codes)
}

/// The inserts after the first, so many.
fn put_further(buffer: &mut Buffer, sent: &SubscriberData, count: usize) -> Result<(), NoRoom>
    requires { count < 5 }
    ensures { (behind : List Tree) → buffer.old ≡ spelled behind
        → OnOk result (buffer.new ≡ spelled (map component_tree (map
        (λ k. machine.Insert (pos (k + 2)) sent.now.imsi None
        (take 8 (drop (8 * (k + 1)) sent.now.codes))) (below count)) ++ behind)) }
{
    if count == 0 {
        return Ok(());
    }
    put_insert_at(buffer, sent, count - 1)?;
    put_further(buffer, sent, count - 1)
}

/// The first insert, with the MSISDN.
fn put_first_insert(buffer: &mut Buffer, sent: &SubscriberData) -> Result<(), NoRoom>
    ensures { (behind : List Tree) → buffer.old ≡ spelled behind
        → OnOk result (buffer.new ≡ spelled (component_tree (machine.Insert (pos 1)
        sent.now.imsi (Some sent.now.msisdn) (take 8 sent.now.codes)) ∷ behind)) }
{
    let codes = codes_at(sent.codes.as_slice(), 0);
    put_insert(buffer, 1, sent.imsi.as_ref(), Some(&sent.msisdn), codes)
}

/// The inserts of a subscriber's data: eight codes to an insert.
pub(crate) fn put_data(buffer: &mut Buffer, sent: &SubscriberData) -> Result<(), NoRoom>
    ensures { (behind : List Tree) → buffer.old ≡ spelled behind
        → OnOk result (buffer.new ≡ spelled (map component_tree
        (inserts sent.now.imsi sent.now.msisdn sent.now.codes) ++ behind)) }
{
    let codes = sent.codes.as_slice();
    put_further(buffer, sent, codes.len().saturating_sub(1) / 8)?;
    put_first_insert(buffer, sent)
}
