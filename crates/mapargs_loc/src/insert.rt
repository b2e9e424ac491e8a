//! insertSubscriberData (TS 29.002, 8.8.1, MAP-INSERT-SUBSCRIBER-DATA; types 17.7.1): its argument, as it is sent.

ghost use Rattle.std.specs.Prelude.{◌≡◌, ◌++◌, IfOk, map, option_map, option_to_list};
ghost use Rattle.hlr_types.specs.Tbcd.{tbcd};
ghost use Rattle.x690.specs.Tree.{Primitive, element};
ghost use Rattle.berwrite.specs.OwnTrees.{own, owns};
ghost use Rattle.frames.specs.declared.tags.TheConstants.{INSERT_IMSI, TELESERVICE_LIST};
ghost use Rattle.frames.specs.SentTrees.{subscriber_trees, teleservice_tree, teleservice_trees, insert_tree};

use berwrite::{Memory, OwnTree};
use bumpalo::Bump;
use bumpalo::collections::into_bump_slice;
use frames::numbers::SERVICE_GRANTED;
use frames::tags::{
    INSERT_IMSI, INSERT_MSISDN, OCTET_STRING, SEQUENCE, SUBSCRIBER_STATUS, TELESERVICE_LIST,
};
use hlr_types::{Imsi, IsdnAddress};

/// The elements of an argument, in the arena.
type Elements<'a> = Vec<OwnTree<'a>, &'a Bump>;

/// The imsi `80`, if there is one.
fn identity<'a>(bump: &'a Bump, imsi: Option<&Imsi>) -> Result<Elements<'a>, Memory>
    ensures { IfOk result (λ elements. owns elements.items
        ≡ option_to_list (option_map (λ i. Primitive INSERT_IMSI (tbcd i.now)) imsi.entry)) }
{
    let mut elements = Vec::with_capacity(bump, 4)?;
    if let Some(imsi) = imsi {
        elements.push(OwnTree::primitive(bump, INSERT_IMSI, imsi.octets().as_slice())?)?;
    }
    Ok(elements)
}

/// Appends the msisdn `81` and the subscriberStatus `83 01 00`, if there is an MSISDN.
fn push_subscriber<'a>(
    bump: &'a Bump,
    elements: &mut Elements<'a>,
    msisdn: Option<&IsdnAddress>,
) -> Result<(), Memory>
    ensures { IfOk result (λ _. owns elements.new.items
        ≡ owns elements.old.items ++ subscriber_trees (option_map (λ m. m.now) msisdn.entry)) }
{
    let Some(msisdn) = msisdn else {
        return Ok(());
    };
    elements.push(OwnTree::primitive(bump, INSERT_MSISDN, msisdn.octets().as_slice())?)?;
    elements.push(OwnTree::of_octets(SUBSCRIBER_STATUS, &[SERVICE_GRANTED]))?;
    Ok(())
}

/// The teleserviceList `A6`, with a code `04` in each of its elements.
fn teleservices<'a>(bump: &'a Bump, codes: &[u8]) -> Result<OwnTree<'a>, Memory>
    ensures { IfOk result (λ tree. own tree
        ≡ element TELESERVICE_LIST (map teleservice_tree codes.now)) }
{
    let mut elements = Vec::with_capacity(bump, codes.len())?;
    for code in codes {
        elements.push(OwnTree::primitive(bump, OCTET_STRING, &[*code])?)?;
    }
    Ok(OwnTree::of_children(TELESERVICE_LIST, into_bump_slice(elements)))
}

/// Appends the teleserviceList, if there are codes.
fn push_teleservices<'a>(
    bump: &'a Bump,
    elements: &mut Elements<'a>,
    codes: &[u8],
) -> Result<(), Memory>
    ensures { IfOk result (λ _. owns elements.new.items
        ≡ owns elements.old.items ++ teleservice_trees codes.now) }
{
    if codes.is_empty() {
        return Ok(());
    }
    elements.push(teleservices(bump, codes)?)?;
    Ok(())
}

/// The InsertSubscriberDataArg: `30`, and in it the imsi `80`, the msisdn `81` with the subscriberStatus serviceGranted
/// `83 01 00`, and the teleserviceList `A6`, each if it is given; no list if there are no codes.
pub fn insert_arg<'a>(
    bump: &'a Bump,
    imsi: Option<&Imsi>,
    msisdn: Option<&IsdnAddress>,
    codes: &[u8],
) -> Result<OwnTree<'a>, Memory>
    ensures { IfOk result (λ tree. own tree
        ≡ insert_tree (option_map (λ i. i.now) imsi.entry)
        (option_map (λ m. m.now) msisdn.entry) codes.now) }
{
    let mut elements = identity(bump, imsi)?;
    push_subscriber(bump, &mut elements, msisdn)?;
    push_teleservices(bump, &mut elements, codes)?;
    Ok(OwnTree::of_children(SEQUENCE, into_bump_slice(elements)))
}
