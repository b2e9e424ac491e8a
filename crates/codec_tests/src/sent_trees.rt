//! What is sent, spelled a second time by way of its tree, as each writer of a codec makes its part.

use crate::given::{imsi, number};
use berwrite::{Memory, OwnTree};
use bumpalo::Bump;
use bumpalo::collections::into_bump_slice;
use frames::numbers::{CANCEL_LOCATION, INSERT_SUBSCRIBER_DATA};
use hlr_types::{Imsi, IsdnAddress, Lmsi, RemoteId, ShortList, Tid};
use machine::numbers::{PURGE_MS, ROAMING_NOT_ALLOWED, SEND_ROUTING_INFO_FOR_SM, UPDATE_LOCATION};
use mapargs_loc::{
    CancellationType, cancel_arg, insert_arg, purge_result, roaming_not_allowed, update_result,
};
use mapargs_sm::route_result;
use mapctx::Context;
use mapdlg::{Why, first_answer, first_request, refuse};
use outgoing::{Components, SentComponent, SentMessage, SubscriberData, octets_of};
use q773_comp::{OutComponent, Rejection, Side, component_tree};
use q773_msg::{OutMessage, write_message};
use std::alloc::{AllocError, Global};
use std::process::Abort;
use std::test::Fail;

/// The trees of components, in the arena.
type Trees<'a> = Vec<OwnTree<'a>, &'a Bump>;

fn invoke<'a>(
    bump: &'a Bump,
    id: i8,
    operation: u8,
    parameter: OwnTree<'a>,
) -> Result<OwnTree<'a>, Memory> {
    let out = OutComponent::Invoke {
        id,
        operation,
        parameter,
    };
    component_tree(bump, &out)
}

fn result_last<'a>(
    bump: &'a Bump,
    id: i8,
    operation: u8,
    parameter: OwnTree<'a>,
) -> Result<OwnTree<'a>, Memory> {
    let out = OutComponent::ResultLast {
        id,
        operation,
        parameter,
    };
    component_tree(bump, &out)
}

fn purged<'a>(bump: &'a Bump, id: i8, freeze: bool) -> Result<OwnTree<'a>, Memory> {
    if freeze {
        result_last(bump, id, PURGE_MS, purge_result(bump)?)
    } else {
        component_tree(bump, &OutComponent::EmptyResult { id })
    }
}

fn return_error<'a>(bump: &'a Bump, id: i8, error: u8) -> Result<OwnTree<'a>, Memory> {
    let parameter = if error == ROAMING_NOT_ALLOWED {
        Some(roaming_not_allowed(bump)?)
    } else {
        None
    };
    let out = OutComponent::ReturnError {
        id,
        error,
        parameter,
    };
    component_tree(bump, &out)
}

/// One component.
fn own_component<'a>(bump: &'a Bump, sent: &SentComponent) -> Result<OwnTree<'a>, Memory> {
    match sent {
        SentComponent::Cancel { id, imsi, why } => {
            invoke(bump, *id, CANCEL_LOCATION, cancel_arg(bump, imsi, *why)?)
        }
        SentComponent::UpdateResult { id, hlr } => {
            result_last(bump, *id, UPDATE_LOCATION, update_result(bump, hlr)?)
        }
        SentComponent::PurgeResult { id, freeze } => purged(bump, *id, *freeze),
        SentComponent::RouteResult {
            id,
            imsi,
            msc,
            lmsi,
        } => {
            let route = route_result(bump, imsi, msc, lmsi.as_ref())?;
            result_last(bump, *id, SEND_ROUTING_INFO_FOR_SM, route)
        }
        SentComponent::Error { id, code } => return_error(bump, *id, *code),
    }
}

/// Appends the inserts of a subscriber's data.
fn push_data<'a>(
    bump: &'a Bump,
    trees: &mut Trees<'a>,
    sent: &SubscriberData,
) -> Result<(), Memory> {
    let mut codes = sent.codes.as_slice();
    let mut msisdn = Some(&sent.msisdn);
    // There are at most 32 codes.
    for id in 1i8..5 {
        let (these, rest) = codes.split_at(codes.len().min(8));
        let argument = insert_arg(bump, sent.imsi.as_ref(), msisdn, these)?;
        trees.push(invoke(bump, id, INSERT_SUBSCRIBER_DATA, argument)?)?;
        if rest.is_empty() {
            break;
        }
        codes = rest;
        msisdn = None;
    }
    Ok(())
}

/// The Rejects, then the procedure's own components.
fn component_trees<'a>(
    bump: &'a Bump,
    rejects: &[Rejection],
    sent: &Components,
) -> Result<&'a [OwnTree<'a>], Memory> {
    let mut trees = Vec::new(bump);
    for reject in rejects {
        trees.push(component_tree(bump, &OutComponent::Reject(*reject))?)?;
    }
    match sent {
        Components::Nothing => {}
        Components::One(sent) => trees.push(own_component(bump, sent)?)?,
        Components::Data(sent) => push_data(bump, &mut trees, sent)?,
    }
    Ok(into_bump_slice(trees))
}

/// The dialogue portion that accepts a context, if one is accepted.
fn answer_if<'a>(bump: &'a Bump, of: Option<Context>) -> Result<Option<OwnTree<'a>>, Memory> {
    match of {
        None => Ok(None),
        Some(of) => Ok(Some(first_answer(bump, of)?)),
    }
}

/// A message with the octets of what is sent.
fn out_message<'a>(bump: &'a Bump, sent: &'a SentMessage) -> Result<OutMessage<'a>, Memory> {
    match sent {
        SentMessage::Begin {
            origin,
            context,
            components,
        } => {
            let portion = first_request(bump, *context)?;
            let trees = component_trees(bump, &[], components)?;
            OutMessage::begin(bump, *origin, Some(portion), trees)
        }
        SentMessage::Continue {
            origin,
            destination,
            context,
            rejects,
            components,
        } => {
            let portion = answer_if(bump, *context)?;
            let trees = component_trees(bump, rejects, components)?;
            OutMessage::continue_(bump, *origin, *destination, portion, trees)
        }
        SentMessage::End {
            destination,
            context,
            rejects,
            components,
        } => {
            let portion = answer_if(bump, *context)?;
            let trees = component_trees(bump, rejects, components)?;
            OutMessage::end(bump, *destination, portion, trees)
        }
        SentMessage::Abort { destination, why } => refuse(bump, destination, why),
    }
}

/// The octets of the message's tree.
fn octets_by_tree(alloc: Global, sent: &SentMessage) -> Result<Vec<u8>, Memory> {
    let bump = Bump::new(alloc);
    let message = out_message(&bump, sent)?;
    write_message(alloc, &message)
}

/// The message is sent as the octets of its tree; how many they are.
fn size_by_tree(rt: &(impl Abort + AllocGlobal), sent: &SentMessage) -> Result<usize, Fail> {
    let octets = octets_of(rt.alloc(), sent)?;
    let by_tree = octets_by_tree(rt.alloc(), sent)?;
    assert_eq!(rt; octets.as_slice(), by_tree.as_slice());
    Ok(octets.len())
}

const CONTEXTS: [Context; 5] = [
    Context::NetworkLocUp,
    Context::LocationCancellation,
    Context::SubscriberDataMngt,
    Context::ShortMsgGateway,
    Context::MsPurging,
];

fn subscriber() -> Result<Imsi, Fail> {
    Ok(imsi("234150000000001").ok_or("an imsi")?)
}

fn address() -> Result<IsdnAddress, Fail> {
    Ok(number("447700900001").ok_or("a number")?)
}

fn local() -> Tid {
    Tid([1, 0, 0, 2])
}

fn remote() -> Result<RemoteId, Fail> {
    Ok(RemoteId::read(&[7]).ok_or("id")?)
}

/// Components of each kind that a procedure sends.
fn components_of_each_kind() -> Result<[Components; 13], Fail> {
    let (imsi, msc, id) = (subscriber()?, address()?, -128);
    let data = |imsi, codes| {
        Components::Data(SubscriberData {
            imsi,
            msisdn: msc,
            codes: ShortList::from_slice(codes),
        })
    };
    let route = |lmsi| {
        Components::One(SentComponent::RouteResult {
            id: 127,
            imsi,
            msc,
            lmsi,
        })
    };
    let cancel = |why| Components::One(SentComponent::Cancel { id, imsi, why });
    Ok([
        Components::Nothing,
        cancel(CancellationType::UpdateProcedure),
        cancel(CancellationType::SubscriptionWithdraw),
        Components::One(SentComponent::UpdateResult { id, hlr: msc }),
        Components::One(SentComponent::PurgeResult { id, freeze: true }),
        Components::One(SentComponent::PurgeResult { id, freeze: false }),
        route(None),
        route(Some(Lmsi([1, 2, 3, 4]))),
        Components::One(SentComponent::Error { id, code: 8 }),
        Components::One(SentComponent::Error { id, code: 34 }),
        data(None, &[]),
        data(Some(imsi), &[0x11; 8]),
        data(Some(imsi), &[0x22; 32]),
    ])
}

/// So many Rejects, of each side and with and without an id.
fn rejects(alloc: Global, count: usize) -> Result<Vec<Rejection>, AllocError> {
    let mut rejects = Vec::with_capacity(alloc, count)?;
    for place in 0..count {
        let (id, side) = match place % 4 {
            0 => (Some(-1), Side::OfInvoke),
            1 => (None, Side::General),
            2 => (Some(2), Side::OfResult),
            _ => (Some(3), Side::OfError),
        };
        let problem = (place % 8) as u8;
        rejects.push(Rejection { id, side, problem })?;
    }
    Ok(rejects)
}

fn continued(
    alloc: Global,
    context: Option<Context>,
    count: usize,
    components: Components,
) -> Result<SentMessage, Fail> {
    Ok(SentMessage::Continue {
        origin: local(),
        destination: remote()?,
        context,
        rejects: rejects(alloc, count)?,
        components,
    })
}

fn ended(
    alloc: Global,
    context: Option<Context>,
    count: usize,
    components: Components,
) -> Result<SentMessage, Fail> {
    Ok(SentMessage::End {
        destination: remote()?,
        context,
        rejects: rejects(alloc, count)?,
        components,
    })
}

#[test]
fn messages_of_each_kind(rt: HostRuntime) -> Result<(), Fail> {
    let alloc = rt.alloc();
    for components in components_of_each_kind()? {
        for context in CONTEXTS {
            let begin = SentMessage::Begin {
                origin: local(),
                context,
                components,
            };
            size_by_tree(&rt, &begin)?;
            for count in [0, 1, 16] {
                size_by_tree(&rt, &continued(alloc, Some(context), count, components)?)?;
                size_by_tree(&rt, &ended(alloc, Some(context), count, components)?)?;
            }
        }
        size_by_tree(&rt, &continued(alloc, None, 3, components)?)?;
        size_by_tree(&rt, &ended(alloc, None, 0, components)?)?;
    }
    Ok(())
}

#[test]
fn aborts_of_each_kind(rt: HostRuntime) -> Result<(), Fail> {
    let reasons = [
        Why::NoCause,
        Why::Cause(4),
        Why::Refusing(ShortList::from_slice(&[4])),
        Why::Refusing(ShortList::from_slice(&[4, 0, 0, 1, 0, 1, 3])),
        Why::Refusing(ShortList::from_slice(&[255; 32])),
    ];
    for why in reasons {
        let destination = remote()?;
        size_by_tree(&rt, &SentMessage::Abort { destination, why })?;
    }
    Ok(())
}

/// A Continue with these Rejects and the data of a subscriber with 32 codes.
fn all_codes_sent(rejects: Vec<Rejection>) -> Result<SentMessage, Fail> {
    let data = SubscriberData {
        imsi: Some(subscriber()?),
        msisdn: number("447700900001234").ok_or("a number")?,
        codes: ShortList::from_slice(&[0x22; 32]),
    };
    Ok(SentMessage::Continue {
        origin: local(),
        destination: RemoteId::read(&[1, 2, 3, 4]).ok_or("id")?,
        context: Some(Context::NetworkLocUp),
        rejects,
        components: Components::Data(data),
    })
}

/// The greatest message that the register sends has 16 Rejects.
#[test]
fn greatest_message(rt: HostRuntime) -> Result<(), Fail> {
    let message = all_codes_sent(rejects(rt.alloc(), 16)?)?;
    let size = size_by_tree(&rt, &message)?;
    assert!(rt; 256 < size && size <= 400, "{size}");
    Ok(())
}

/// With enough memory a message of more than 256 octets is spelled. If an allocation fails, the answer says so, and the next one
/// is right: run `rt try --test --fail-alloc N` for N = 1, 2, .. until all tests pass, and look at this one only, since the others
/// need enough memory.
#[test]
fn refused_growth_is_memory(rt: HostRuntime) -> Result<(), Fail> {
    let message = all_codes_sent(Vec::new(rt.alloc()))?;
    let octets = match octets_of(rt.alloc(), &message) {
        Ok(octets) => octets,
        Err(AllocError) => octets_of(rt.alloc(), &message)?,
    };
    assert!(rt; 256 < octets.len());
    Ok(())
}

/// Far more Rejects than a frame of 4,096 octets can give rise to: each number of octets of a length up to three.
#[test]
fn lengths_of_up_to_three_octets(rt: HostRuntime) -> Result<(), Fail> {
    for (count, least) in [
        (24, 128),
        (28, 200),
        (40, 256),
        (500, 3_000),
        (9_000, 65_536),
        (30_000, 200_000),
    ] {
        let message = ended(rt.alloc(), None, count, Components::Nothing)?;
        let size = size_by_tree(&rt, &message)?;
        assert!(rt; least <= size, "{count}: {size}");
    }
    Ok(())
}
