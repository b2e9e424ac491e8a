//! The application contexts of MAP (3GPP TS 29.002, MAP-ApplicationContexts): what the name of one says, and what a peer may
//! invoke in it.
#![tactic(auto)]

ghost use Rattle.std.specs.Prelude.{◌≡◌, option_map};
ghost use Rattle.machine.specs.Contexts.{context_of, name_of, octet_of, operation_of};
ghost use Rattle.mapctx.specs.Seen.{by_octets, context, named, with_octet};

use hlr_types::ShortList;
use machine::numbers::{
    LOCATION_CANCELLATION, MAP_AC, MS_PURGING, NETWORK_LOC_UP, PURGE_MS, SEND_ROUTING_INFO_FOR_SM,
    SHORT_MSG_GATEWAY, SUBSCRIBER_DATA_MNGT, UPDATE_LOCATION, VERSION_3,
};

/// An application context's name: 1 to 32 octets, as they were received (Q.773, application-context-name).
pub type ContextName = ShortList<32>;

/// An application context of version 3.
#[derive(Clone, Copy, Debug, PartialEq, Eq)]
pub enum Context {
    NetworkLocUp,
    LocationCancellation,
    SubscriberDataMngt,
    ShortMsgGateway,
    MsPurging,
}

/// What the name of a context says.
#[derive(Clone, Copy, PartialEq, Eq)]
pub enum Named {
    /// It is the name of this context.
    Known(Context),
    /// It is the name of another version of this context, in which a peer may begin.
    OtherVersion(Context),
    /// It is neither.
    Unknown,
}

/// What this name says: the octets `04 00 00 01 00`, one for the context and one for the version. It does not allocate.
///
/// Limitation: other versions are recognized only of contexts in which a peer may begin.
#[tactic(auto, using(crate::proofs::Names::names))]
pub fn context_of(name: &[u8]) -> Named
    ensures { named result ≡ context_of name.now }
{
    let [a, b, c, d, e, octet, version] = name else {
        return Named::Unknown;
    };
    if [*a, *b, *c, *d, *e] == MAP_AC {
        of_octets(*octet, *version)
    } else {
        Named::Unknown
    }
}

/// The name of a context, seven octets, as it is sent in an AARQ or an AARE. It does not allocate.
pub fn name_of(of: Context) -> [u8; 7]
    ensures { result ≡ name_of (context of) }
{
    let [a, b, c, d, e] = MAP_AC;
    [a, b, c, d, e, octet_of(of), VERSION_3]
}

/// The operation that a peer may invoke in this context; if there is none, a peer may not begin in it. It does not allocate.
pub fn operation_of(of: Context) -> Option<u8>
    ensures { result ≡ operation_of (context of) }
{
    match of {
        Context::NetworkLocUp => Some(UPDATE_LOCATION),
        Context::ShortMsgGateway => Some(SEND_ROUTING_INFO_FOR_SM),
        Context::MsPurging => Some(PURGE_MS),
        Context::LocationCancellation | Context::SubscriberDataMngt => None,
    }
}

/// The octet that distinguishes the contexts.
fn octet_of(of: Context) -> u8
    ensures { result ≡ octet_of (context of) }
{
    match of {
        Context::NetworkLocUp => NETWORK_LOC_UP,
        Context::LocationCancellation => LOCATION_CANCELLATION,
        Context::SubscriberDataMngt => SUBSCRIBER_DATA_MNGT,
        Context::ShortMsgGateway => SHORT_MSG_GATEWAY,
        Context::MsPurging => MS_PURGING,
    }
}

/// What the two octets say that differ between MAP's names.
fn of_octets(octet: u8, version: u8) -> Named
    ensures { named result ≡ by_octets (with_octet octet) version }
{
    match with_octet(octet) {
        Some(context) if version == VERSION_3 => Named::Known(context),
        Some(context) if operation_of(context).is_some() => Named::OtherVersion(context),
        _ => Named::Unknown,
    }
}

/// The context with this octet.
fn with_octet(octet: u8) -> Option<Context>
    ensures { option_map context result ≡ with_octet octet }
{
    match octet {
        NETWORK_LOC_UP => Some(Context::NetworkLocUp),
        LOCATION_CANCELLATION => Some(Context::LocationCancellation),
        SUBSCRIBER_DATA_MNGT => Some(Context::SubscriberDataMngt),
        SHORT_MSG_GATEWAY => Some(Context::ShortMsgGateway),
        MS_PURGING => Some(Context::MsPurging),
        _ => None,
    }
}
