//! The components that a procedure sends (TS 29.002).

use hlr_types::{Imsi, IsdnAddress, Lmsi, ShortList};
use mapargs_loc::CancellationType;

/// A component that a procedure sends, except a subscriber's data.
#[derive(Clone, Copy, PartialEq, Eq)]
pub enum SentComponent {
    /// An Invoke of cancelLocation (8.1.3, MAP_CANCEL_LOCATION).
    Cancel {
        id: i8,
        imsi: Imsi,
        why: CancellationType,
    },
    /// The result of updateLocation (8.1.2, MAP_UPDATE_LOCATION): the number of this register.
    UpdateResult {
        id: i8,
        hlr: IsdnAddress,
    },
    /// The result of purgeMS (8.1.6, MAP_PURGE_MS), with freezeTMSI or without a parameter.
    PurgeResult {
        id: i8,
        freeze: bool,
    },
    /// The result of sendRoutingInfoForSM (12.1, MAP-SEND-ROUTING-INFO-FOR-SM): where short messages go.
    RouteResult {
        id: i8,
        imsi: Imsi,
        msc: IsdnAddress,
        lmsi: Option<Lmsi>,
    },
    /// An error of this code; roamingNotAllowed carries its cause.
    Error {
        id: i8,
        code: u8,
    },
}

/// A subscriber's data, in one or more insertSubscriberData (8.8.1): the codes in order, eight to an insert, and the MSISDN in
/// the first. The IMSI is included if no update names the subscriber.
#[derive(Clone, Copy, PartialEq, Eq)]
pub struct SubscriberData {
    pub imsi: Option<Imsi>,
    pub msisdn: IsdnAddress,
    pub codes: ShortList<32>,
}

/// What a message carries from a procedure.
#[derive(Clone, Copy, PartialEq, Eq)]
pub enum Components {
    Nothing,
    One(SentComponent),
    Data(SubscriberData),
}
