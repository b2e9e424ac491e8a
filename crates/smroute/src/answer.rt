//! The answer to a sendRoutingInfoForSM.

use hlr_types::{Imsi, IsdnAddress, Lmsi};

/// The answer to a sendRoutingInfoForSM (TS 29.002, 12.1): an error code, or the route.
#[derive(Clone, Copy, PartialEq, Eq)]
pub enum RouteAnswer {
    /// The code of unknownSubscriber, absentSubscriberSM or teleserviceNotProvisioned.
    NoRoute(u8),
    /// The subscriber, the number of the serving MSC, and the LMSI under which the VLR knows the subscriber.
    RouteTo {
        imsi: Imsi,
        msc: IsdnAddress,
        lmsi: Option<Lmsi>,
    },
}
