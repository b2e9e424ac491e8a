//! Where short messages for a subscriber go (TS 29.002, 12.1 MAP-SEND-ROUTING-INFO-FOR-SM): the route, or the error.
#![tactic(auto)]

mod answer;
mod route;

pub use answer::RouteAnswer;
pub use route::route_sm;
