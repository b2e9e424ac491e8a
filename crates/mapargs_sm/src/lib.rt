//! The parameters of MAP's sendRoutingInfoForSM (3GPP TS 29.002): the argument that is received, and the result that is sent.
//!
//! The reader does not allocate. The writer returns the tree of the parameter alone, without the component around it.
#![tactic(auto)]

mod argument;
mod outcome;

pub use argument::{RouteArg, read_route};
pub use mapargs_loc::ArgFault;
pub use outcome::route_result;
