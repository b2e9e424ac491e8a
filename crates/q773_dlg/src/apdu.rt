//! What a dialogue portion holds (Q.773, dialogue portion).

use thiserror::Error;

/// The result source diagnostic of an AARE: who found a fault in the request, and which.
#[derive(Clone, Copy, Debug, PartialEq, Eq)]
pub enum Diagnostic {
    OfUser(u8),
    OfProvider(u8),
}

/// An AARE: the application context's name, the result, and why.
///
/// Limitation: a result and a diagnostic are any octet (profile).
#[derive(Clone, Copy, Debug, PartialEq, Eq)]
pub struct Response<'a> {
    pub context: &'a [u8],
    pub result: u8,
    pub diagnostic: Diagnostic,
}

/// A dialogue APDU.
///
/// Limitation: user information, which may end each of them, is accepted and not kept (profile).
#[derive(Clone, Copy, PartialEq, Eq)]
pub enum Apdu<'a> {
    /// A request, with the application context's name.
    Aarq(&'a [u8]),
    /// A response.
    Aare(Response<'a>),
    /// An abort by the user, 0, or by the provider, 1.
    Abrt(u8),
}

/// The node is no dialogue portion that can be read.
#[derive(Clone, Copy, Debug, PartialEq, Eq, Drop, Error)]
#[error("unreadable dialogue portion")]
pub struct Unreadable;
