//! Why a parameter is no argument.

use thiserror::Error;

/// Why a parameter is no argument. The whole type is checked before the first value (profile).
#[derive(Clone, Copy, Debug, PartialEq, Eq, Drop, Error)]
pub enum ArgFault {
    /// It is not of the operation's type: its tags, their order, primitive or constructed.
    #[error("not of the operation's type")]
    Mistyped,
    /// It is of the type, but an identity or a number in it is invalid.
    #[error("an identity or a number that is none")]
    BadValue,
}
