//! Why a dialogue is aborted.

use mapctx::ContextName;

/// What an Abort carries.
#[derive(Clone, Copy, PartialEq, Eq)]
pub enum Why {
    /// Nothing.
    NoCause,
    /// A P-Abort cause (Q.773).
    Cause(u8),
    /// The application context is refused: an AARE with this name.
    Refusing(ContextName),
}
