//! The limits of what is read and sent (profile; X.690 has none). Definitions and code read them from here.

/// The most octets in a frame.
pub const MAX_OCTETS: usize = 4096;

/// The most levels in a frame's tree.
pub const MAX_LEVELS: usize = 32;
