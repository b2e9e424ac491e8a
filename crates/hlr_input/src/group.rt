//! Two characters of a frame's octets.

/// What two characters stand for: an octet in hexadecimal digits, or `$` and a letter A to Z, numbered from 0. A letter stands
/// for the four octets of a local id (profile).
#[derive(Clone, Copy, PartialEq, Eq)]
pub enum Group {
    Octet(u8),
    Letter(u8),
}
