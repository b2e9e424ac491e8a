//! The versions of the records file.

/// The version of a records file (profile). In version 2 each record's line says whether the subscriber is withdrawn.
#[derive(Clone, Copy, PartialEq, Eq, Debug)]
pub enum Version {
    One,
    Two,
}
