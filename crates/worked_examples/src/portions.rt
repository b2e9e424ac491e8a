//! Dialogue portions (Q.773, TS 29.002), without the last two octets of the context's name: its number and its version.

/// An AARQ up to there.
pub const AARQ: &str =
    "6B 1E 28 1C 06 07 00 11 86 05 01 01 01 A0 11 60 0F 80 02 07 80 A1 09 06 07 04 00 00 01 00";

/// An AARE up to there.
pub const AARE: &str =
    "6B 2A 28 28 06 07 00 11 86 05 01 01 01 A0 1D 61 1B 80 02 07 80 A1 09 06 07 04 00 00 01 00";

/// The rest of the AARE of an accepted dialogue.
pub const ACCEPTED: &str = "A2 03 02 01 00 A3 05 A1 03 02 01 00";

/// The rest of the AARE of a dialogue whose context is not supported.
pub const NOT_SUPPORTED: &str = "A2 03 02 01 01 A3 05 A1 03 02 01 02";

/// networkLocUp, version 3.
pub const LOCATION: &str = "01 03";

/// shortMsgGateway, version 3.
pub const SHORT_MESSAGE: &str = "14 03";

/// msPurging, version 3.
pub const PURGING: &str = "1B 03";
