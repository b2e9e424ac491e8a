//! Frames that are no message, or for no dialogue (Q.773, Q.774).

use crate::run::{Frame, RECORDS, answers, repeated};
use std::process::Abort;
use std::sync::Wait;
use std::test::Fail;
use std::thread::Threads;

/// Each of these frames is answered with the one after it, or not at all.
fn answered(
    rt: &(impl Abort + Threads + Wait + Sync + AllocGlobal),
    pairs: &[(&str, &str)],
) -> Result<(), Fail> {
    for (received, sent) in pairs {
        let received = [Frame {
            address: "447700909999",
            parts: &[*received],
        }];
        let answer = [*sent];
        let sent = [Frame {
            address: "447700909999",
            parts: &answer,
        }];
        let count = if answer[0].is_empty() { 0 } else { 1 };
        answers(rt, RECORDS, &received, &sent[..count])?;
    }
    Ok(())
}

/// A message of an unknown type, one without a readable originating id, and one with a wrong portion.
#[test]
fn badly_formed_transactions(rt: HostRuntime) -> Result<(), Fail> {
    answered(
        &rt,
        &[
            (
                "63 06 48 04 00 00 00 01",
                "67 09 49 04 00 00 00 01 4A 01 00",
            ),
            ("63 06 49 04 00 00 00 01", ""),
            (
                "62 08 48 04 00 00 00 01 05 00",
                "67 09 49 04 00 00 00 01 4A 01 03",
            ),
        ],
    )
}

/// A Continue for no dialogue, an End for none, and a destination id of five octets.
#[test]
fn unknown_dialogues(rt: HostRuntime) -> Result<(), Fail> {
    answered(
        &rt,
        &[
            (
                "65 0C 48 04 00 00 00 07 49 04 01 00 00 01",
                "67 09 49 04 00 00 00 07 4A 01 01",
            ),
            ("64 06 49 04 01 00 00 01", ""),
            (
                "65 0D 48 04 00 00 00 07 49 05 01 00 00 00 01",
                "67 09 49 04 00 00 00 07 4A 01 02",
            ),
        ],
    )
}

/// A frame has at most 16 components.
#[test]
fn most_components(rt: HostRuntime) -> Result<(), Fail> {
    let mut most = String::from_str(rt.alloc(), "62 78 48 04 00 00 00 01 6C 70")?;
    most.push_str(repeated(rt.alloc(), " A4 05 05 00 80 01 00", 16)?.as_str())?;
    answered(&rt, &[(most.as_str(), "67 06 49 04 00 00 00 01")])?;
    let mut more = String::from_str(rt.alloc(), "62 7F 48 04 00 00 00 01 6C 77")?;
    more.push_str(repeated(rt.alloc(), " A4 05 05 00 80 01 00", 17)?.as_str())?;
    answered(&rt, &[(more.as_str(), "67 09 49 04 00 00 00 01 4A 01 04")])
}

/// Lengths and tags in long forms, and invalid ones (X.690, 8.1).
#[test]
fn hostile_spellings(rt: HostRuntime) -> Result<(), Fail> {
    answered(
        &rt,
        &[
            (
                "62 84 00 00 00 06 48 04 00 00 00 01",
                "67 06 49 04 00 00 00 01",
            ),
            ("62 85 00 00 00 00 06 48 04 00 00 00 01", ""),
            ("62 08 48 80 00 00 00 01 00 00", ""),
            (
                "7F 1F 06 48 04 00 00 00 01",
                "67 09 49 04 00 00 00 01 4A 01 00",
            ),
            ("7F 1E 06 48 04 00 00 00 01", ""),
            ("7F 80 1F 06 48 04 00 00 00 01", ""),
            ("62 06 48 04 00 00 00 01 00", ""),
        ],
    )
}
