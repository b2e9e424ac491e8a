//! Runs in which dialogues open (TS 29.002, 8.1.2, 8.1.3 and 8.8.1; TS 23.012): updates, cancels and new subscriber data.

use crate::dialogue_parts::*;
use crate::run::{Line, RECORDS, plays};
use crate::updates::at;
use std::test::Fail;

/// Nine codes need two inserts, whose results may come in any order.
#[test]
fn two_inserts(rt: HostRuntime) -> Result<(), Fail> {
    plays(
        &rt,
        RECORDS,
        &[
            from(B, &SECOND_UPDATE),
            from(B, &result_of("02", "$A")),
            from(B, &result_of("01", "$A")),
        ],
        &[at(B, &second_data("a")), at(B, &UPDATED)],
    )
}

/// A result that comes twice, an invoke id that the peer already uses, and a linked id of no invocation: each is rejected.
#[test]
fn late_and_linked_components(rt: HostRuntime) -> Result<(), Fail> {
    let late = result_of("01", "$A");
    plays(
        &rt,
        RECORDS,
        &[from(B, &SECOND_UPDATE), from(B, &late), from(B, &late)],
        &[
            at(B, &second_data("a")),
            at(B, &rejected("a", "02 01 01 82 01 00")),
        ],
    )?;
    plays(
        &rt,
        RECORDS,
        &[
            from(B, &SECOND_UPDATE),
            from(B, &continued("16", "$A", "08 A1 06 02 01 01 02 01 02")),
        ],
        &[
            at(B, &second_data("a")),
            at(B, &rejected("a", "02 01 01 81 01 00")),
        ],
    )?;
    plays(
        &rt,
        RECORDS,
        &[
            from(B, &SECOND_UPDATE),
            from(
                B,
                &continued("19", "$A", "0B A1 09 02 01 05 80 01 09 02 01 02"),
            ),
        ],
        &[
            at(B, &second_data("a")),
            at(B, &rejected("a", "02 01 05 81 01 05")),
        ],
    )
}

/// The VLR number with another nature of address is the same register: no cancel is sent.
#[test]
fn same_digits_other_kind(rt: HostRuntime) -> Result<(), Fail> {
    let [begin, portion, context, update, last, _] = UPDATE_AT_B;
    let numbers = "81 07 91 44 77 00 09 00 20 04 07 A1 44 77 00 09 00 11";
    plays(
        &rt,
        RECORDS,
        &[
            from(B, &[begin, portion, context, update, last, numbers]),
            from(B, &result_of("01", "$A")),
        ],
        &[at(B, &data("a")), at(B, &UPDATED)],
    )
}

/// A result of an unknown invocation is rejected.
#[test]
fn result_of_unknown_invoke(rt: HostRuntime) -> Result<(), Fail> {
    plays(
        &rt,
        RECORDS,
        &[from(B, &UPDATE_AT_B), from(B, &result_of("02", "$A"))],
        &[
            at(B, &data("a")),
            at(B, &rejected("a", "02 01 02 82 01 00")),
        ],
    )
}

/// The timer of an insert expires at 20, not before: the update fails.
#[test]
fn expired_insert(rt: HostRuntime) -> Result<(), Fail> {
    plays(
        &rt,
        RECORDS,
        &[from(B, &UPDATE_AT_B), Line::Said("C 19"), Line::Said("E")],
        &[at(B, &data("a"))],
    )?;
    plays(
        &rt,
        RECORDS,
        &[from(B, &UPDATE_AT_B), Line::Said("C 20"), Line::Said("E")],
        &[at(B, &data("a")), at(B, &FAILED)],
    )
}

/// The id of a closed dialogue names none, although another has opened since.
#[test]
fn old_id_after_reuse(rt: HostRuntime) -> Result<(), Fail> {
    let result = result_of("01", "$A");
    plays(
        &rt,
        RECORDS,
        &[from(B, &UPDATE_AT_B), from(B, &result), from(B, &result)],
        &[
            at(B, &data("a")),
            at(B, &UPDATED),
            at(A, &cancel("b", "00")),
            at(B, &["67 09 49 04 00 00 00 0B 4A 01 01"]),
        ],
    )
}

/// The source of a Continue in an Active dialogue is ignored, and answers go to the peer that began it. A cancel that is answered
/// by a Continue ends with an End.
#[test]
fn other_source_and_cancel_that_continues(rt: HostRuntime) -> Result<(), Fail> {
    plays(
        &rt,
        RECORDS,
        &[
            from(B, &UPDATE_AT_B),
            from(C, &result_of("01", "$A")),
            from(
                A,
                &[
                    "65 13 48 04 00 00 00 21 49 04",
                    "$B",
                    "6C 05 A2 03 02 01 01",
                ],
            ),
        ],
        &[
            at(B, &data("a")),
            at(B, &UPDATED),
            at(A, &cancel("b", "00")),
            at(A, &["64 06 49 04 00 00 00 21"]),
        ],
    )
}

/// A subscriber is withdrawn during an update: the old register gets a cancel, and the update fails.
#[test]
fn withdrawn_during_update(rt: HostRuntime) -> Result<(), Fail> {
    plays(
        &rt,
        RECORDS,
        &[
            from(B, &UPDATE_AT_B),
            Line::Said("X 234150000000001"),
            from(B, &result_of("01", "$A")),
        ],
        &[at(B, &data("a")), at(A, &cancel("b", "01")), at(B, &FAILED)],
    )
}
