//! A full shard: 4,096 open dialogues (profile).

use crate::dialogue_parts::{B, SECOND_UPDATE, UPDATE_AT_B, UPDATED, data, result_of, second_data};
use crate::portions::{AARQ, LOCATION};
use crate::routes::{request, to_gateway};
use crate::run::{RECORDS, is_as_wanted, push_line, run, run_with};
use crate::updates::{BEGIN, NUMBERS, at};
use std::alloc::Global;
use std::test::Fail;

const MOST: u16 = 4096;

/// A script with this frame 4,097 times, in one batch, and then these lines.
fn filled(alloc: Global, behind: &str) -> Result<String, Fail> {
    let mut script = String::new(alloc);
    for _ in 0..=MOST {
        push_line(&mut script, "F", &at(B, &UPDATE_AT_B))?;
    }
    script.push_str("W\n")?;
    script.push_str(behind)?;
    Ok(script)
}

/// What is sent for it: the data for each dialogue that opens, and then the Abort, cause resourceLimitation.
fn refused(alloc: Global) -> Result<String, Fail> {
    let mut wanted = String::new(alloc);
    for _ in 0..MOST {
        push_line(&mut wanted, "S", &at(B, &data("?")))?;
    }
    push_line(
        &mut wanted,
        "S",
        &at(B, &["67 09 49 04 00 00 00 0B 4A 01 04"]),
    )?;
    Ok(wanted)
}

/// An update that would open one more is answered with an Abort; another shard has room.
#[test]
fn full_shard(rt: HostRuntime) -> Result<(), Fail> {
    let mut second = String::new(rt.alloc());
    push_line(&mut second, "F", &at(B, &SECOND_UPDATE))?;
    let mut wanted = refused(rt.alloc())?;
    push_line(&mut wanted, "S", &at(B, &second_data("a")))?;
    let ran = run(&rt, RECORDS, &filled(rt.alloc(), &second)?)?;
    assert_eq!(rt; ran.status, 0);
    assert!(rt; is_as_wanted(&ran.printed, wanted.as_bytes()));
    Ok(())
}

/// A change that would open one more is refused, and ends the run. What its batch has sent so far is not printed.
#[test]
fn change_in_full_shard(rt: HostRuntime) -> Result<(), Fail> {
    let wanted = refused(rt.alloc())?;
    let mut batch = String::new(rt.alloc());
    push_line(&mut batch, "F", &to_gateway(&request("09 00 00")))?;
    batch.push_str("X 234150000000001\n")?;
    let script = filled(rt.alloc(), &batch)?;
    let ran = run(&rt, RECORDS, &script)?;
    assert_eq!(rt; ran.status, 1);
    assert_eq!(rt; ran.fault.as_slice(), b"hlr: no room\n".as_slice());
    assert!(rt; is_as_wanted(&ran.printed, wanted.as_bytes()));
    Ok(())
}

/// The Begin of an update of another subscriber of the first one's shard.
const OTHER_UPDATE: [&str; 5] = [
    BEGIN,
    AARQ,
    LOCATION,
    "6C 26 A1 24 02 01 01 02 01 02 30 1C 04 08 32 14 05 00 00 00 10 F7",
    NUMBERS,
];

/// A script whose first update completes while its shard is full.
fn completed(alloc: Global) -> Result<String, Fail> {
    let mut script = String::new(alloc);
    push_line(&mut script, "F", &at(B, &UPDATE_AT_B))?;
    script.push_str("W\n")?;
    for _ in 1..MOST {
        push_line(&mut script, "F", &at(B, &OTHER_UPDATE))?;
    }
    script.push_str("W\n")?;
    push_line(&mut script, "F", &at(B, &result_of("01", "$A")))?;
    Ok(script)
}

/// An update that completes in a full shard is answered with its End, and the cancel at the register before takes its place: 4,096
/// dialogues are open.
#[test]
fn update_completes_in_full_shard(rt: HostRuntime) -> Result<(), Fail> {
    let mut records = String::from_str(rt.alloc(), RECORDS)?;
    records.push_str("234150000000017 447700900217 11 * -\n")?;
    let script = completed(rt.alloc())?;
    let ran = run_with(&rt, "hlr records script --list", &records, &script)?;
    let printed = str::from_utf8(&ran.printed).ok().ok_or("no text")?;
    let mut end = String::new(rt.alloc());
    push_line(&mut end, "S", &at(B, &UPDATED))?;
    end.push_str("S 447700900011 623F4804")?;
    assert!(rt; printed.contains(end.as_str()));
    let (mut open, mut cancels) = (0u64, 0u64);
    for line in printed.lines() {
        if line.starts_with("D ") {
            open = open.saturating_add(1);
            cancels = cancels.saturating_add(u64::from(line.contains(" cancel Sent ")));
        }
    }
    assert_eq!(rt; (ran.status, open, cancels), (0, u64::from(MOST), 1));
    Ok(())
}
