//! What is listed and saved at the end of a run: a script, the frames that it sends, and the lines after them. In the frames a
//! lower case letter stands for a local id.

use crate::run::{RECORDS, is_as_wanted, run_with};
use std::process::Abort;
use std::sync::Wait;
use std::test::Fail;
use std::thread::Threads;

/// A run: the options, the records, the script, the frames that are sent, and the lines at the end.
#[derive(Drop)]
struct Listed<'a> {
    options: &'a str,
    records: &'a str,
    script: &'a str,
    sent: &'a str,
    lines: &'a str,
}

/// The request for the route of the first subscriber.
const REQUEST: &str =
    "F 447700909999 62474804000000016B1E281C060700118605010101A011600F80020780A1090607040000010014036C1FA11D0201010\
    2012D30158007914477000900008101FF820791447700099999\n";

/// The route.
const ROUTE: &str =
    "S 447700909999 64554904000000016B2A2828060700118605010101A01D611B80020780A109060704000001001403A203020100A305A\
    1030201006C21A21F020101301A02012D3015040832140500000000F1A009810791447700090010\n";

/// The listing after the route: the records, no dialogue, and the one entry.
const LISTED_ROUTE: &str = "R 234150000000001 447700900000 11,21 * 447700900011,447700900001,-,s a
R 234150000000002 447700900202 11,12,20,21,22,61,62,91,92 * - a
R 234150000000003 447700900203 21 4478 - a
R 234150000000004 447700900204 11 * - a
J 1 0 F 234150000000001 1
";

/// The listing where one frame has come of which nothing is made: its entry stands in shard 0.
const LISTED_NOTHING: &str = "R 234150000000001 447700900000 11,21 * 447700900011,447700900001,-,s a
R 234150000000002 447700900202 11,12,20,21,22,61,62,91,92 * - a
R 234150000000003 447700900203 21 4478 - a
R 234150000000004 447700900204 11 * - a
J 0 0 F - 0
";

/// Whether a run ends well and prints this.
fn lists(
    rt: &(impl Abort + Threads + Wait + Sync + AllocGlobal),
    one: &Listed,
) -> Result<(), Fail> {
    let ran = run_with(rt, one.options, one.records, one.script)?;
    assert_eq!(rt; ran.status, 0, "{}", one.script);
    let sent = ran.printed.len().saturating_sub(one.lines.len());
    let (frames, lines) = ran.printed.split_at(sent);
    assert!(rt; is_as_wanted(frames, one.sent.as_bytes()), "{}", one.script);
    assert_eq!(rt;
        str::from_utf8(lines).ok(),
        Some(one.lines),
        "{}",
        one.script
    );
    Ok(())
}

/// Whether each of these runs does.
fn all_list(
    rt: &(impl Abort + Threads + Wait + Sync + AllocGlobal),
    runs: &[Listed],
) -> Result<(), Fail> {
    for one in runs {
        lists(rt, one)?;
    }
    Ok(())
}

/// The first route with its listing; the same request cut after its first octets; and version 2 of the records.
#[test]
fn listings_of_routes(rt: HostRuntime) -> Result<(), Fail> {
    all_list(
        &rt,
        &[
            Listed {
                options: "hlr records script --list",
                records: RECORDS,
                script: REQUEST,
                sent: ROUTE,
                lines: LISTED_ROUTE,
            },
            Listed {
                options: "hlr records script --list",
                records: RECORDS,
                script: "F 447700909999 62474804000000016B1E28\n",
                sent: "",
                lines: LISTED_NOTHING,
            },
            Listed {
                options: "hlr records script --list --save",
                records: "HLR2 447700900100\n234150000000002 447700900202 - * - w\n",
                script: "",
                sent: "",
                lines: "R 234150000000002 447700900202 - * - w\nV HLR2 447700900100\nV 234150000000002 447700900202 - * - w\n",
            },
        ],
    )
}

/// A subscription that ends is cancelled at its register; then its updates are refused, and it is saved as withdrawn. Codes that are
/// changed are saved as they are then.
#[test]
fn saved_records(rt: HostRuntime) -> Result<(), Fail> {
    all_list(
        &rt,
        &[
            Listed {
                options: "hlr records script --save",
                records: RECORDS,
                script: "X 234150000000001\nW\n\
                    F 447700900012 624E48040000000B6B1E281C060700118605010101A011600F80020780A1090607040000010001036C26A1240201010\
                    20102301C040832140500000000F1810791447700090020040791447700090021\n",
                sent: "S 447700900011 623F4804a6B1E281C060700118605010101A011600F80020780A1090607040000010002036C17A11502010102010\
                    3A30D040832140500000000F10A0101\n\
                    S 447700900012 643C49040000000B6B2A2828060700118605010101A01D611B80020780A109060704000001000103A203020100\
                    A305A1030201006C08A306020101020101\n",
                lines: "V HLR2 447700900100
V 234150000000001 447700900000 11,21 * - w
V 234150000000002 447700900202 11,12,20,21,22,61,62,91,92 * - a
V 234150000000003 447700900203 21 4478 - a
V 234150000000004 447700900204 11 * - a
",
            },
            Listed {
                options: "hlr records script --save",
                records: RECORDS,
                script: "O 234150000000001 11,22\n",
                sent: "S 447700900011 62504804a6B1E281C060700118605010101A011600F80020780A1090607040000010010036C28A12602010102010\
                    7301E800832140500000000F1810791447700090000830100A606040111040122\n",
                lines: "V HLR2 447700900100
V 234150000000001 447700900000 11,22 * 447700900011,447700900001,-,s a
V 234150000000002 447700900202 11,12,20,21,22,61,62,91,92 * - a
V 234150000000003 447700900203 21 4478 - a
V 234150000000004 447700900204 11 * - a
",
            },
        ],
    )
}

/// Two subscribers of one shard: when the timers of both have run out, an expiry ends the update of the first, the next that of the
/// other. The journal of the shard has six entries.
#[test]
fn one_subscriber_alone(rt: HostRuntime) -> Result<(), Fail> {
    let mut records = String::from_str(rt.alloc(), RECORDS)?;
    records.push_str("234150000000017 447700900217 11 * -\n")?;
    let script = "\
        F 447700900012 624E48040000000B6B1E281C060700118605010101A011600F80020780A1090607040000010001036C26A1240201010\
        20102301C040832140500000000F1810791447700090020040791447700090021\nW\nC 5\nW\n\
        F 447700900012 624E48040000000C6B1E281C060700118605010101A011600F80020780A1090607040000010001036C26A1240201010\
        20102301C040832140500000010F7810791447700090020040791447700090021\nW\nC 25\nW\nE\nW\nE\n";
    let journal =
        "J 1 0 F 234150000000001 1\nJ 1 1 C - 0\nJ 1 2 F 234150000000017 1\nJ 1 3 C - 0\nJ 1 4 E 234150000000001 1\n\
        J 1 5 E 234150000000017 1\nJ 2 0 C - 0\n";
    let ran = run_with(&rt, "hlr records script --list", &records, script)?;
    assert_eq!(rt; ran.status, 0);
    let printed = str::from_utf8(&ran.printed).ok().ok_or("no text")?;
    assert!(rt; printed.contains(journal), "{printed}");
    Ok(())
}

/// 65,537 events of one shard are one more than a journal has room for: it is cut before the last one, by one thread and by workers.
#[test]
fn journal_over_many_epochs(rt: HostRuntime) -> Result<(), Fail> {
    let mut script = String::new(rt.alloc());
    for _ in 0..=65_536 {
        script.push_str("F 1 -\n")?;
    }
    for options in [
        "hlr records script --list",
        "hlr records script --list --workers 1",
        "hlr records script --list --workers 2",
        "hlr records script --list --workers 16",
    ] {
        let run = Listed {
            options,
            records: RECORDS,
            script: &script,
            sent: "",
            lines: LISTED_NOTHING,
        };
        lists(&rt, &run)?;
    }
    Ok(())
}
