//! Records files: what is read from them, their faults, and what is written.

use hex::decode;
use hlr_types::{Digits, Imsi, IsdnAddress, Lmsi, Register};
use records::{
    Loaded, Record, Records, RecordsFault, Roam, Version, read_records, save, shard_of, write_line,
};
use std::alloc::{AllocError, Global};
use std::process::Abort;
use std::test::Fail;

const WORKED: &str = "HLR1 447700900100
234150000000001 447700900000 11,21 * 447700900011,447700900001,-,s
234150000000002 447700900202 11,12,20,21,22,61,62,91,92 * -
234150000000003 447700900203 21 4478 -
234150000000004 447700900204 11 * -
";

/// One record, whose LMSI has digits in both cases.
const EVERY_FIELD: &str = "HLR2 1\n12345 2 - 1,2,1 3,4,0aBc09Ff,p a";

/// Two records of one shard.
const TWO: &str = "HLR1 447700900100
234150000000017 447700900217 11 4478,01 -
234150000000001 447700900000 aa,0B * 3,4,0aBc09Ff,p";

/// The same in version 2, by IMSI.
const SAVED: &str = "HLR2 447700900100
234150000000001 447700900000 AA,0B * 3,4,0ABC09FF,p a
234150000000017 447700900217 11 4478,01 - a
";

fn digits(text: &str) -> Option<Digits> {
    Digits::from_text(text.as_bytes())
}

fn imsi(text: &str) -> Option<Imsi> {
    Imsi::from_digits(digits(text)?).ok()
}

fn address(text: &str) -> Option<IsdnAddress> {
    Some(IsdnAddress::new(digits(text)?))
}

fn read(alloc: Global, text: &str) -> Result<Loaded, RecordsFault> {
    read_records(alloc, text.as_bytes())
}

/// The VLR number, the MSC number and the LMSI of a register.
type Numbers = (&'static str, &'static str, Option<[u8; 4]>);

/// The expected record. No prefix stands for every VLR. Codes are in hexadecimal digits.
struct Wanted {
    file: &'static str,
    shard: u8,
    imsi: &'static str,
    msisdn: &'static str,
    codes: &'static str,
    prefixes: &'static [&'static str],
    register: Option<Numbers>,
    purged: bool,
    withdrawn: bool,
}

const RECORDS: [Wanted; 5] = [
    Wanted {
        file: WORKED,
        shard: 1,
        imsi: "234150000000001",
        msisdn: "447700900000",
        codes: "1121",
        prefixes: &[],
        register: Some(("447700900011", "447700900001", None)),
        purged: false,
        withdrawn: false,
    },
    Wanted {
        file: WORKED,
        shard: 2,
        imsi: "234150000000002",
        msisdn: "447700900202",
        codes: "111220212261629192",
        prefixes: &[],
        register: None,
        purged: false,
        withdrawn: false,
    },
    Wanted {
        file: WORKED,
        shard: 3,
        imsi: "234150000000003",
        msisdn: "447700900203",
        codes: "21",
        prefixes: &["4478"],
        register: None,
        purged: false,
        withdrawn: false,
    },
    Wanted {
        file: EVERY_FIELD,
        shard: 13,
        imsi: "12345",
        msisdn: "2",
        codes: "",
        prefixes: &["1", "2", "1"],
        register: Some(("3", "4", Some([0x0A, 0xBC, 0x09, 0xFF]))),
        purged: true,
        withdrawn: false,
    },
    Wanted {
        file: "HLR2 1\n12345 2 - 1,2,1 - w",
        shard: 13,
        imsi: "12345",
        msisdn: "2",
        codes: "",
        prefixes: &["1", "2", "1"],
        register: None,
        purged: false,
        withdrawn: true,
    },
];

fn register(numbers: &Numbers) -> Option<Register> {
    let lmsi = match numbers.2 {
        Some(octets) => Some(Lmsi(octets)),
        None => None,
    };
    Some(Register {
        vlr: address(numbers.0)?,
        msc: address(numbers.1)?,
        lmsi,
    })
}

/// Whether this is the register, or none is expected and none is there.
fn is_register(found: Option<Register>, wanted: &Option<Numbers>) -> bool {
    match wanted {
        Some(numbers) => found.is_some() && found == register(numbers),
        None => found == None,
    }
}

fn are_prefixes(roam: &Roam, wanted: &[&str]) -> bool {
    let Roam::Within(prefixes) = roam else {
        return wanted.is_empty();
    };
    if prefixes.len() != wanted.len() {
        return false;
    }
    for (prefix, text) in prefixes.iter().zip(wanted) {
        if Some(*prefix) != digits(text) {
            return false;
        }
    }
    true
}

/// Whether a record is as expected. No file has an update in progress.
fn is_as_wanted(found: &Record, wanted: &Wanted, codes: &[u8]) -> bool {
    Some(found.imsi) == imsi(wanted.imsi)
        && Some(found.msisdn) == address(wanted.msisdn)
        && found.codes.as_slice() == codes
        && are_prefixes(&found.roam, wanted.prefixes)
        && is_register(found.register, &wanted.register)
        && (found.purged, found.withdrawn) == (wanted.purged, wanted.withdrawn)
        && found.current == None
}

/// Whether the record is only in the part of its own shard.
fn is_in_its_part(parts: &[Records], wanted: &Wanted, codes: &[u8]) -> bool {
    let Some(key) = imsi(wanted.imsi) else {
        return false;
    };
    for (shard, part) in parts.iter().enumerate() {
        let is_own = shard == usize::from(wanted.shard);
        let is_so = match part.get(&key) {
            Some(found) => is_own && is_as_wanted(found, wanted, codes),
            None => !is_own,
        };
        if !is_so {
            return false;
        }
    }
    parts.len() == 16 && shard_of(&key) == wanted.shard
}

fn parts_of(alloc: Global, loaded: &Loaded) -> Result<Vec<Records>, AllocError> {
    let mut parts = Vec::new(alloc);
    for shard in 0..16u8 {
        parts.push(loaded.part(shard)?)?;
    }
    Ok(parts)
}

/// Whether the record is as expected in the parts that are copied and in those that are moved out.
fn is_loaded(alloc: Global, wanted: &Wanted) -> Result<bool, Fail> {
    let codes = decode(alloc, wanted.codes)?;
    let loaded = read(alloc, wanted.file)?;
    let is_copied = is_in_its_part(&parts_of(alloc, &loaded)?, wanted, &codes);
    let parts = loaded.into_parts()?;
    Ok(is_copied && is_in_its_part(&parts, wanted, &codes))
}

fn check_records(rt: &impl Abort, alloc: Global, rows: &[Wanted]) -> Result<(), Fail> {
    for wanted in rows {
        assert!(rt;
            is_loaded(alloc, wanted)?,
            "{} of {}",
            wanted.imsi,
            wanted.file
        );
    }
    Ok(())
}

#[test]
fn records_of_files(rt: HostRuntime) -> Result<(), Fail> {
    check_records(&rt, rt.alloc(), &RECORDS)
}

/// An MSISDN, and its IMSI in the directory of the worked file.
const DIRECTORY: [(&str, Option<&str>); 3] = [
    ("447700900202", Some("234150000000002")),
    ("447700900204", Some("234150000000004")),
    ("447700900999", None),
];

/// Whether the HLR number is as expected, and the directory and a copy of it have this IMSI.
fn is_in_directory(alloc: Global, msisdn: &str, wanted: Option<Imsi>) -> Result<bool, Fail> {
    let loaded = read(alloc, WORKED)?;
    let copy = loaded.directory().try_copy()?;
    let Some(key) = address(msisdn) else {
        return Ok(false);
    };
    Ok(
        Some(*loaded.hlr()) == address("447700900100")
            && loaded.directory().find(&key) == wanted
            && copy.find(&key) == wanted,
    )
}

#[test]
fn directory(rt: HostRuntime) -> Result<(), Fail> {
    for (msisdn, wanted) in &DIRECTORY {
        let wanted = wanted.map_or(None, imsi);
        assert!(rt; is_in_directory(rt.alloc(), msisdn, wanted)?, "{msisdn}");
    }
    Ok(())
}

/// The line of a record of the file with two records, in each version.
const LINES: [(Version, &str, &str); 4] = [
    (
        Version::One,
        "234150000000017",
        "234150000000017 447700900217 11 4478,01 -",
    ),
    (
        Version::Two,
        "234150000000017",
        "234150000000017 447700900217 11 4478,01 - a",
    ),
    (
        Version::One,
        "234150000000001",
        "234150000000001 447700900000 AA,0B * 3,4,0ABC09FF,p",
    ),
    (
        Version::Two,
        "234150000000001",
        "234150000000001 447700900000 AA,0B * 3,4,0ABC09FF,p a",
    ),
];

fn line_of(alloc: Global, version: Version, text: &str) -> Result<String, Fail> {
    let part = read(alloc, TWO)?.part(1)?;
    let key = imsi(text).ok_or("no IMSI")?;
    Ok(write_line(alloc, version, part.get(&key).ok_or("no record")?)?)
}

fn check_lines(rt: &impl Abort, alloc: Global, rows: &[(Version, &str, &str)]) -> Result<(), Fail> {
    for (version, text, wanted) in rows {
        let line = line_of(alloc, *version, text)?;
        assert!(rt; line.as_str() == *wanted, "{version:?} {wanted}");
    }
    Ok(())
}

#[test]
fn written_lines(rt: HostRuntime) -> Result<(), Fail> {
    check_lines(&rt, rt.alloc(), &LINES)
}

/// The file saved from the two records.
fn saved(alloc: Global) -> Result<String, Fail> {
    let loaded = read(alloc, TWO)?;
    let part = loaded.part(1)?;
    let all = part.list()?;
    Ok(save(alloc, loaded.hlr(), &all)?)
}

#[test]
fn saved_file(rt: HostRuntime) -> Result<(), Fail> {
    let text = saved(rt.alloc())?;
    assert!(rt; text.as_str() == SAVED);
    Ok(())
}
