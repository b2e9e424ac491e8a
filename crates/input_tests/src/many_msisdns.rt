//! The directory of many subscribers, who have MSISDNs of all lengths, spread out and in a block.

use hlr_types::{Digits, Imsi, IsdnAddress};
use records::{Directory, read_records};
use std::alloc::{AllocError, Global};
use std::test::Fail;

/// How many subscribers there are: those with the numbers below it.
const COUNT: u32 = 400;

fn imsi_text(alloc: Global, number: u32) -> Result<String, AllocError> {
    format!(in alloc; "2341500000{number:05}")
}

/// The MSISDN of the subscriber with this number, which may be one that there is not. It has 3 to 16 digits where the
/// number is even; the others make a block of numbers one after another.
fn msisdn_text(alloc: Global, number: u32) -> Result<String, AllocError> {
    if number % 2 == 1 {
        return format!(in alloc; "4477009{number:03}");
    }
    let mut text = format!(in alloc; "{number:03}")?;
    for _ in 0..number / 2 % 14 {
        text.push('0')?;
    }
    Ok(text)
}

/// The records file, in the order of the IMSIs.
fn file(alloc: Global) -> Result<String, AllocError> {
    let mut text = format!(in alloc; "HLR1 447700900100\n")?;
    for number in 0..COUNT {
        let imsi = imsi_text(alloc, number)?;
        let msisdn = msisdn_text(alloc, number)?;
        write!(text, "{imsi} {msisdn} 11 * -\n")?;
    }
    Ok(text)
}

/// The IMSI of the subscriber with this number, if there is one.
fn imsi(alloc: Global, number: u32) -> Result<Option<Imsi>, AllocError> {
    if number >= COUNT {
        return Ok(None);
    }
    let text = imsi_text(alloc, number)?;
    let Some(digits) = Digits::from_text(text.as_bytes()) else {
        return Ok(None);
    };
    Ok(Imsi::from_digits(digits).ok())
}

fn found(directory: &Directory, msisdn: &str) -> Option<Imsi> {
    let digits = Digits::from_text(msisdn.as_bytes())?;
    directory.find(&IsdnAddress::new(digits))
}

#[test]
fn many_msisdns(rt: HostRuntime) -> Result<(), Fail> {
    let alloc = rt.alloc();
    let loaded = read_records(alloc, file(alloc)?.as_bytes())?;
    let copy = loaded.directory().try_copy()?;
    for number in 0..2 * COUNT {
        let wanted = imsi(alloc, number)?;
        assert_eq!(rt; wanted.is_some(), number < COUNT);
        let mut msisdn = msisdn_text(alloc, number)?;
        assert!(rt; found(loaded.directory(), &msisdn) == wanted, "{msisdn}");
        assert!(rt; found(&copy, &msisdn) == wanted, "{msisdn} in the copy");
        msisdn.push('5')?;
        assert!(rt; found(&copy, &msisdn).is_none(), "{msisdn}");
    }
    Ok(())
}
