//! The octets of frames of all lengths about those that are read at once.

use hex::encode_upper;
use hlr_input::read_octets;
use std::alloc::{AllocError, Global};
use std::test::Fail;

/// So many octets, no two of which are equal.
fn octets(alloc: Global, count: u8) -> Result<Vec<u8>, AllocError> {
    (0..count)
        .map(|place| place.wrapping_mul(37).wrapping_add(11))
        .collect(alloc)
}

/// Whether octets are read from their digits as they were.
fn are_read(alloc: Global, octets: &[u8]) -> Result<bool, AllocError> {
    let text = encode_upper(alloc, octets)?;
    match read_octets(Vec::new(alloc), text.as_bytes(), Some(&[]))? {
        Some(read) => Ok(read.as_slice() == octets),
        None => Ok(false),
    }
}

#[test]
fn octets_of_all_lengths(rt: HostRuntime) -> Result<(), Fail> {
    for count in 1..50 {
        let octets = octets(rt.alloc(), count)?;
        assert!(rt; are_read(rt.alloc(), &octets)?, "{count} octets");
    }
    Ok(())
}
